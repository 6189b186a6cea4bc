// The conditions of a deck's lines in turn.
ghost use Rattle.std.specs.Prelude.{◌≡◌, cond, [], ◌∷◌, ◌++◌, ◌+◌, ◌≤◌, length, replicate, IfOk};
ghost use Rattle.std.specs.Result.{OnOk};
ghost use Rattle.deck.specs.Parts.{lines_of};
ghost use Rattle.kinds.specs.Kinds.{is_end};
ghost use Rattle.sizes.specs.Sizes.{max_chemicals, most_stages};
ghost use Rattle.cases.specs.Conditions.{at, first, up_to, passed, stopped, status_of};
ghost use Rattle.deck.specs.DeckConditions.{line_conditions, no_end, seen_in, max_lines, max_length, bad_length};
ghost use Rattle.deck.specs.Inner.{max_fields, values_of};

use crate::lines::{Line, Seen, id_of, kind_of, line_status};
use crate::{LINE_WIDTH, MAX_COMPOSITE_LENGTH, MAX_LENGTH};
use cases::numbers::MISCOUNTED;
use cases::{Stop, Value};
use kinds::{Kind, is_end};
use sizes::FIELDS;
use slots::Sort;

// How many chemicals and receptors a deck has.
#[derive(Clone, Copy)]
pub(crate) struct Scan {
    pub(crate) chemicals: usize,
    pub(crate) receptors: usize,
}

fn max_length(sort: Sort) -> usize
    ensures { result ≡ max_length sort }
{
    match sort {
        Sort::Ordinary => MAX_LENGTH,
        Sort::Composite => MAX_COMPOSITE_LENGTH,
    }
}

#[tactic(auto, unfolding(crate::specs::DeckConditions::bad_length))]
pub(crate) fn bad_length(deck: &[u8], sort: Sort) -> bool
    ensures { result ≡ bad_length sort deck.now }
{
    if deck.len() == 0 {
        return true;
    }
    if max_length(sort) < deck.len() {
        return true;
    }
    deck.len() % LINE_WIDTH != 0
}

// The first condition of the lines and the deck's end that holds, or how many records there are. Where the lines are read, the values of their
// fields are kept, so that each field is read once.
pub(crate) fn scan_lines(deck: &[u8], sort: Sort, values: &mut [Value]) -> Result<Scan, Stop>
    requires { (length deck.now ≤ max_length Sort.Composite) × (values.old ≡ replicate max_fields Value.Absent) }
    ensures status_value { status_of result
        ≡ first
        (up_to (line_conditions sort deck.now) (lines_of deck.now)
        ++ (at 21 (lines_of deck.now + 1) 0 (no_end deck.now) ∷ [])) }
    ensures counts_value { IfOk result (λ scan. (scan.chemicals ≡ (seen_in deck.now (lines_of deck.now)).chemicals)
        × (scan.receptors ≡ (seen_in deck.now (lines_of deck.now)).receptors)) }
    ensures counts_few { IfOk result (λ scan. (scan.chemicals ≤ max_chemicals) × (scan.receptors ≤ most_stages)) }
    ensures values_after { OnOk result (values.new ≡ values_of deck.now) }
{
    let (lines, _) = deck.as_chunks::<LINE_WIDTH>();
    let mut seen = Seen {
        kind: Kind::Start,
        id: None,
        chemicals: 0,
        receptors: 0,
    };
    for (n, bytes) in lines.iter().enumerate() {
        let line = Line {
            bytes,
            number: n + 1,
            kind: kind_of(bytes),
            id: id_of(bytes),
        };
        let at = FIELDS * n;
        line_status(sort, seen, &line, &mut values[at..at + FIELDS])?;
        seen = seen.after(&line);
    }
    ended(seen, lines.len())
}

// No EN at the end is told as the line past the last.
#[tactic(auto, unfolding(cases::specs::Conditions::status_of))]
fn ended(seen: Seen, lines: usize) -> Result<Scan, Stop>
    requires { lines ≤ max_lines Sort.Composite }
    ensures status_value { status_of result ≡ cond (is_end seen.kind) passed (stopped 21 (lines + 1) 0) }
    ensures counts_value { IfOk result (λ scan. (scan.chemicals ≡ seen.chemicals) × (scan.receptors ≡ seen.receptors)) }
{
    if !is_end(seen.kind) {
        return Err(Stop::at(MISCOUNTED, lines + 1, 0));
    }
    Ok(Scan {
        chemicals: seen.chemicals,
        receptors: seen.receptors,
    })
}
