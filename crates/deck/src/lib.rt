// A deck, as document 01 calls the input: lines of 80 bytes and a line feed that hold one site, chemicals and receptors.
// `read` answers the case that a deck spells, or the first condition that stops it.
#![tactic(auto)]

mod fields;
mod lines;
mod records;
mod scanning;

ghost use Rattle.std.specs.Prelude.{◌≡◌, ◌≢◌, length, MatchOption};
ghost use Rattle.deck.specs.Parts.{deck_line_width, line_of, field_of};
ghost use Rattle.cases.specs.Conditions.{first, told_of, status_of};
ghost use Rattle.deck.specs.DeckConditions.{conditions};
ghost use Rattle.deck.specs.DeckCase.{read_of};

use cases::numbers::WRONG_LENGTH;
use cases::{Case, Stop, Value};
use fields::field_part;
use records::Fields;
use scanning::{bad_length, scan_lines};
use sizes::{FIELDS, MAX_CHEMICALS, MAX_RECEPTORS, MAX_STAGES, RECORD_LINES, SITE_LINES};
use slots::Sort;
use spelling::{FIELD_WIDTH, ID_WIDTH};

// The columns of a line's kind; those before its first field, kind and id; and all of them.
const KIND_WIDTH: usize = 2;

pub const FIELDS_START: usize = KIND_WIDTH + ID_WIDTH;

const COLUMNS: usize = FIELDS_START + FIELD_WIDTH * FIELDS;

// A line: its columns and a line feed.
pub const LINE_WIDTH: usize = COLUMNS + 1;

type Bytes = [u8; LINE_WIDTH];

// The site, all chemicals and receptors, and EN.
pub const MAX_LENGTH: usize = LINE_WIDTH
    * (SITE_LINES + RECORD_LINES * (MAX_CHEMICALS + MAX_RECEPTORS) + 1);

pub const MAX_COMPOSITE_LENGTH: usize = LINE_WIDTH
    * (SITE_LINES + RECORD_LINES * (MAX_CHEMICALS + MAX_STAGES) + 1);

// The fields of the longest deck.
const MAX_VALUES: usize = FIELDS * (MAX_COMPOSITE_LENGTH / LINE_WIDTH);

pub type Reading = Result<Case, Stop>;

// Line n, counted from 1: 81 bytes, or nothing where the deck lacks it.
pub fn line(deck: &[u8], n: usize) -> &[u8]
    ensures { result.now ≡ line_of deck.now n }
{
    if n == 0 {
        return &deck[..0];
    }
    if deck.len() / LINE_WIDTH < n {
        return &deck[..0];
    }
    let at = LINE_WIDTH * (n - 1);
    &deck[at..at + LINE_WIDTH]
}

// Line n, if the deck has it.
fn full_line(deck: &[u8], n: usize) -> Option<&Bytes>
    ensures { MatchOption result (length (line_of deck.now n) ≢ deck_line_width) (λ l. l.now ≡ line_of deck.now n) }
{
    line(deck, n).as_array()
}

// Field f of line n, both counted from 1: twelve bytes, or nothing where the deck lacks it.
#[tactic(auto, unfolding(crate::specs::Parts::field_of))]
pub fn field(deck: &[u8], n: usize, f: usize) -> &[u8]
    ensures { result.now ≡ field_of deck.now n f }
{
    match full_line(deck, n) {
        Some(l) => field_part(l, f),
        None => &deck[..0],
    }
}

// The case that a deck of this sort spells, or the first condition that holds, in document 01's order.
pub fn read(deck: &[u8], sort: Sort) -> Reading
    ensures value { result ≡ read_of sort deck.now }
    ensures status_value { told_of (status_of result) ≡ told_of (first (conditions sort deck.now)) }
{
    if bad_length(deck, sort) {
        return Err(Stop::at(WRONG_LENGTH, 0, 0));
    }
    let mut values = [Value::Absent; MAX_VALUES];
    let scan = scan_lines(deck, sort, &mut values)?;
    let fields = Fields {
        deck,
        values: &values,
    };
    Ok(fields.case_with(scan.chemicals, scan.receptors))
}
