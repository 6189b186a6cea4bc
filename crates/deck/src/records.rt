// The case that a deck spells, from the values of its fields by position.
ghost use Rattle.std.specs.Prelude.{◌≡◌, ◌+◌, ◌*◌, ◌≤◌};
ghost use Rattle.std.specs.Option.{unwrap_or};
ghost use Rattle.deck.specs.Parts.{line_of};
ghost use Rattle.sizes.specs.Sizes.{record_lines, max_chemicals, most_stages};
ghost use Rattle.deck.specs.DeckConditions.{id_of, max_lines};
ghost use Rattle.deck.specs.Inner.{values_of};
ghost use Rattle.deck.specs.DeckCase.{record_of, records_of, case_with};
ghost use Rattle.cases.specs.Cases.{no_record};

use crate::full_line;
use crate::lines::id_of;
use cases::{Case, Chemicals, Receptors, Record, Value};
use sizes::{FIELDS, RECORD_LINES, SITE_LINES, SLOTS};
use slots::Sort;

// The line after the site's.
const CHEMICALS_START: usize = SITE_LINES + 1;

// The id of line n; 0 where none is spelled.
fn id_at(deck: &[u8], n: usize) -> u32
    ensures { result ≡ unwrap_or (id_of (line_of deck.now n)) 0 }
{
    match full_line(deck, n) {
        Some(line) => id_of(line).unwrap_or(0),
        None => 0,
    }
}

fn no_record() -> Record
    ensures { result ≡ no_record }
{
    Record {
        id: 0,
        slots: [Value::Absent; SLOTS],
    }
}

// A deck, and the values of its fields, its lines in turn.
#[derive(Clone, Copy)]
pub(crate) struct Fields<'a> {
    pub(crate) deck: &'a [u8],
    pub(crate) values: &'a [Value],
    ghost kept: { values.now ≡ values_of deck.now },
}

impl Fields<'_> {
    // The record that begins at line n and has so many lines.
    fn record_at(&self, n: usize, lines: usize) -> Record
        requires { ((1 ≤ n) × (n + lines ≤ max_lines Sort.Composite)) × (lines ≤ record_lines) }
        ensures { result ≡ record_of self.now.deck.now n lines }
    {
        let at = FIELDS * (n - 1);
        let count = lines * FIELDS;
        let mut slots = [Value::Absent; SLOTS];
        slots[..count].copy_from_slice(&self.values[at..at + count]);
        Record {
            id: id_at(self.deck, n),
            slots,
        }
    }

    // So many records from line n on, in room for N.
    fn records_at<const N: usize>(&self, n: usize, count: usize) -> [Record; N]
        requires { ((1 ≤ n) × (n + record_lines * count ≤ max_lines Sort.Composite)) × (count ≤ N) }
        ensures { result ≡ records_of self.now.deck.now n count N }
    {
        let mut records = [no_record(); N];
        for i in 0..count {
            records[i] = self.record_at(n + RECORD_LINES * i, RECORD_LINES);
        }
        records
    }

    // The case with so many chemicals and receptors.
    pub(crate) fn case_with(&self, chemicals: usize, receptors: usize) -> Case
        requires { (chemicals ≤ max_chemicals) × (receptors ≤ most_stages) }
        ensures { result ≡ case_with self.now.deck.now chemicals receptors }
    {
        Case {
            site: self.record_at(1, SITE_LINES),
            chemicals: Chemicals {
                count: chemicals,
                records: self.records_at(CHEMICALS_START, chemicals),
            },
            receptors: Receptors {
                count: receptors,
                records: self.records_at(CHEMICALS_START + RECORD_LINES * chemicals, receptors),
            },
        }
    }
}
