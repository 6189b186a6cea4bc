// The conditions of a line: 12, 21, 22, then those of its fields.
ghost use Rattle.std.specs.Prelude.{◌≡◌, ◌-◌, ◌≤◌, leb, eqb, length, drop};
ghost use Rattle.spelling.specs.Columns.{within, leading};
ghost use Rattle.deck.specs.Parts.{columns, kind_width, kind_of};
ghost use Rattle.cases.specs.Conditions.{passed, first};
ghost use Rattle.deck.specs.DeckConditions.{bad_bytes, bad_kind, id_of, wrong_id, bad_id, line_conditions_after, max_lines, begun_with, seen_with};
ghost use Rattle.sizes.specs.Sizes.{fields_per_line, max_chemicals, most_stages};
ghost use Rattle.lists.specs.Lists.{tabulate};
ghost use Rattle.deck.specs.Inner.{value_in};

use crate::fields::fields_status;
use crate::{Bytes, COLUMNS, FIELDS_START, KIND_WIDTH};
use cases::numbers::{MISCOUNTED, WRONG_BYTES, WRONG_ID};
use cases::{Status, Stop, Value, max_receptors};
use kinds::{Kind, begins_record, is_end, is_line, kind_in, line_owner, may_follow};
use sizes::MAX_CHEMICALS;
use slots::{Owner, Sort};
use spelling::{id_in, leading_bytes};

// The columns after the kind.
const AFTER_KIND: usize = COLUMNS - KIND_WIDTH;

// What the lines before tell: the kind of the last, its id if one is spelled, and how many chemicals and receptors began.
#[derive(Clone, Copy)]
pub(crate) struct Seen {
    pub(crate) kind: Kind,
    pub(crate) id: Option<u32>,
    pub(crate) chemicals: usize,
    pub(crate) receptors: usize,
}

// A line, its number, and what its columns 1-8 spell.
#[derive(Clone, Copy)]
pub(crate) struct Line<'a> {
    pub(crate) bytes: &'a Bytes,
    pub(crate) number: usize,
    pub(crate) kind: Kind,
    pub(crate) id: Option<u32>,
    ghost kind_spelled: { kind ≡ kind_of bytes.now },
    ghost id_spelled: { id ≡ id_of bytes.now },
}

// Columns 1-2.
#[tactic(auto, unfolding(crate::specs::Parts::kind_of))]
pub(crate) fn kind_of(line: &Bytes) -> Kind
    ensures { result ≡ kind_of line.now }
{
    kind_in(line[0], line[1])
}

// Columns 3-8, if they are an id.
#[tactic(auto, unfolding(crate::specs::DeckConditions::id_of))]
pub(crate) fn id_of(line: &Bytes) -> Option<u32>
    ensures { result ≡ id_of line.now }
{
    id_in(&line[KIND_WIDTH..FIELDS_START])
}

// Whether the byte prints.
#[tactic(auto, unfolding(spelling::specs::Columns::within))]
fn prints(b: u8) -> bool
    ensures { result ≡ within 32 126 b }
{
    b' ' <= b && b <= b'~'
}

// Whether the columns hold nothing but bytes that print. All are looked at: a loop that stops at none takes many bytes at once.
fn printable(line: &Bytes) -> bool
    ensures { result ≡ leb columns (leading 32 126 line.now) }
{
    let mut all = true;
    for i in 0..COLUMNS {
        all &= prints(line[i]);
    }
    all
}

#[tactic(auto, using(crate::proofs::LineConditionLaws::bytes_are))]
fn bad_bytes(line: &Bytes) -> bool
    ensures { result ≡ bad_bytes line.now }
{
    !printable(line) || line[COLUMNS] != b'\n'
}

#[tactic(auto, unfolding(crate::specs::DeckConditions::bad_kind), using(crate::proofs::LineConditionLaws::one_owner))]
fn bad_kind(sort: Sort, seen: Seen, kind: Kind) -> bool
    ensures { result ≡ bad_kind sort seen kind }
{
    if !may_follow(seen.kind, kind) {
        return true;
    }
    if is_line(Owner::Chemical, 0, kind) {
        return MAX_CHEMICALS <= seen.chemicals;
    }
    if is_line(Owner::Receptor, 0, kind) {
        return max_receptors(sort) <= seen.receptors;
    }
    false
}

// The id of a line that is not EN: misspelled, unlike its record's, or not above the one before.
#[tactic(auto, unfolding(crate::specs::DeckConditions::wrong_id, crate::specs::DeckConditions::not_above, crate::specs::DeckConditions::unlike), using(crate::proofs::LineConditionLaws::same_owner, crate::proofs::LineConditionLaws::other_owner))]
fn wrong_id(seen: Seen, kind: Kind, id: Option<u32>) -> bool
    ensures { result ≡ wrong_id seen kind id }
{
    let Some(id) = id else {
        return true;
    };
    let Some(before) = seen.id else {
        return !begins_record(kind);
    };
    if begins_record(kind) {
        return line_owner(seen.kind) == line_owner(kind) && id <= before;
    }
    id != before
}

// Whether the columns after the kind, as EN has them, are blank.
fn is_blank(line: &Bytes) -> bool
    ensures { result ≡ eqb (leading 32 32 (drop kind_width line.now)) (columns - kind_width) }
{
    leading_bytes(&line[KIND_WIDTH..], b' ', b' ') == AFTER_KIND
}

#[tactic(auto, unfolding(crate::specs::DeckConditions::bad_id))]
fn bad_id(seen: Seen, line: &Line) -> bool
    ensures { result ≡ bad_id seen line.now.kind line.now.bytes.now }
{
    if is_end(line.kind) {
        return !is_blank(line.bytes);
    }
    wrong_id(seen, line.kind, line.id)
}

// The conditions of a line. Where none holds, the values of its fields are kept.
#[tactic(auto, unfolding(crate::specs::DeckConditions::line_conditions_after, cases::specs::Conditions::first))]
pub(crate) fn line_status(sort: Sort, seen: Seen, line: &Line, values: &mut [Value]) -> Status
    requires { length values.old ≡ fields_per_line }
    ensures value { result ≡ first (line_conditions_after sort seen line.now.bytes.now line.now.number) }
    ensures values_after { result ≡ passed → values.new ≡ tabulate fields_per_line (value_in line.now.bytes.now) }
{
    if bad_bytes(line.bytes) {
        return Err(Stop::at(WRONG_BYTES, line.number, 0));
    }
    if bad_kind(sort, seen, line.kind) {
        return Err(Stop::at(MISCOUNTED, line.number, 0));
    }
    if bad_id(seen, line) {
        return Err(Stop::at(WRONG_ID, line.number, 0));
    }
    fields_status(sort, line, values)
}

// One more where this kind begins a record of the owner.
#[tactic(auto, unfolding(crate::specs::DeckConditions::begun_with))]
fn begun_with(owner: Owner, kind: Kind, n: usize) -> usize
    requires { n ≤ max_lines Sort.Composite }
    ensures { result ≡ begun_with owner kind n }
{
    if is_line(owner, 0, kind) {
        return n + 1;
    }
    n
}

impl Seen {
    // With one line more. Most lines begin no record, and are asked once.
    #[tactic(auto, using(kinds::proofs::KindLaws::not_first), unfolding(crate::specs::DeckConditions::seen_with, crate::specs::DeckConditions::begun_with))]
    pub(crate) fn after(self, line: &Line) -> Seen
        requires { (self.chemicals ≤ max_chemicals) × (self.receptors ≤ most_stages) }
        ensures { result ≡ seen_with self line.now.kind line.now.id }
    {
        let kind = line.kind;
        let id = line.id;
        if !begins_record(kind) {
            return Seen { kind, id, ..self };
        }
        Seen {
            kind,
            id,
            chemicals: begun_with(Owner::Chemical, kind, self.chemicals),
            receptors: begun_with(Owner::Receptor, kind, self.receptors),
        }
    }
}
