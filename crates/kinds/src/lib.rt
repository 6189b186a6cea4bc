//! The kinds of a deck's lines (document 01, "Deck"): which line of whose record two bytes spell, and which kind may follow which.
#![tactic(auto)]

ghost use Rattle.std.specs.Prelude.{◌≡◌, cond};
ghost use Rattle.kinds.specs.Kinds.{letter, owner_lines, numbered, spells_end, kind_in, is_line, is_last, is_end, begins, line_owner, may_begin, may_follow};

use sizes::{RECORD_LINES, SITE_LINES};
use slots::Owner;

// A line of an owner's record, counted from 0; EN; or no kind. Start stands before line 1.
#[derive(Clone, Copy, PartialEq, Eq)]
pub enum Kind {
    Start,
    Line { owner: Owner, line: usize },
    End,
    Other,
}

// The digit of a record's first line; the others follow it.
const FIRST_DIGIT: u8 = b'1';

// The letter of an owner's lines. No `From`: neither the owner nor the byte is a type of this crate.
pub fn letter(owner: Owner) -> u8
    ensures { result ≡ letter owner }
{
    match owner {
        Owner::Site => b'S',
        Owner::Chemical => b'C',
        Owner::Receptor => b'R',
    }
}

// How many lines an owner's record has.
pub fn owner_lines(owner: Owner) -> usize
    ensures { result ≡ owner_lines owner }
{
    match owner {
        Owner::Site => SITE_LINES,
        Owner::Chemical | Owner::Receptor => RECORD_LINES,
    }
}

// The line of an owner's record with this digit.
#[tactic(auto, unfolding(crate::specs::Kinds::numbered))]
fn numbered(owner: Owner, digit: u8) -> Kind
    ensures { result ≡ numbered owner digit }
{
    if digit < FIRST_DIGIT {
        return Kind::Other;
    }
    let line = usize::from(digit - FIRST_DIGIT);
    if line < owner_lines(owner) {
        return Kind::Line { owner, line };
    }
    Kind::Other
}

// EN, or no kind.
fn end_in(first: u8, second: u8) -> Kind
    ensures { result ≡ cond (spells_end first second) Kind.End Kind.Other }
{
    match (first, second) {
        (b'E', b'N') => Kind::End,
        _ => Kind::Other,
    }
}

// The kind that two bytes spell.
#[tactic(auto, unfolding(crate::specs::Kinds::kind_in))]
pub fn kind_in(first: u8, second: u8) -> Kind
    ensures { result ≡ kind_in first second }
{
    if first == letter(Owner::Site) {
        return numbered(Owner::Site, second);
    }
    if first == letter(Owner::Chemical) {
        return numbered(Owner::Chemical, second);
    }
    if first == letter(Owner::Receptor) {
        return numbered(Owner::Receptor, second);
    }
    end_in(first, second)
}

// Line n of an owner's record.
#[tactic(auto, using(crate::proofs::KindLaws::is_line_lem), unfolding(crate::specs::Kinds::is_line))]
pub fn is_line(owner: Owner, n: usize, kind: Kind) -> bool
    ensures { result ≡ is_line owner n kind }
{
    kind == Kind::Line { owner, line: n }
}

#[tactic(auto, using(crate::proofs::KindLaws::some_lines), unfolding(crate::specs::Kinds::is_last))]
fn is_last(owner: Owner, kind: Kind) -> bool
    ensures { result ≡ is_last owner kind }
{
    is_line(owner, owner_lines(owner) - 1, kind)
}

pub fn is_end(kind: Kind) -> bool
    ensures { result ≡ is_end kind }
{
    kind == Kind::End
}

// The first line of a record.
pub fn begins_record(kind: Kind) -> bool
    ensures { result ≡ begins kind }
{
    matches!(kind, Kind::Line { line: 0, .. })
}

// Whose record a line stands in.
pub fn line_owner(kind: Kind) -> Option<Owner>
    ensures { result ≡ line_owner kind }
{
    match kind {
        Kind::Line { owner, .. } => Some(owner),
        Kind::Start | Kind::End | Kind::Other => None,
    }
}

// What stands before a record: its own sort's last line, or the last line of the sort before.
#[tactic(auto, unfolding(crate::specs::Kinds::may_begin))]
fn may_begin(before: Kind, owner: Owner) -> bool
    ensures { result ≡ may_begin before owner }
{
    match owner {
        Owner::Site => before == Kind::Start,
        Owner::Chemical => is_last(Owner::Site, before) || is_last(Owner::Chemical, before),
        Owner::Receptor => is_last(Owner::Chemical, before) || is_last(Owner::Receptor, before),
    }
}

// The kind may stand after the kind before.
#[tactic(auto, unfolding(crate::specs::Kinds::may_follow))]
pub fn may_follow(before: Kind, kind: Kind) -> bool
    ensures { result ≡ may_follow before kind }
{
    match kind {
        Kind::Line { owner, line: 0 } => may_begin(before, owner),
        Kind::Line { owner, line } => is_line(owner, line - 1, before),
        Kind::End => is_last(Owner::Receptor, before),
        Kind::Start | Kind::Other => false,
    }
}
