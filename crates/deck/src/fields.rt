// A line's fields: the rules of their slots, and the conditions 31, 32 and 33.
ghost use Rattle.std.specs.Prelude.{◌≡◌, cond, ◌+◌, ◌*◌, ◌-◌, length};
ghost use Rattle.deck.specs.Parts.{field_in};
ghost use Rattle.kinds.specs.Kinds.{rules_of};
ghost use Rattle.cases.specs.Ranges.{in_range};
ghost use Rattle.sizes.specs.Sizes.{fields_per_line};
ghost use Rattle.cases.specs.Conditions.{passed, stopped, first, up_to};
ghost use Rattle.deck.specs.DeckConditions.{field_conditions, field_at};
ghost use Rattle.deck.specs.DeckCase.{value_of};
ghost use Rattle.lists.specs.Lists.{tabulate};
ghost use Rattle.deck.specs.Inner.{value_in};

use crate::lines::Line;
use crate::{Bytes, FIELDS_START};
use cases::numbers::{MISPLACED, MISSPELLED, OUT_OF_RANGE};
use cases::{Status, Stop, Value, in_range};
use kinds::Kind;
use sizes::FIELDS;
use slots::{Rule, Sort, UNUSED};
use spelling::{FIELD_WIDTH, Word, number};

// The rules of the six fields of a line, by its kind.
fn rules(sort: Sort, kind: Kind) -> [Rule; FIELDS]
    ensures { result ≡ rules_of sort kind }
{
    match kind {
        Kind::Line { owner, line } => slots::rules(sort, owner, line),
        Kind::Start | Kind::End | Kind::Other => [UNUSED; FIELDS],
    }
}

// Field f of a line.
pub(crate) fn field_part(line: &Bytes, f: usize) -> &[u8]
    ensures { result.now ≡ field_in line.now f }
{
    if f == 0 {
        return &line[..0];
    }
    if FIELDS < f {
        return &line[..0];
    }
    let at = FIELDS_START + FIELD_WIDTH * (f - 1);
    &line[at..at + FIELD_WIDTH]
}

// The conditions of field f of line n, which holds this word.
#[tactic(auto, unfolding(crate::specs::DeckConditions::field_conditions, crate::specs::DeckConditions::misspelled, crate::specs::DeckConditions::misplaced, crate::specs::DeckConditions::out_of_range, cases::specs::Conditions::first))]
fn field_status(rule: Rule, w: Word, n: usize, f: usize) -> Status
    ensures { result ≡ first (field_conditions rule w n f) }
{
    match w {
        Word::Other => Err(Stop::at(MISSPELLED, n, f)),
        Word::Blank if rule.blank => Ok(()),
        Word::Dash if rule.dash => Ok(()),
        Word::Number { digits, power } if rule.used => range_status(rule, digits, power, n, f),
        Word::Blank | Word::Dash | Word::Number { .. } => Err(Stop::at(MISPLACED, n, f)),
    }
}

fn range_status(rule: Rule, digits: u64, power: i32, n: usize, f: usize) -> Status
    ensures { result ≡ cond (in_range rule digits power) passed (stopped 33 n f) }
{
    if in_range(rule, digits, power) {
        return Ok(());
    }
    Err(Stop::at(OUT_OF_RANGE, n, f))
}

// The value as printed; a blank or a lone - has none.
#[tactic(auto, unfolding(crate::specs::DeckCase::value_of))]
fn value_of(w: Word) -> Value
    ensures { result ≡ value_of w }
{
    match w {
        Word::Number { digits, power } => Value::Given { power, digits },
        Word::Blank | Word::Dash | Word::Other => Value::Absent,
    }
}

// The conditions of a line's six fields, from the left. Where none holds, their values are kept.
pub(crate) fn fields_status(sort: Sort, line: &Line, values: &mut [Value]) -> Status
    requires { length values.old ≡ fields_per_line }
    ensures value { result ≡ first (up_to (field_at sort line.now.kind line.now.bytes.now line.now.number) fields_per_line) }
    ensures values_after { result ≡ passed → values.new ≡ tabulate fields_per_line (value_in line.now.bytes.now) }
{
    let rules = rules(sort, line.kind);
    for (f, rule) in rules.iter().enumerate() {
        let w = number(field_part(line.bytes, f + 1));
        field_status(*rule, w, line.number, f + 1)?;
        values[f] = value_of(w);
    }
    Ok(())
}
