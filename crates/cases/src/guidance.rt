// The guidance that a site names by its year (document 02, P6).
ghost use Rattle.std.specs.Prelude.{◌≡◌};
ghost use Rattle.cases.specs.Cases.{guidance_of, is_other_year};

use crate::Value;
use crate::ranges::{is_year, is_year_of};
use slots::Guidance;

// The guidance of a printed year; no value means 2005, and so does a year of neither.
#[tactic(auto, unfolding(crate::specs::Cases::guidance_of))]
pub fn guidance_of(v: Value) -> Guidance
    ensures { result ≡ guidance_of v }
{
    match v {
        Value::Given { power, digits } if is_year_of(Guidance::Of2009, digits, power) =>
            Guidance::Of2009,
        _ => Guidance::Of2005,
    }
}

// A number that is the year of neither, which no deck that is read has.
#[tactic(auto, unfolding(crate::specs::Cases::is_other_year))]
pub fn is_other_year(v: Value) -> bool
    ensures { result ≡ is_other_year v }
{
    match v {
        Value::Given { power, digits } => !is_year(digits, power),
        Value::Absent => false,
    }
}
