// A line's figures counted in units, and held against their caps.
ghost use Rattle.std.specs.Prelude.{◌≡◌};
ghost use Rattle.pair.specs.Calls.{answer, is};
ghost use Rattle.scenario.specs.Scenario.{is_refused};
ghost use Rattle.sheet.specs.Sheet.{unit_of, cap_of, counted_in, high_above};
ghost use Rattle.sheet.specs.Inner.{columns_of, above_cap};

use equations::Effect;
use pair::{Answer, Pair};
use pathway::Figure;
use totals::Columns;

// Quotients are counted in units of 1E-12, risks in 1E-15.
const HAZARD_UNIT: i32 = -12;

const CANCER_UNIT: i32 = -15;

// A quotient's high end is at most 10,000, a risk's at most 1: a pair with the cap at both ends.
fn cap_of(effect: Effect) -> Answer
    ensures { answer result ≡ is (record { low = cap_of effect; high = cap_of effect }) }
{
    match effect {
        Effect::Hazard => Pair::entry(10_000, 0),
        Effect::Cancer => Pair::ONE.answer(),
    }
}

fn unit_of(effect: Effect) -> i32
    ensures { result ≡ unit_of effect }
{
    match effect {
        Effect::Hazard => HAZARD_UNIT,
        Effect::Cancer => CANCER_UNIT,
    }
}

#[tactic(auto, unfolding(pair::specs::Calls::answer, crate::specs::Sheet::is_above, crate::specs::Sheet::high_above))]
fn is_above(p: Pair, bound: Pair) -> bool
    ensures { result ≡ high_above bound.high (is p) }
{
    match p.high.compare(bound.high) {
        Ok(at_most) => !at_most,
        Err(_) => false,
    }
}

fn exceeds(p: Pair, effect: Effect) -> bool
    ensures { result ≡ high_above (cap_of effect) (is p) }
{
    let Ok(cap) = cap_of(effect) else {
        return false;
    };
    is_above(p, cap)
}

fn counted(p: Pair, unit: i32) -> Columns
    ensures { result ≡ counted_in unit (is p) }
{
    p.in_units(unit).ok()
}

// The two columns of a figure.
#[tactic(auto, unfolding(pair::specs::Calls::answer, crate::specs::Inner::columns_of))]
pub(crate) fn columns_of(figure: Figure, effect: Effect) -> Columns
    ensures { result ≡ columns_of effect (answer figure) }
{
    match figure {
        Ok(Some(p)) => counted(p, unit_of(effect)),
        Ok(None) | Err(_) => None,
    }
}

// Whether the pair rule refused a figure.
#[tactic(auto, unfolding(pair::specs::Calls::answer, scenario::specs::Scenario::is_refused))]
pub(crate) fn is_refused(figure: Figure) -> bool
    ensures { result ≡ is_refused (answer figure) }
{
    figure.is_err()
}

#[tactic(auto, unfolding(pair::specs::Calls::answer, crate::specs::Inner::above_cap))]
pub(crate) fn above_cap(figure: Figure, effect: Effect) -> bool
    ensures { result ≡ above_cap effect (answer figure) }
{
    match figure {
        Ok(Some(p)) => exceeds(p, effect),
        Ok(None) | Err(_) => false,
    }
}
