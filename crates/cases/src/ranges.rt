// The range of a slot's value, by exact comparison.
ghost use Rattle.std.specs.Prelude.{◌≡◌, ◌<◌};
ghost use Rattle.cases.specs.Ranges.{value_at_most, value_at_least, within_bounds, is_year_of, is_year, in_range};

use powers::{lowered, raised, ten_to};
use slots::{Guidance, Rule};

// No order of a type: digits × 10 ^ power is at most `most`, which has at most ten figures; the digits have at most twenty. Where a product may not fit, a power
// above 0 divides `most`, and one below 0 the digits. These lose one first, so that a remainder counts.
fn at_most(most: u32, digits: u64, power: i32) -> bool
    requires { 0 < digits }
    ensures { result ≡ value_at_most most digits power }
{
    let up = raised(power);
    if 9 < up {
        return false;
    }
    if 0 < up {
        return digits <= most as u64 / ten_to(up);
    }
    let down = lowered(power);
    if down <= 9 {
        return digits <= most as u64 * ten_to(down);
    }
    if 19 < down {
        return 0 < most;
    }
    (digits - 1) / ten_to(down) < most as u64
}

// digits × 10 ^ power is at least 1E-20. The digits have at most twenty figures.
fn at_least(digits: u64, power: i32) -> bool
    requires { 0 < digits }
    ensures { result ≡ value_at_least digits power }
{
    let down = lowered(power);
    if down <= 20 {
        return true;
    }
    let short = down - 20;
    if 19 < short {
        return false;
    }
    ten_to(short) <= digits
}

#[tactic(auto, unfolding(crate::specs::Ranges::within_bounds))]
fn within_bounds(rule: Rule, digits: u64, power: i32) -> bool
    ensures { result ≡ within_bounds rule digits power }
{
    if digits == 0 {
        return rule.zero;
    }
    at_least(digits, power) && at_most(rule.most, digits, power)
}

// digits × 10 ^ power is the year of this guidance. Neither year ends in 0, and a year × 10 ^ 16 is more than the digits can be.
pub(crate) fn is_year_of(guidance: Guidance, digits: u64, power: i32) -> bool
    ensures { result ≡ is_year_of guidance digits power }
{
    if 0 < raised(power) {
        return false;
    }
    let down = lowered(power);
    if 15 < down {
        return false;
    }
    digits == guidance.year() as u64 * ten_to(down)
}

// The year of either.
#[tactic(auto, unfolding(crate::specs::Ranges::is_year))]
pub(crate) fn is_year(digits: u64, power: i32) -> bool
    ensures { result ≡ is_year digits power }
{
    is_year_of(Guidance::Of2005, digits, power) || is_year_of(Guidance::Of2009, digits, power)
}

#[tactic(auto, unfolding(crate::specs::Ranges::in_range))]
pub fn in_range(rule: Rule, digits: u64, power: i32) -> bool
    ensures { result ≡ in_range rule digits power }
{
    within_bounds(rule, digits, power) && (!rule.year || is_year(digits, power))
}
