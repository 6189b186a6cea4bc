// The values of a record's slots as pairs, for the equations.
ghost use Rattle.std.specs.Prelude.{◌≡◌, ℕ, ℤ, Result};
ghost use Rattle.cases.specs.Cases.{value_at, is_other_year};
ghost use Rattle.pair.specs.Calls.{Outcome, answer, entry, one_minus_entry};
ghost use Rattle.pair.specs.declared.Refused.{Refused};
ghost use Rattle.slots.specs.Slots.{place_of};
ghost use Rattle.scenario.specs.Scenario.{no_pair, or_no_pair, of_value, told, pair_of, rest_of, no_pairs, values_of, particles_of, site_of};

use crate::Site;
use cases::{Record, Value, guidance_of, is_other_year, plain};
use equations::Values;
use pair::{Answer, Pair, Refused};
use sizes::SLOTS;
use slots::{FV, YEAR};

// What is no pair, from 1 down to 0: every call refuses it, so that no figure is worked from it.
pub fn no_pair() -> Pair
    ensures { result ≡ no_pair }
{
    let low = Pair::ONE.low;
    let high = Pair::ZERO.high;
    Pair { low, high }
}

// What a call answered; no pair where it refused, which no value in its range meets.
pub fn or_no_pair(a: Answer) -> Pair
    ensures { result ≡ or_no_pair (answer a) }
{
    let Ok(p) = a else {
        return no_pair();
    };
    p
}

// What a call tells of a value as it is given. A missing one is refused.
fn of_value<T: Copy, F: Fn(u64, i32) -> Result<T, Refused>>(
    call: &F,
    v: Value,
) -> Result<T, Refused>
    ghost f: { ℕ → ℤ → Outcome T }
    requires callable { F.IsAlwaysCallable call.now }
    requires tells { (digits : ℕ) (power : ℤ) (a : Result T Refused) → F.post call.now digits power a → answer a ≡ f digits power }
    ensures { answer result ≡ of_value f v }
{
    let Value::Given { digits, power } = v else {
        return Err(Refused);
    };
    call(digits, power)
}

// What it tells of a value however it is given: as it is or, where that is refused, without zeros at its end.
pub(crate) fn told<T: Copy, F: Fn(u64, i32) -> Result<T, Refused>>(
    call: F,
    v: Value,
) -> Result<T, Refused>
    ghost f: { ℕ → ℤ → Outcome T }
    requires callable { F.IsAlwaysCallable call }
    requires tells { (digits : ℕ) (power : ℤ) (a : Result T Refused) → F.post call digits power a → answer a ≡ f digits power }
    ensures { answer result ≡ told f v }
{
    let Ok(p) = of_value(&call, v) else {
        return of_value(&call, plain(v));
    };
    Ok(p)
}

// The entry of a value.
pub(crate) fn entered(v: Value) -> Answer
    ensures { answer result ≡ told entry v }
{
    told(Pair::entry, v)
}

// 1 less a value.
fn rested(v: Value) -> Answer
    ensures { answer result ≡ told one_minus_entry v }
{
    told(Pair::one_minus_entry, v)
}

// A given value as a pair. A missing one is read by no line; 1 stands in its place.
pub fn pair_of(v: Value) -> Pair
    ensures { result ≡ pair_of v }
{
    let Value::Given {
        digits: _,
        power: _,
    } = v
    else {
        return Pair::ONE;
    };
    or_no_pair(entered(v))
}

// 1 less a given value, from its digits. Beside `pair_of` for its other call and its other pair where none is given.
fn rest_of(v: Value) -> Pair
    ensures { result ≡ rest_of v }
{
    let Value::Given {
        digits: _,
        power: _,
    } = v
    else {
        return Pair::ZERO;
    };
    or_no_pair(rested(v))
}

// 1 − Fv.
pub fn particles_of(chemical: Record) -> Pair
    ensures { result ≡ particles_of chemical }
{
    rest_of(chemical.slots[FV])
}

// No value.
pub fn no_values() -> Values
    ensures { result ≡ no_pairs }
{
    let none = no_pair();
    Values {
        list: [none; SLOTS],
    }
}

// A record's values, place by place.
pub fn values_of(r: Record) -> Values
    ensures { result ≡ values_of r }
{
    Values {
        list: r.slots.map(pair_of),
    }
}

// Whether a site's year is that of no guidance.
pub fn has_no_guidance(site: Record) -> bool
    ensures { result ≡ is_other_year (value_at site (place_of "year")) }
{
    is_other_year(site.slots[YEAR])
}

// A site's guidance and values.
pub fn site_of(site: Record) -> Site
    ensures { result ≡ site_of site }
{
    Site {
        guidance: guidance_of(site.slots[YEAR]),
        values: values_of(site),
    }
}
