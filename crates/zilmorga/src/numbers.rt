//! Working numbers and pairs as a caller writes them: two and four numbers of 64 bits.
ghost use Rattle.std.specs.Prelude.{◌≡◌};
ghost use Rattle.pair.specs.Calls as calls;
ghost use Rattle.zilmorga.specs.Numbers as specs;
ghost use Rattle.zilmorga.specs.Calls.{left, leaves, as_number};

use cases::numbers::REFUSED;
use pair::{Answer, Number, Pair, Refused};

fn within(least: i64, n: i64, most: i64) -> bool
    ensures { result ≡ specs.is_between least n most }
{
    if least <= n {
        return n <= most;
    }
    false
}

// A working number's two parts, if each fits its field. By `try_from` it was tried, and the proof did not close.
pub(crate) fn number_of(significand: i64, exponent: i64) -> Result<Number, Refused>
    ensures { calls.answer result ≡ specs.number_of significand exponent }
{
    if !within(0, significand, 4_294_967_295) {
        return Err(Refused);
    }
    if !within(-2_147_483_648, exponent, 2_147_483_647) {
        return Err(Refused);
    }
    Ok(Number {
        significand: significand as u32,
        exponent: exponent as i32,
    })
}

pub(crate) fn pair_from(a: &[i64; 4]) -> Answer
    ensures { calls.answer result ≡ specs.pair_from a.now }
{
    let low = number_of(a[0], a[1])?;
    let high = number_of(a[2], a[3])?;
    Ok(Pair { low, high })
}

// Whether a number is at most a bound, if both are there.
#[tactic(auto, unfolding(pair::specs::Calls::answer, crate::specs::Numbers::and_then, crate::specs::Numbers::compared_if))]
pub(crate) fn compared(
    x: Result<Number, Refused>,
    y: Result<Number, Refused>,
) -> Result<bool, Refused>
    ensures { calls.answer result ≡ specs.compared_if (calls.answer x) (calls.answer y) }
{
    x?.compare(y?)
}

// An answer's code, and its pair where there is one.
pub(crate) fn put(a: Answer, out: &mut [i64; 4]) -> u32
    ensures { left result out.new ≡ leaves specs.numbers_of (calls.answer a) out.old }
{
    let Ok(p) = a else {
        return REFUSED;
    };
    let low = p.low.exponent as i64;
    let high = p.high.exponent as i64;
    *out = [
        p.low.significand as i64,
        low,
        p.high.significand as i64,
        high,
    ];
    0
}

// A comparison's code, and 1 or 0 where it has an answer.
#[tactic(auto, unfolding(pair::specs::Calls::answer, crate::specs::Calls::leaves, crate::specs::Calls::as_number))]
pub(crate) fn put_order(at_most: Result<bool, Refused>, out: &mut u32) -> u32
    ensures { left result out.new ≡ leaves as_number (calls.answer at_most) out.old }
{
    match at_most {
        Ok(at_most) => {
            *out = u32::from(at_most);
            0
        }
        Err(_) => REFUSED,
    }
}
