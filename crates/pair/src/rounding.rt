//! Rounding to nine figures, down or up.
ghost use Rattle.std.specs.Prelude.{◌≡◌, Bool, ◌+◌, ◌*◌, ◌^◌, ◌≤◌, ◌<◌};
ghost use Rattle.std.specs.Int.Signed.{mag};
ghost use Rattle.pair.specs.Number as numbers;
ghost use Rattle.pair.specs.Rounding.{divided, carried, rounded};

use crate::Number;

// 10^k, read from a table: `10u64.pow(k)` multiplies in a loop, 1 in 100 instructions more on the longest deck.
pub(crate) fn power(k: usize) -> u64
    requires { k ≤ 12 }
    ensures { result ≡ 10 ^ k }
{
    match k {
        0 => 1,
        1 => 10,
        2 => 100,
        3 => 1_000,
        4 => 10_000,
        5 => 100_000,
        6 => 1_000_000,
        7 => 10_000_000,
        8 => 100_000_000,
        9 => 1_000_000_000,
        10 => 10_000_000_000,
        11 => 100_000_000_000,
        _ => 1_000_000_000_000,
    }
}

#[tactic(auto, unfolding(crate::specs::Number::zero))]
pub(crate) fn zero() -> Number
    ensures { result ≡ numbers.zero }
{
    Number {
        significand: 0,
        exponent: 0,
    }
}

// n / d as a whole number. The direction is a bool all through, as in the definitions (`divided up n d`).
fn whole(up: bool, n: u64, d: u64) -> u64
    requires d_nonzero { 0 < d }
    requires d_bound { n + d < 18000000000000000000 }
    ensures { result ≡ divided up n d }
{
    if up {
        return (n + (d - 1)) / d;
    }
    n / d
}

// n / 10^g as a whole number. What has twelve figures at most and lies wholly below the point counts as something, no more.
#[tactic(auto, using(crate::proofs::Powers::ten_above, crate::proofs::Powers::ten_rises))]
pub(crate) fn lowered(up: bool, n: u64, g: usize) -> u64
    requires { (0 < n) × (n ≤ 999999999999) }
    ensures { result ≡ divided up n (10 ^ g) }
{
    if 11 < g {
        return whole(up, 1, 10);
    }
    whole(up, n, power(g))
}

// m × 10^e, where m may have been rounded up to ten figures. Each function states the bounds of its own m and e: they are the same for `off`
// and `figured` alone, so that no type of the two would state them.
#[tactic(auto, unfolding(crate::specs::Rounding::carried))]
fn carry(m: u64, e: i32) -> Number
    requires m_bound { m ≤ 1000000000 }
    requires e_bound { mag e < 250000 }
    ensures { result ≡ carried m e }
{
    if m < 1_000_000_000 {
        return Number {
            significand: m as u32,
            exponent: e,
        };
    }
    Number {
        significand: 100_000_000,
        exponent: e + 1,
    }
}

// n / d × 10^e, where n / d has nine figures before the point. Only rounding up can carry.
#[tactic(auto, using(crate::proofs::Dividing::divided_most, crate::proofs::Dividing::down_below))]
pub(crate) fn nine(up: bool, n: u64, d: u64, e: i32) -> Number
    requires d_nonzero { 0 < d }
    requires d_bound { (100000000 * d ≤ n) × (n < 1000000000 * d) }
    requires d_bound_2 { n + d < 18000000000000000000 }
    requires e_bound { mag e < 250000 }
    ensures { result ≡ carried (divided up n d) e }
{
    let m = whole(up, n, d);
    if up {
        return carry(m, e);
    }
    Number {
        significand: m as u32,
        exponent: e,
    }
}

// m × 10^e, of nine or ten figures.
pub(crate) fn ten(up: bool, m: u64, e: i32) -> Number
    requires le_m { (100000000 ≤ m) × (m ≤ 9999999999) }
    requires e_bound { mag e < 100000 }
    ensures { result ≡ rounded up m 1 e }
{
    if 999_999_999 < m {
        return nine(up, m, 10, e + 1);
    }
    Number {
        significand: m as u32,
        exponent: e,
    }
}

// How many zeros put behind m give it nine figures: by comparisons, as `ilog10` here and in `surplus` takes 3 in 100
// instructions more on the longest deck.
fn zeros(m: u64) -> usize
    requires { (0 < m) × (m ≤ 999999999) }
    ensures { (result ≤ 8) × (100000000 ≤ m * 10 ^ result) × (m * 10 ^ result ≤ 999999999) }
{
    if m < 10_000 {
        if m < 100 {
            if m < 10 {
                return 8;
            }
            return 7;
        }
        if m < 1_000 {
            return 6;
        }
        return 5;
    }
    if m < 1_000_000 {
        if m < 100_000 {
            return 4;
        }
        return 3;
    }
    if m < 10_000_000 {
        return 2;
    }
    if m < 100_000_000 {
        return 1;
    }
    0
}

// m × 10^e, of at most nine figures, with zeros put behind m until it has nine. Nothing is rounded.
#[tactic(auto, unfolding(crate::specs::Rounding::rounded))]
pub(crate) fn normal(m: u64, e: i32) -> Number
    requires m_bound { m ≤ 999999999 }
    requires e_bound { mag e < 250000 }
    ensures { (up : Bool) → result ≡ rounded up m 1 e }
{
    if m == 0 {
        return zero();
    }
    let k = zeros(m);
    Number {
        significand: (m * power(k)) as u32,
        exponent: e - k as i32,
    }
}

// How many figures beyond nine m has, which has ten to twenty.
fn surplus(m: u64) -> usize
    requires { (1000000000 ≤ m) × (m ≤ 10000000000000000000) }
    ensures { (result ≤ 11) × (100000000 * 10 ^ result ≤ m) × (m < 1000000000 * 10 ^ result) }
{
    if m < 1_000_000_000_000 {
        if m < 10_000_000_000 {
            return 1;
        }
        if m < 100_000_000_000 {
            return 2;
        }
        return 3;
    }
    if m < 10_000_000_000_000_000 {
        if m < 10_000_000_000_000 {
            return 4;
        }
        if m < 100_000_000_000_000 {
            return 5;
        }
        if m < 1_000_000_000_000_000 {
            return 6;
        }
        return 7;
    }
    if m < 100_000_000_000_000_000 {
        return 8;
    }
    if m < 1_000_000_000_000_000_000 {
        return 9;
    }
    if m < 10_000_000_000_000_000_000 {
        return 10;
    }
    11
}

// m × 10^e, with k figures beyond nine, which are rounded off.
#[tactic(auto, using(crate::proofs::Rounds::rounded_off, crate::proofs::Rounds::beyond_nine))]
fn off(up: bool, m: u64, k: usize, e: i32) -> Number
    requires k_bound { (k ≤ 11) × (100000000 * 10 ^ k ≤ m) × (m < 1000000000 * 10 ^ k) }
    requires m_bound { m ≤ 10000000000000000000 }
    requires e_bound { mag e < 200003 }
    ensures { result ≡ rounded up m 1 e }
{
    nine(up, m, power(k), e + k as i32)
}

// m × 10^e, of at most nineteen figures, or 10^19.
pub(crate) fn figured(up: bool, m: u64, e: i32) -> Number
    requires m_bound { m ≤ 10000000000000000000 }
    requires e_bound { mag e < 200003 }
    ensures { result ≡ rounded up m 1 e }
{
    if m <= 999_999_999 {
        return normal(m, e);
    }
    off(up, m, surplus(m), e)
}

// (high × 10^18 + low) × 10^e. What is below the first nineteen figures at most is rounded at their last place, and these once more in
// the same direction, which is to round once.
pub(crate) fn long(up: bool, high: u64, low: u64, e: i32) -> Number
    requires high_bound { high < 10000000000000000000 }
    requires low_bound { low < 1000000000000000000 }
    requires e_bound { mag e < 100000 }
    ensures { result ≡ rounded up (high * 1000000000000000000 + low) 1 e }
{
    if high == 0 {
        return figured(up, low, e);
    }
    if high < 1_000_000_000 {
        let first = high * 1_000_000_000 + whole(up, low, 1_000_000_000);
        return figured(up, first, e + 9);
    }
    let first = high + whole(up, low, 1_000_000_000_000_000_000);
    figured(up, first, e + 18)
}
