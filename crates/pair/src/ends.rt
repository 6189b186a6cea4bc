//! One end of each operation: the exact result of two working numbers, rounded once. Each function requires that its numbers are working
//! numbers: types that hold what was tested prove too, with 3 in 1,000 instructions more on the longest deck.
ghost use Rattle.std.specs.Prelude.{◌≡◌, Bool, true, false, ◌+◌, ◌-◌, ◌*◌, ◌^◌, ◌≤◌, ◌<◌, ltb};
ghost use Rattle.std.specs.Int.Signed.{mag, lt_z};
ghost use Rattle.pair.specs.Number.{is_number, in_reach, at_most, as_printed, one};
ghost use Rattle.pair.specs.Rounding as rounding;
ghost use Rattle.pair.specs.Rounding.{rounded, sum_end, product_end, quotient_end, rest_end, units_end};

use crate::Number;
use crate::exponent::{above, in_reach};
use crate::rounding::{figured, lowered, nine, normal, power, ten, zero};

#[tactic(auto, using(crate::proofs::Numbers::is_zero_number, crate::proofs::Numbers::zero_bits))]
pub(crate) fn is_number(w: Number) -> bool
    ensures { result ≡ is_number w }
{
    if w.significand == 0 {
        return w.exponent == 0;
    }
    if w.significand < 100_000_000 {
        return false;
    }
    if 999_999_999 < w.significand {
        return false;
    }
    in_reach(w.exponent)
}

// No derived order: 0 has exponent 0, and stands below numbers with smaller exponents.
#[tactic(auto, using(crate::proofs::Alignment::order_zero_left, crate::proofs::Alignment::order_zero_right, crate::proofs::Numbers::number_nine, crate::proofs::Alignment::order_below, crate::proofs::Alignment::order_above, crate::proofs::Alignment::less_place, crate::proofs::Alignment::nine_small))]
pub(crate) fn at_most(a: Number, b: Number) -> bool
    requires a_value { is_number a ≡ true }
    requires b_value { is_number b ≡ true }
    ensures { result ≡ at_most a b }
{
    if a.significand == 0 {
        return true;
    }
    if b.significand == 0 {
        return false;
    }
    if a.exponent < b.exponent {
        return true;
    }
    if b.exponent < a.exponent {
        return false;
    }
    a.significand <= b.significand
}

// p × 10^e, p 0 or of 17 or 18 figures, as the product of two significands is.
#[tactic(auto, unfolding(crate::specs::Rounding::rounded))]
fn multiplied(up: bool, p: u64, e: i32) -> Number
    requires le_p { 0 < p → 10000000000000000 ≤ p }
    requires p_bound { p < 1000000000000000000 }
    requires e_bound { mag e < 200003 }
    ensures { result ≡ rounded up p 1 e }
{
    if p < 100_000_000_000_000_000 {
        if p == 0 {
            return zero();
        }
        return nine(up, p, 100_000_000, e + 8);
    }
    nine(up, p, 1_000_000_000, e + 9)
}

#[tactic(auto, using(crate::proofs::Numbers::number_mag, crate::proofs::Numbers::number_plus, crate::proofs::Shares::product_figures, crate::proofs::Exponents::mag_plus))]
pub(crate) fn product(up: bool, a: Number, b: Number) -> Number
    requires a_value { is_number a ≡ true }
    requires b_value { is_number b ≡ true }
    ensures { result ≡ product_end up a b }
{
    let e = a.exponent + b.exponent;
    let p = a.significand as u64 * b.significand as u64;
    multiplied(up, p, e)
}

// m / n × 10^e: with nine zeros more the quotient has nine figures where m is below n, else with eight.
fn shared(up: bool, m: u64, n: u64, e: i32) -> Number
    requires le_m { (100000000 ≤ m) × (m ≤ 999999999) }
    requires le_n { (100000000 ≤ n) × (n ≤ 999999999) }
    requires e_bound { mag e < 200003 }
    ensures { result ≡ rounded up m n e }
{
    if m < n {
        return nine(up, m * 1_000_000_000, n, e - 9);
    }
    nine(up, m * 100_000_000, n, e - 8)
}

#[tactic(auto, using(crate::proofs::Numbers::number_mag, crate::proofs::Numbers::number_minus, crate::proofs::Numbers::number_nine, crate::proofs::Exponents::mag_minus, crate::proofs::Shares::quotient_zero))]
pub(crate) fn quotient(up: bool, a: Number, b: Number) -> Number
    requires a_value { is_number a ≡ true }
    requires b_value { is_number b ≡ true }
    requires significand_nonzero { 0 < b.significand }
    ensures { result ≡ quotient_end up a b }
{
    if a.significand == 0 {
        return zero();
    }
    let e = a.exponent - b.exponent;
    shared(up, a.significand as u64, b.significand as u64, e)
}

// a + b, neither 0 and a's exponent not below b's: b is rounded at a's last figure, and the sum once more in the same direction,
// which is to round once.
#[tactic(auto, using(crate::proofs::Numbers::number_minus, crate::proofs::Numbers::number_nine))]
fn aligned(up: bool, a: Number, b: Number) -> Number
    requires a_value { (is_number a ≡ true) × (0 < a.significand) }
    requires b_value { (is_number b ≡ true) × (0 < b.significand) }
    requires exponent_value { lt_z a.exponent b.exponent ≡ false }
    ensures { result ≡ sum_end up a b }
{
    let g = above(b.exponent, a.exponent);
    let s = a.significand as u64 + lowered(up, b.significand as u64, g);
    ten(up, s, a.exponent)
}

#[tactic(auto, using(crate::proofs::Sums::sum_zero_left, crate::proofs::Sums::sum_zero_right, crate::proofs::Numbers::number_nine, crate::proofs::Alignment::less_place, crate::proofs::Alignment::nine_small, crate::proofs::Sums::sum_comm))]
pub(crate) fn sum(up: bool, a: Number, b: Number) -> Number
    requires a_value { is_number a ≡ true }
    requires b_value { is_number b ≡ true }
    ensures { result ≡ sum_end up a b }
{
    if a.significand == 0 {
        return b;
    }
    if b.significand == 0 {
        return a;
    }
    if a.exponent < b.exponent {
        return aligned(up, b, a);
    }
    aligned(up, a, b)
}

// w with n units more in its last figure, fewer than it takes to carry twice.
#[tactic(auto, using(crate::proofs::Ordered::working, crate::proofs::Numbers::number_mag, crate::proofs::Exponents::mag_plus), unfolding(crate::specs::Rounding::lifted))]
pub(crate) fn lifted(w: Number, n: u32) -> Number
    requires { (is_number w ≡ true) × (n ≤ 255) }
    ensures { result ≡ rounding.lifted n w }
{
    let m = w.significand + n;
    if m < 1_000_000_000 {
        return Number {
            significand: m,
            exponent: w.exponent,
        };
    }
    Number {
        significand: m - 900_000_000,
        exponent: w.exponent + 1,
    }
}

// Whether m × 10^e, of at most twelve digits, is at most 1.
#[tactic(auto, using(crate::proofs::Alignment::order_zero_left, crate::proofs::Numbers::reach_mag, crate::proofs::Numbers::fits_minus, crate::proofs::Ordered::size_small, crate::proofs::ExactEnds::place_whole, crate::proofs::ExactEnds::whole_small, crate::proofs::Alignment::less_place, crate::proofs::Rests::share_above))]
pub(crate) fn is_share(m: u64, e: i32) -> bool
    requires m_bound { m ≤ 999999999999 }
    requires e_value { in_reach e ≡ true }
    ensures { result ≡ at_most (as_printed m e) one }
{
    if m == 0 {
        return true;
    }
    if 0 < e {
        return false;
    }
    let d = above(e, 0);
    if 11 < d {
        return true;
    }
    m <= power(d)
}

// 1 − m × 10^e, of at most twelve digits and at most 1. Past twelve places it is rounded at the ninth figure first, as in a sum, here in
// the other direction.
#[tactic(auto, using(crate::proofs::Numbers::reach_mag, crate::proofs::Numbers::fits_minus, crate::proofs::Ordered::size_small, crate::proofs::ExactEnds::place_whole, crate::proofs::ExactEnds::whole_small, crate::proofs::Alignment::not_less_place, crate::proofs::Alignment::less_turned, crate::proofs::Exponents::lt_z_le_z, crate::proofs::Rests::rest_zero, crate::proofs::Rests::rest_one))]
pub(crate) fn rest(up: bool, m: u64, e: i32) -> Number
    requires m_bound { m ≤ 999999999999 }
    requires e_value { in_reach e ≡ true }
    requires one_value { at_most (as_printed m e) one ≡ true }
    ensures { result ≡ rest_end up (as_printed m e) }
{
    if m == 0 {
        return normal(1, 0);
    }
    if 0 <= e {
        return zero();
    }
    let d = above(e, 0);
    if 12 < d {
        return ten(up, 1_000_000_000 - lowered(!up, m, d - 9), -9);
    }
    figured(up, power(d) - m, e)
}

// Whether w counts fewer than 10^19 units of 10^u, which an u64 holds.
#[tactic(auto, using(crate::proofs::Counts::count_zero, crate::proofs::Numbers::number_mag, crate::proofs::Numbers::reach_mag, crate::proofs::Numbers::fits_minus))]
pub(crate) fn countable(w: Number, u: i32) -> bool
    requires w_value { is_number w ≡ true }
    requires u_value { in_reach u ≡ true }
    ensures { (up : Bool) → result ≡ ltb (units_end up w u) (10 ^ 19) }
{
    if w.significand == 0 {
        return true;
    }
    w.exponent - u <= 10
}

// w in units of 10^u, a whole number.
#[tactic(auto, using(crate::proofs::Counts::count_zero, crate::proofs::Numbers::number_nine, crate::proofs::Numbers::reach_mag, crate::proofs::Numbers::fits_minus, crate::proofs::Alignment::less_place))]
pub(crate) fn units(up: bool, w: Number, u: i32) -> u64
    requires w_value { is_number w ≡ true }
    requires u_value { in_reach u ≡ true }
    requires u_value_2 { ltb (units_end up w u) (10 ^ 19) ≡ true }
    ensures { result ≡ units_end up w u }
{
    if w.significand == 0 {
        return 0;
    }
    let m = w.significand as u64;
    if w.exponent < u {
        return lowered(up, m, above(w.exponent, u));
    }
    m * power(above(u, w.exponent))
}
