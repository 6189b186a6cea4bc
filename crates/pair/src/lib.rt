//! Arithmetic on pairs of working numbers (document 01, "Pairs"): each written operation works once and rounds once, the low end
//! down to the nearest working number, the high end up, so that the exact result lies between the ends.
//! Every call answers for itself: what it cannot work with it refuses, with document 01's number 53.
#![tactic(auto)]

mod ends;
mod exponent;
mod rounding;

ghost use Rattle.std.specs.Prelude.{◌≡◌, true};
ghost use Rattle.pair.specs.Number.{is_zero, is_number, is_pair};
ghost use Rattle.pair.specs.Calls as calls;
ghost use Rattle.pair.specs.Inner.{is_operand, both_in_reach};

use crate::ends::{
    at_most, countable, is_number, is_share, lifted, product, quotient, rest, sum, units,
};
use crate::exponent::in_reach;
use crate::rounding::{figured, long, normal};

// A working number: 0, held as 0 and 0, or significand × 10^exponent with nine figures and an exponent from −99,999 to 99,999.
#[derive(Clone, Copy, PartialEq, Eq)]
pub struct Number {
    pub significand: u32,
    pub exponent: i32,
}

// A pair: a low and a high working number, low ≤ high.
#[derive(Clone, Copy, PartialEq, Eq)]
pub struct Pair {
    pub low: Number,
    pub high: Number,
}

// What a call tells that it cannot work: document 01's 53.
#[derive(Clone, Copy, PartialEq, Eq)]
pub struct Refused;

// What an operation answers.
pub type Answer = Result<Pair, Refused>;

// A step of a chain of calls: × or /. A value and no closure: a caller may read it, as the stored vectors are.
#[derive(Clone, Copy)]
pub enum Step {
    Times,
    Over,
}

// A term of a series and the sum of the terms up to it.
#[derive(Clone, Copy)]
pub struct Partial {
    pub term: Pair,
    pub total: Pair,
}

// The two ends of a pair as whole numbers of a unit.
#[derive(Clone, Copy, PartialEq, Eq)]
pub struct Units {
    pub low: u64,
    pub high: u64,
}

// Digits of a printed number: twelve at most, as many as a field has columns.
const MOST_PRINTED: u64 = 999_999_999_999;

// Whether p is a pair whose ends have one exponent, as most have: then four tests on the significands and the exponents tell.
fn is_even(p: Pair) -> bool
    ensures { result ≡ true → is_pair p ≡ true }
{
    let low = p.low;
    let high = p.high;
    if low.exponent != high.exponent {
        return false;
    }
    if low.significand < 100_000_000 {
        return false;
    }
    if high.significand < low.significand {
        return false;
    }
    if 999_999_999 < high.significand {
        return false;
    }
    in_reach(low.exponent)
}

#[tactic(auto, unfolding(crate::specs::Number::is_pair))]
fn is_pair(p: Pair) -> bool
    ensures { result ≡ is_pair p }
{
    if is_even(p) {
        return true;
    }
    if !is_number(p.low) {
        return false;
    }
    if !is_number(p.high) {
        return false;
    }
    at_most(p.low, p.high)
}

#[tactic(auto, unfolding(crate::specs::Inner::both_in_reach))]
fn both_in_reach(low: Number, high: Number) -> bool
    ensures { result ≡ both_in_reach low high }
{
    if !in_reach(low.exponent) {
        return false;
    }
    in_reach(high.exponent)
}

// The pair of two worked ends, if their exponents stayed in reach.
#[tactic(auto, unfolding(crate::specs::Calls::answer, crate::specs::Calls::ends, crate::specs::Calls::provided, crate::specs::Inner::both_in_reach))]
fn answered(low: Number, high: Number) -> Answer
    ensures { calls.answer result ≡ calls.ends low high }
{
    if !both_in_reach(low, high) {
        return Err(Refused);
    }
    Ok(Pair { low, high })
}

// Whether q can be a step's second operand: a pair, whose low end is not 0 where it divides.
#[tactic(auto, using(crate::proofs::Numbers::pair_low, crate::proofs::Steps::zero_test), unfolding(crate::specs::Inner::is_operand, crate::specs::Inner::divides))]
fn is_operand(step: Step, q: Pair) -> bool
    ensures { result ≡ is_operand step q }
{
    if !is_pair(q) {
        return false;
    }
    match step {
        Step::Times => true,
        Step::Over => {
            let least = q.low;
            least.significand != 0
        }
    }
}

// A step of a chain from what is known to be a pair, as what it answers is again: no operand is tested twice. In place, as `added`: handed
// from call to call in memory, pairs cost a report a fifth more.
#[inline(always)]
#[tactic(auto, using(crate::proofs::Numbers::pair_low, crate::proofs::Numbers::pair_high, crate::proofs::Steps::operand_pair, crate::proofs::Steps::divisor_above, crate::proofs::Worked::high_above_lem))]
fn stepped(p: Pair, step: Step, q: Pair) -> Answer
    requires { is_pair p ≡ true }
    ensures { calls.answer result ≡ calls.stepped step p q }
{
    if !is_operand(step, q) {
        return Err(Refused);
    }
    match step {
        Step::Times => answered(product(false, p.low, q.low), product(true, p.high, q.high)),
        Step::Over => answered(
            quotient(false, p.low, q.high),
            quotient(true, p.high, q.low),
        ),
    }
}

// A sum with what is known to be a pair.
#[inline(always)]
#[tactic(auto, using(crate::proofs::Numbers::pair_low, crate::proofs::Numbers::pair_high), unfolding(crate::specs::Calls::answer, crate::specs::Calls::provided, crate::specs::Calls::sum))]
fn added(p: Pair, q: Pair) -> Answer
    requires { is_pair q ≡ true }
    ensures { calls.answer result ≡ calls.sum p q }
{
    if !is_pair(p) {
        return Err(Refused);
    }
    answered(sum(false, p.low, q.low), sum(true, p.high, q.high))
}

impl Number {
    // Whether a number is at most a bound.
    #[tactic(auto, unfolding(crate::specs::Calls::answer, crate::specs::Calls::provided, crate::specs::Calls::compared))]
    pub fn compare(self, bound: Number) -> Result<bool, Refused>
        ensures { calls.answer result ≡ calls.compared self bound }
    {
        if !is_number(self) {
            return Err(Refused);
        }
        if !is_number(bound) {
            return Err(Refused);
        }
        Ok(at_most(self, bound))
    }

    #[tactic(auto, using(crate::proofs::Numbers::zero_bits), unfolding(crate::specs::Number::is_zero))]
    pub fn is_zero(self) -> bool
        ensures { result ≡ is_zero self }
    {
        self.significand == 0 && self.exponent == 0
    }
}

impl Pair {
    pub const ZERO: Pair = Pair {
        low: Number {
            significand: 0,
            exponent: 0,
        },
        high: Number {
            significand: 0,
            exponent: 0,
        },
    };

    pub const ONE: Pair = Pair {
        low: Number {
            significand: 100_000_000,
            exponent: -8,
        },
        high: Number {
            significand: 100_000_000,
            exponent: -8,
        },
    };

    // The pair of a number as printed, significand × 10^exponent, of at most twelve digits. Nine or fewer are a working number.
    #[tactic(auto, using(crate::proofs::Numbers::reach_mag), unfolding(crate::specs::Calls::answer, crate::specs::Calls::provided, crate::specs::Calls::entry))]
    pub fn entry(significand: u64, exponent: i32) -> Answer
        ensures { calls.answer result ≡ calls.entry significand exponent }
    {
        if MOST_PRINTED < significand {
            return Err(Refused);
        }
        if !in_reach(exponent) {
            return Err(Refused);
        }
        if significand <= 999_999_999 {
            let w = normal(significand, exponent);
            return answered(w, w);
        }
        answered(
            figured(false, significand, exponent),
            figured(true, significand, exponent),
        )
    }

    // The pair of (high × 10^18 + low) × 10^exponent, of at most thirty-seven digits, so that a long number is rounded once.
    #[tactic(auto, using(crate::proofs::Numbers::reach_mag), unfolding(crate::specs::Calls::answer, crate::specs::Calls::provided, crate::specs::Calls::long_entry))]
    pub fn long_entry(high: u64, low: u64, exponent: i32) -> Answer
        ensures { calls.answer result ≡ calls.long_entry high low exponent }
    {
        if 9_999_999_999_999_999_999 < high {
            return Err(Refused);
        }
        if 999_999_999_999_999_999 < low {
            return Err(Refused);
        }
        if !in_reach(exponent) {
            return Err(Refused);
        }
        answered(
            long(false, high, low, exponent),
            long(true, high, low, exponent),
        )
    }

    // 1 − significand × 10^exponent, from the digits as printed, so that it is rounded once.
    #[tactic(auto, unfolding(crate::specs::Calls::answer, crate::specs::Calls::provided, crate::specs::Calls::one_minus_entry))]
    pub fn one_minus_entry(significand: u64, exponent: i32) -> Answer
        ensures { calls.answer result ≡ calls.one_minus_entry significand exponent }
    {
        if MOST_PRINTED < significand {
            return Err(Refused);
        }
        if !in_reach(exponent) {
            return Err(Refused);
        }
        if !is_share(significand, exponent) {
            return Err(Refused);
        }
        answered(
            rest(false, significand, exponent),
            rest(true, significand, exponent),
        )
    }

    // The pair of two numbers, if they make one.
    pub fn of_ends(low: Number, high: Number) -> Answer
        ensures { calls.answer result ≡ calls.checked (record { low = low; high = high }) }
    {
        Pair { low, high }.checked()
    }

    // The pair itself, if it is one.
    #[tactic(auto, unfolding(crate::specs::Calls::answer, crate::specs::Calls::provided, crate::specs::Calls::checked))]
    pub fn checked(self) -> Answer
        ensures { calls.answer result ≡ calls.checked self }
    {
        if is_pair(self) {
            return Ok(self);
        }
        Err(Refused)
    }

    // A pair as what a call answered, to begin a chain of calls: it is passed on untested, and the next call tests it.
    #[tactic(auto, unfolding(crate::specs::Calls::answer))]
    pub fn answer(self) -> Answer
        ensures { calls.answer result ≡ calls.is self }
    {
        Ok(self)
    }

    #[tactic(auto, unfolding(crate::specs::Calls::answer, crate::specs::Calls::provided, crate::specs::Calls::sum))]
    pub fn sum(self, other: Pair) -> Answer
        ensures { calls.answer result ≡ calls.sum self other }
    {
        if !is_pair(other) {
            return Err(Refused);
        }
        added(self, other)
    }

    #[tactic(auto, unfolding(crate::specs::Calls::answer, crate::specs::Calls::provided, crate::specs::Calls::stepped, crate::specs::Calls::product))]
    pub fn product(self, other: Pair) -> Answer
        ensures { calls.answer result ≡ calls.product self other }
    {
        if !is_pair(self) {
            return Err(Refused);
        }
        stepped(self, Step::Times, other)
    }

    // Low by high, high by low.
    #[tactic(auto, unfolding(crate::specs::Calls::answer, crate::specs::Calls::provided, crate::specs::Calls::stepped, crate::specs::Calls::quotient))]
    pub fn quotient(self, divisor: Pair) -> Answer
        ensures { calls.answer result ≡ calls.quotient self divisor }
    {
        if !is_pair(self) {
            return Err(Refused);
        }
        stepped(self, Step::Over, divisor)
    }

    // 1 − f: the low end from f's high end, the high end from f's low end.
    #[tactic(auto, using(crate::proofs::Numbers::pair_low, crate::proofs::Numbers::pair_high), unfolding(crate::specs::Calls::answer, crate::specs::Calls::provided, crate::specs::Calls::one_minus, crate::specs::Number::one))]
    pub fn one_minus(self) -> Answer
        ensures { calls.answer result ≡ calls.one_minus self }
    {
        if !is_pair(self) {
            return Err(Refused);
        }
        if !at_most(self.high, Pair::ONE.high) {
            return Err(Refused);
        }
        let low = self.low;
        let high = self.high;
        answered(
            rest(false, high.significand as u64, high.exponent),
            rest(true, low.significand as u64, low.exponent),
        )
    }

    // A step of a series: the next term, self × factor / divisor, and the total with it, no pair of its own tested again.
    #[tactic(auto, using(crate::proofs::Worked::product_first, crate::proofs::Steps::product_again, crate::proofs::Steps::quotient_again), unfolding(crate::specs::Calls::answer, crate::specs::Calls::after, crate::specs::Calls::partial, crate::specs::Calls::next_term, crate::specs::Calls::stepped))]
    pub fn next_term(self, total: Pair, factor: Pair, divisor: Pair) -> Result<Partial, Refused>
        ensures { calls.answer result ≡ calls.next_term self total factor divisor }
    {
        if !is_pair(self) {
            return Err(Refused);
        }
        let product = stepped(self, Step::Times, factor)?;
        let term = stepped(product, Step::Over, divisor)?;
        Ok(Partial {
            term,
            total: added(total, term)?,
        })
    }

    // Whether other is above 0 and below one unit of the low end's last figure: then a sum keeps the low end, and its high end has one
    // unit more.
    #[tactic(auto, using(crate::proofs::Numbers::pair_low, crate::proofs::Numbers::pair_high, crate::proofs::Numbers::number_mag), unfolding(crate::specs::Calls::absorbs))]
    pub fn absorbs(self, other: Pair) -> bool
        ensures { result ≡ calls.absorbs self other }
    {
        if !is_pair(self) {
            return false;
        }
        if !is_pair(other) {
            return false;
        }
        let low = self.low;
        let high = other.high;
        if low.significand == 0 {
            return false;
        }
        if high.significand == 0 {
            return false;
        }
        high.exponent + 9 <= low.exponent
    }

    // The high end, above 0, with so many units more in its last figure.
    #[tactic(auto, using(crate::proofs::Numbers::pair_high), unfolding(crate::specs::Calls::answer, crate::specs::Calls::provided, crate::specs::Calls::raised))]
    pub fn raised(self, units: u8) -> Answer
        ensures { calls.answer result ≡ calls.raised units self }
    {
        if !is_pair(self) {
            return Err(Refused);
        }
        let high = self.high;
        if high.significand == 0 {
            return Err(Refused);
        }
        answered(self.low, lifted(high, units as u32))
    }

    // The ends in units of 10^unit: the low end down, the high end up.
    #[tactic(auto, using(crate::proofs::Numbers::pair_low, crate::proofs::Numbers::pair_high), unfolding(crate::specs::Calls::answer, crate::specs::Calls::provided, crate::specs::Calls::in_units))]
    pub fn in_units(self, unit: i32) -> Result<Units, Refused>
        ensures { calls.answer result ≡ calls.in_units self unit }
    {
        if !is_pair(self) {
            return Err(Refused);
        }
        if !in_reach(unit) {
            return Err(Refused);
        }
        if !countable(self.low, unit) {
            return Err(Refused);
        }
        if !countable(self.high, unit) {
            return Err(Refused);
        }
        Ok(Units {
            low: units(false, self.low, unit),
            high: units(true, self.high, unit),
        })
    }
}

// The operations on what earlier calls answered, for chains of them: a refusal is carried along.
pub trait Chain {
    fn plus(self, other: Answer) -> Answer;

    fn times(self, other: Answer) -> Answer;

    fn over(self, other: Answer) -> Answer;

    fn times_over(self, factor: Pair, divisor: Answer) -> Answer;

    fn through(self, first: Step, a: Pair, second: Step, b: Pair, third: Step, c: Pair) -> Answer;

    fn plus_product(self, a: Pair, b: Pair) -> Answer;

    fn one_minus(self) -> Answer;
}

#[tactic(auto, using(crate::proofs::Worked::product_first, crate::proofs::Steps::not_pair, crate::proofs::Steps::product_again, crate::proofs::Steps::step_again), unfolding(crate::specs::Calls::answer, crate::specs::Calls::after, crate::specs::Calls::after_one, crate::specs::Calls::stepped))]
impl Chain for Result<Pair, Refused> {
    fn plus(self, other: Answer) -> Answer
        ensures { calls.answer result ≡ calls.after calls.sum (calls.answer self) (calls.answer other) }
    {
        self?.sum(other?)
    }

    fn times(self, other: Answer) -> Answer
        ensures { calls.answer result ≡ calls.after calls.product (calls.answer self) (calls.answer other) }
    {
        self?.product(other?)
    }

    fn over(self, other: Answer) -> Answer
        ensures { calls.answer result ≡ calls.after calls.quotient (calls.answer self) (calls.answer other) }
    {
        self?.quotient(other?)
    }

    // self × factor / divisor, as times and over one after the other.
    fn times_over(self, factor: Pair, divisor: Answer) -> Answer
        ensures { calls.answer result ≡ calls.times_over (calls.answer self) factor (calls.answer divisor) }
    {
        let p = self?;
        if !is_pair(p) {
            return Err(Refused);
        }
        stepped(stepped(p, Step::Times, factor)?, Step::Over, divisor?)
    }

    // Three steps one after the other; what a step answers is not tested again.
    fn through(self, first: Step, a: Pair, second: Step, b: Pair, third: Step, c: Pair) -> Answer
        ensures { calls.answer result ≡ calls.through (calls.answer self) first a second b third c }
    {
        let p = self?;
        if !is_pair(p) {
            return Err(Refused);
        }
        let p = stepped(p, first, a)?;
        let p = stepped(p, second, b)?;
        stepped(p, third, c)
    }

    // self + a × b, as a product and plus one after the other: a term of a weighted sum.
    fn plus_product(self, a: Pair, b: Pair) -> Answer
        ensures { calls.answer result ≡ calls.plus_product (calls.answer self) a b }
    {
        let p = self?;
        if !is_pair(a) {
            return Err(Refused);
        }
        added(p, stepped(a, Step::Times, b)?)
    }

    fn one_minus(self) -> Answer
        ensures { calls.answer result ≡ calls.after_one calls.one_minus (calls.answer self) }
    {
        self?.one_minus()
    }
}
