//! g and h at an exponent x, which is k × tD or k × (T2 − tD) (document 01, "Loss and series", with document 02's P4 and P5).
ghost use Rattle.std.specs.Prelude.{◌≡◌, pos};
ghost use Rattle.pair.specs.Calls.{answer, is};
ghost use Rattle.equations.specs.Formula.{pairs};
ghost use Rattle.equations.specs.Page.{g_with, growth, Fast};
ghost use Rattle.equations.specs.Ranges.{next_to_nothing};
ghost use Rattle.equations.specs.Readings.{pace_of, pair_growing};
ghost use Rattle.media.specs.Media.{growth_at};
ghost use Rattle.media.specs.Inner.{paced};

use crate::terms::{Phi, Psi, sum_of};
use pair::{Answer, Chain, Pair, Refused};

// g and h at one exponent.
#[derive(Clone, Copy)]
pub(crate) struct Growth {
    pub(crate) g: Answer,
    pub(crate) h: Answer,
}

// Whether x's high end is above 64. One that cannot be compared is no pair's, and the series refuses it.
fn is_fast(x: Pair) -> bool
    ensures { pace_of (is x) ≡ paced result }
{
    let Ok(bound) = Pair::entry(64, 0) else {
        return false;
    };
    match x.high.compare(bound.high) {
        Ok(at_most) => !at_most,
        Err(_) => false,
    }
}

// g, from 1 / φ and x.
fn build_up(inverse: Answer, x: Pair) -> Answer
    ensures { answer result ≡ g_with pairs (answer inverse) (is x) }
{
    Pair::entry(1, 0).over(inverse.plus(x.answer()))
}

// What 1 / φ is where the loss is fast: 0 and 1E-25.
fn next_to_nothing() -> Answer
    ensures { answer result ≡ is next_to_nothing }
{
    let least = Pair::entry(1, -25)?;
    let zero = Pair::ZERO;
    Pair::of_ends(zero.low, least.high)
}

// g where the loss is fast.
fn fast_build_up(x: Pair) -> Answer
    ensures { answer result ≡ (growth pair_growing Fast (is x)).g }
{
    build_up(next_to_nothing(), x)
}

// g, from φ and x.
fn slow_build_up(phi: Answer, x: Pair) -> Answer
    ensures { answer result ≡ g_with pairs (pairs.over (pairs.number 1 (pos 0)) (answer phi)) (is x) }
{
    let one = Pair::entry(1, 0);
    build_up(one.over(phi), x)
}

// h, from the two series and x.
fn mean_build_up(phi: Answer, psi: Answer, x: Pair) -> Answer
    ensures { answer result ≡ pairs.over (answer psi) (pairs.plus (pairs.number 1 (pos 0)) (pairs.times (is x) (answer phi))) }
{
    let one = Pair::entry(1, 0);
    psi.over(one.plus(x.answer().times(phi)))
}

// g alone: k × (T2 − tD) has no use for h.
pub(crate) fn g_at(x: Answer) -> Answer
    ensures { answer result ≡ (growth_at (answer x)).g }
{
    let e = x?;
    if is_fast(e) {
        return fast_build_up(e);
    }
    slow_build_up(sum_of::<Phi>(e), e)
}

// g and h: φ is worked once for both, and above 64 no series at all.
pub(crate) fn growth_at(x: Answer) -> Growth
    ensures { (answer result.g ≡ (growth_at (answer x)).g) × (answer result.h ≡ (growth_at (answer x)).h) }
{
    let Ok(e) = x else {
        return Growth {
            g: Err(Refused),
            h: Err(Refused),
        };
    };
    if is_fast(e) {
        let g = fast_build_up(e);
        let h = g.one_minus().over(x);
        return Growth { g, h };
    }
    let phi = sum_of::<Phi>(e);
    let g = slow_build_up(phi, e);
    let h = mean_build_up(phi, sum_of::<Psi>(e), e);
    Growth { g, h }
}
