//! The series φ (document 01, "Loss and series") and ψ (document 02, P4): 256 terms, of which those are worked that change more than the
//! last figure.
ghost use Rattle.std.specs.Prelude.{◌≡◌, true, ◌+◌, ◌<◌, pos, negsuc};
ghost use Rattle.pair.specs.Calls.{answer, is, after, after_one, sum, compared, absorbs, zero_pair, entry, partial};
ghost use Rattle.equations.specs.Formula.{pairs};
ghost use Rattle.equations.specs.Series as specs;
ghost use Rattle.equations.specs.Series.{first, from_zero, pair_series};
ghost use Rattle.media.specs.Inner.{next_of};
ghost use Rattle.media.specs.Inner.{Moderate};

use pair::{Answer, Chain, Number, Pair, Partial, Refused};

fn is_at_most(a: Number, b: Number) -> bool
    ensures { result ≡ true → compared a b ≡ is true }
{
    matches!(a.compare(b), Ok(true))
}

// Whether x is 0.
fn is_none(x: Pair) -> bool
    ensures { result ≡ true → x ≡ zero_pair }
{
    x.checked().is_ok() && x.high.is_zero()
}

// Whether no term of the series at x leaves the exponents' reach downwards: x is 0 or at least 1E-292.
fn is_moderate(x: Pair) -> bool
    ensures { result ≡ true → Moderate x }
{
    let Ok(least) = Pair::entry(1, -292) else {
        return false;
    };
    x.checked().is_ok()
        && is_at_most(least.low, x.high)
        && (x.low.is_zero() || is_at_most(least.low, x.low))
}

// Whether every term after this one is absorbed by the total, as this one is: x is so small against the divisors that they shrink.
fn is_settled(x: Pair, term: Pair, total: Pair, divisor: Pair) -> bool
    ensures { result ≡ true → (absorbs total term ≡ true) × (compared x.high divisor.low ≡ is true) × Moderate x }
{
    total.absorbs(term) && is_at_most(x.high, divisor.low) && is_moderate(x)
}

// The total, with the last term once more at its high end.
fn closed(total: Pair, last: Pair) -> Answer
    ensures { answer result ≡ after sum (is total) (after_one from_zero (is last)) }
{
    let zero = Pair::ZERO;
    total.answer().plus(Pair::of_ends(zero.low, last.high))
}

// A series of the page: its first term, and the step to the next term and the total with it. whole is n + 2, which divides it.
pub(crate) trait Series {
    ghost series: { specs.Series };

    fn first() -> Answer
        ensures { answer result ≡ first pairs series };

    fn next(term: Pair, total: Pair, x: Pair, n: u64, whole: Pair) -> Result<Partial, Refused>
        requires n_bound { n < 255 }
        requires whole_value { entry (n + 2) (pos 0) ≡ is whole }
        ensures { answer result ≡ next_of series x n term total };
}

// φ.
pub(crate) struct Phi;

impl Series for Phi {
    ghost series = { specs.phi };

    fn first() -> Answer {
        Pair::ONE.answer()
    }

    fn next(term: Pair, total: Pair, x: Pair, _n: u64, whole: Pair) -> Result<Partial, Refused> {
        term.next_term(total, x, whole)
    }
}

// ψ.
pub(crate) struct Psi;

impl Series for Psi {
    ghost series = { specs.psi };

    fn first() -> Answer {
        Pair::entry(5, -1)
    }

    fn next(term: Pair, total: Pair, x: Pair, n: u64, whole: Pair) -> Result<Partial, Refused> {
        let led = term
            .answer()
            .times(x.answer())
            .times_over(whole, Pair::entry(n + 1, 0));
        let term = led.over(Pair::entry(n + 3, 0))?;
        Ok(Partial {
            term,
            total: total.sum(term)?,
        })
    }
}

// The sum of a series' terms at x.
pub(crate) fn sum_of<S: Series>(x: Pair) -> Answer
    ensures { answer result ≡ pair_series S.series (is x) }
{
    let first = S::first()?;
    if is_none(x) {
        return Ok(first);
    }
    let mut term = first;
    let mut total = first;
    for n in 0..255 {
        let whole = Pair::entry(n + 2, 0)?;
        let next = S::next(term, total, x, n, whole)?;
        if is_settled(x, next.term, next.total, whole) {
            return next.total.raised((255 - n) as u8);
        }
        term = next.term;
        total = next.total;
    }
    closed(total, term)
}
