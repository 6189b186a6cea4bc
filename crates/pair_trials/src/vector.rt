//! One vector: an operation's word, its operands, " =", and the answer: the ends of a pair or of two, one number or two, or 53.
use crate::parts::{Parts, REFUSED};
use pair::{Answer, Chain, Pair};

#[derive(Clone, Copy, PartialEq, Eq)]
pub enum Operation {
    Sum,
    Product,
    Quotient,
    OneMinus,
    Entry,
    Compare,
    InUnits,
    OneMinusEntry,
    LongEntry,
    Checked,
    TimesOver,
    PlusProduct,
    Through,
    NextTerm,
    Absorbs,
    Raised,
}

// Each operation, the word that its vectors begin with and the name that it is printed by.
pub static OPERATIONS: [(Operation, &str, &str); 16] = [
    (Operation::Sum, "add", "sum"),
    (Operation::Product, "mul", "product"),
    (Operation::Quotient, "div", "quotient"),
    (Operation::OneMinus, "rest", "one_minus"),
    (Operation::Entry, "entry", "entry"),
    (Operation::Compare, "compare", "compare"),
    (Operation::InUnits, "units", "in_units"),
    (Operation::OneMinusEntry, "less", "one_minus_entry"),
    (Operation::LongEntry, "long", "long_entry"),
    (Operation::Checked, "checked", "checked"),
    (Operation::TimesOver, "timesover", "times_over"),
    (Operation::PlusProduct, "plusproduct", "plus_product"),
    (Operation::Through, "through", "through"),
    (Operation::NextTerm, "next", "next_term"),
    (Operation::Absorbs, "absorbs", "absorbs"),
    (Operation::Raised, "raised", "raised"),
];

#[derive(Clone, Copy)]
pub struct Vector<'a> {
    pub operation: Operation,
    parts: Parts<'a>,
}

impl<'a> Vector<'a> {
    // The vector of a line; none where its first word names no operation.
    pub fn of(line: &'a [u8]) -> Option<Self> {
        let end = line.iter().position(|b| *b == b' ')?;
        let (first, parts) = line.split_at(end);
        let (operation, ..) = OPERATIONS
            .iter()
            .find(|(_, word, _)| word.as_bytes() == first)?;
        Some(Vector {
            operation: *operation,
            parts: Parts::of(parts),
        })
    }

    // Whether the library answers as it is written.
    pub fn agrees(self) -> bool {
        self.told() == Some(true)
    }

    // The same; none where a part cannot be read. A pair's own call and the one on answers must tell the same.
    fn told(self) -> Option<bool> {
        let parts = self.parts;
        match self.operation {
            Operation::Sum => of_two(parts, |p, q| [p.sum(q), p.answer().plus(q.answer())]),
            Operation::Product => of_two(
                parts,
                |p, q| [p.product(q), p.answer().times(q.answer())],
            ),
            Operation::Quotient => of_two(
                parts,
                |p, q| [p.quotient(q), p.answer().over(q.answer())],
            ),
            Operation::OneMinus => of_one(parts, |f| [f.one_minus(), f.answer().one_minus()]),
            Operation::Entry => of_entry(parts, Pair::entry),
            Operation::Compare => of_compare(parts),
            Operation::InUnits => of_units(parts),
            Operation::OneMinusEntry => of_entry(parts, Pair::one_minus_entry),
            Operation::LongEntry => of_long(parts),
            Operation::Checked => of_one(parts, |p| [p.checked(), Pair::of_ends(p.low, p.high)]),
            Operation::TimesOver => of_three(
                parts,
                |p, by, d| p.answer().times_over(by, d.answer()),
            ),
            Operation::PlusProduct => of_three(parts, |p, a, b| p.answer().plus_product(a, b)),
            Operation::Through => of_through(parts),
            Operation::NextTerm => of_next(parts),
            Operation::Absorbs => of_absorbs(parts),
            Operation::Raised => of_raised(parts),
        }
    }
}

// A pair, by two calls.
fn of_one<F: FnOnce(Pair) -> [Answer; 2]>(mut parts: Parts, calls: F) -> Option<bool>
    requires { F.IsAlwaysCallable calls }
{
    let [first, second] = calls(parts.pair()?);
    Some(parts.agree(first)? && parts.agree(second)?)
}

// Two pairs, by two calls.
fn of_two<F: FnOnce(Pair, Pair) -> [Answer; 2]>(mut parts: Parts, calls: F) -> Option<bool>
    requires { F.IsAlwaysCallable calls }
{
    let p = parts.pair()?;
    let q = parts.pair()?;
    let [first, second] = calls(p, q);
    Some(parts.agree(first)? && parts.agree(second)?)
}

// Three pairs in one call.
fn of_three<F: FnOnce(Pair, Pair, Pair) -> Answer>(mut parts: Parts, call: F) -> Option<bool>
    requires { F.IsAlwaysCallable call }
{
    let p = parts.pair()?;
    let q = parts.pair()?;
    let r = parts.pair()?;
    parts.agree(call(p, q, r))
}

// A printed number: a significand and an exponent.
fn of_entry<F: FnOnce(u64, i32) -> Answer>(mut parts: Parts, call: F) -> Option<bool>
    requires { F.IsAlwaysCallable call }
{
    let m = parts.whole()?;
    let e = parts.signed()?;
    parts.agree(call(m, e))
}

// A comparison: two working numbers. It answers 1 for at most, 0 for above.
fn of_compare(mut parts: Parts) -> Option<bool> {
    let a = parts.number()?;
    let b = parts.number()?;
    parts.says(match a.compare(b) {
        Ok(at_most) => u64::from(at_most),
        Err(_) => REFUSED,
    })
}

// A count in units: a pair and the unit's exponent. It answers two counts.
fn of_units(mut parts: Parts) -> Option<bool> {
    let p = parts.pair()?;
    match p.in_units(parts.signed()?) {
        Ok(n) => parts.says_two(n.low, n.high),
        Err(_) => parts.says(REFUSED),
    }
}

// A long entry: the words above and below 10^18, and an exponent.
fn of_long(mut parts: Parts) -> Option<bool> {
    let high = parts.whole()?;
    let low = parts.whole()?;
    let e = parts.signed()?;
    parts.agree(Pair::long_entry(high, low, e))
}

// Three steps in one call: a pair, and three times * or / and a pair.
fn of_through(mut parts: Parts) -> Option<bool> {
    let start = parts.pair()?;
    let (first, p) = parts.step()?;
    let (second, q) = parts.step()?;
    let (third, r) = parts.step()?;
    parts.agree(start.answer().through(first, p, second, q, third, r))
}

// A step of a series: the term, the total, a factor and a divisor. It answers the next term and the total with it.
fn of_next(mut parts: Parts) -> Option<bool> {
    let term = parts.pair()?;
    let total = parts.pair()?;
    let factor = parts.pair()?;
    let divisor = parts.pair()?;
    match term.next_term(total, factor, divisor) {
        Ok(next) => parts.says_pairs(next.term, next.total),
        Err(_) => parts.says(REFUSED),
    }
}

// Whether a pair absorbs another. It answers 1 where it does, 0 where it does not.
fn of_absorbs(mut parts: Parts) -> Option<bool> {
    let p = parts.pair()?;
    let q = parts.pair()?;
    parts.says(u64::from(p.absorbs(q)))
}

// A pair with so many units more in the last figure of its high end, at most 255.
fn of_raised(mut parts: Parts) -> Option<bool> {
    let p = parts.pair()?;
    let n = u8::try_from(parts.whole()?).ok()?;
    parts.agree(p.raised(n))
}
