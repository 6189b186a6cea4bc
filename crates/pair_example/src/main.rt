//! A small calculation with the library `pair`. Each line tells an answer by its low and its high end, or that it is refused.
#![tactic(auto)]

use pair::{Answer, Chain, Number, Pair, Refused, Units};
use std::{fmt, io};

// What a line tells: `Display` is no trait of the library, whose types these are.
#[derive(Clone, Copy)]
struct Shown<T>(T);

// A working number: its figures and its exponent.
impl fmt::Display for Shown<Number> {
    fn fmt<W: fmt::Write>(&self, f: &mut fmt::Formatter<W>) -> fmt::Result {
        let w = self.0;
        write!(f, "{}E{:+}", w.significand, w.exponent)
    }
}

impl fmt::Display for Shown<Answer> {
    fn fmt<W: fmt::Write>(&self, f: &mut fmt::Formatter<W>) -> fmt::Result {
        match self.0 {
            Ok(p) => write!(f, "{} to {}", Shown(p.low), Shown(p.high)),
            Err(_) => write!(f, "refused"),
        }
    }
}

impl fmt::Display for Shown<Result<Units, Refused>> {
    fn fmt<W: fmt::Write>(&self, f: &mut fmt::Formatter<W>) -> fmt::Result {
        match self.0 {
            Ok(n) => write!(f, "{} to {}", n.low, n.high),
            Err(_) => write!(f, "refused"),
        }
    }
}

// How many units of 10^u what was answered is.
fn units(a: Answer, u: i32) -> Result<Units, Refused> {
    a?.in_units(u)
}

fn main(rt: HostRuntime) -> io::Result<()> {
    let one = Pair::ONE.answer();
    let third = one.over(Pair::entry(3, 0));
    let two_thirds = Pair::entry(2, 0).over(Pair::entry(3, 0));
    println!(rt; "2 / 3: {}", Shown(two_thirds))?;
    println!(rt; "1 - 1 / 3: {}", Shown(third.one_minus()))?;

    let share = Pair::entry(25, 0)
        .times(Pair::entry(61, -2))
        .times(Pair::entry(151, 0))
        .over(Pair::entry(633, -1).times(Pair::entry(27375, 0)));
    println!(rt; "25 x 0.61 x 151 / (63.3 x 27375): {}", Shown(share))?;
    println!(rt; "in units of 1E-9: {}", Shown(units(share, -9)))?;

    println!(rt; "1 + 1E-20: {}", Shown(one.plus(Pair::entry(1, -20))))?;
    println!(rt; "1 / 0: {}", Shown(one.over(Pair::ZERO.answer())))
}
