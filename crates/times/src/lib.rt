//! Times to their last printed digit (document 02, P4): whole numbers of 1E-27 years, compared, added and subtracted exactly, and rounded
//! once, where they become a pair. Every call answers for itself: what it cannot work with it refuses, with document 01's number 53.
#![tactic(auto)]

ghost use Rattle.std.specs.Prelude.{◌≡◌, true, ◌&&◌, ◌+◌, ◌-◌, ◌*◌, ◌^◌, ◌≤◌, ◌<◌, leb, pos};
ghost use Rattle.std.specs.Int.Signed.{le_z};
ghost use Rattle.pair.specs.Calls.{answer};
ghost use Rattle.times.specs.Times as specs;
ghost use Rattle.times.specs.Times.{amount, is_years, words_of, time_of, least};

use pair::{Answer, Pair, Refused};

// A time: a whole number of 1E-27 years in two words, high × 10^18 + low, below 1E+10 years.
#[derive(Clone, Copy, PartialEq, Eq, PartialOrd, Ord)]
pub struct Years {
    pub high: u64,
    pub low: u64,
}

const MOST_HIGH: u64 = 9_999_999_999_999_999_999;

// The base of the words.
const BASE: u64 = 1_000_000_000_000_000_000;

#[tactic(auto, unfolding(crate::specs::Times::is_years))]
fn is_years(y: Years) -> bool
    ensures { result ≡ is_years y }
{
    y.high <= MOST_HIGH && y.low < BASE
}

fn at_most(a: Years, b: Years) -> bool
    requires { (is_years a ≡ true) × (is_years b ≡ true) }
    ensures { result ≡ leb (amount a) (amount b) }
{
    a <= b
}

// a − b, for b at most a: where b has more in the lower word, one is taken from the upper.
fn less(a: Years, b: Years) -> Years
    requires a_value { (is_years a ≡ true) × (is_years b ≡ true) }
    requires b_bound { amount b ≤ amount a }
    ensures { result ≡ words_of (amount a - amount b) }
{
    if a.low < b.low {
        return Years {
            high: a.high - b.high - 1,
            low: a.low + BASE - b.low,
        };
    }
    Years {
        high: a.high - b.high,
        low: a.low - b.low,
    }
}

// 10^k
fn ten_to(k: usize) -> u64
    requires { k ≤ 18 }
    ensures { result ≡ 10 ^ k }
{
    powers::ten_to(k as u32)
}

// Whether the last digit of what is printed stands from 1E-27 to 1E+9.
#[tactic(auto, unfolding(crate::specs::Times::least))]
fn is_place(power: i32) -> bool
    ensures { result ≡ (le_z least power && le_z power (pos 9)) }
{
    -27 <= power && power <= 9
}

// How far above 1E-27.
fn places(power: i32) -> usize
    requires { (le_z least power && le_z power (pos 9)) ≡ true }
    ensures { (result ≡ specs.places power) × (result ≤ 36) }
{
    (power + 27) as usize
}

// digits × 10^places in the upper word
fn upper(digits: u64, places: usize) -> Result<Years, Refused>
    requires { places ≤ 18 }
    ensures { answer result ≡ time_of (digits * 10 ^ (places + 18)) }
{
    let unit = ten_to(places);
    if MOST_HIGH / unit < digits {
        return Err(Refused);
    }
    Ok(Years {
        high: digits * unit,
        low: 0,
    })
}

// digits × 10^places over both words: too few to leave the bounds
fn across(digits: u64, places: usize) -> Years
    requires { places < 18 }
    ensures { (result ≡ words_of (digits * 10 ^ places)) × (digits * 10 ^ places < 10 ^ 37) }
{
    let unit = ten_to(18 - places);
    Years {
        high: digits / unit,
        low: digits % unit * ten_to(places),
    }
}

impl Years {
    pub const NONE: Years = Years { high: 0, low: 0 };

    // digits × 10^power years, as printed.
    pub fn printed(digits: u64, power: i32) -> Result<Years, Refused>
        ensures { answer result ≡ specs.printed digits power }
    {
        if !is_place(power) {
            return Err(Refused);
        }
        let k = places(power);
        if k < 18 {
            return Ok(across(digits, k));
        }
        upper(digits, k - 18)
    }

    // The sum of two times.
    pub fn together(self, other: Years) -> Result<Years, Refused>
        ensures { answer result ≡ specs.together self other }
    {
        if !is_years(self) {
            return Err(Refused);
        }
        if !is_years(other) {
            return Err(Refused);
        }
        if MOST_HIGH - self.high < other.high {
            return Err(Refused);
        }
        let low = self.low + other.low;
        let high = self.high + other.high + low / BASE;
        if MOST_HIGH < high {
            return Err(Refused);
        }
        Ok(Years {
            high,
            low: low % BASE,
        })
    }

    // Whether a time is at most a bound. No derived order: what is no time is refused, as `Number::compare` refuses what is no number.
    pub fn compare(self, bound: Years) -> Result<bool, Refused>
        ensures { answer result ≡ specs.at_most self bound }
    {
        if !is_years(self) {
            return Err(Refused);
        }
        if !is_years(bound) {
            return Err(Refused);
        }
        Ok(at_most(self, bound))
    }

    // The years beyond others, which are no more: the difference as a pair, rounded once.
    pub fn beyond(self, other: Years) -> Answer
        ensures { answer result ≡ specs.beyond self other }
    {
        if !is_years(self) {
            return Err(Refused);
        }
        if !is_years(other) {
            return Err(Refused);
        }
        if !at_most(other, self) {
            return Err(Refused);
        }
        less(self, other).pair()
    }

    // A time as a pair, rounded once.
    pub fn pair(self) -> Answer
        ensures { answer result ≡ specs.as_pair self }
    {
        Pair::long_entry(self.high, self.low, -27)
    }
}
