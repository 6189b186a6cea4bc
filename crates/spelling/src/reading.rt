// What the text of a field or an id means.
ghost use Rattle.std.specs.Prelude.{position, ltb, ◌||◌, ◌≡◌, true, cond, ◌+◌, ◌-◌, ◌*◌, ◌^◌, ◌<◌, ◌≤◌, length, take, drop};
ghost use Rattle.std.proofs.Math.IntN.{sub_ℕ};
ghost use Rattle.spelling.specs.Columns.{leading, digits_value};
ghost use Rattle.spelling.specs.Spelling.{unspaced, id_in, exponent_spelled, power_of, max_digits, pointed_of, spelled_of, word_of};

use crate::{ID_WIDTH, MAX_DIGITS, Word};

// Digits that stand together: how many, and the number that they spell.
#[derive(Clone, Copy)]
struct Digits {
    count: usize,
    value: u64,
}

// One digit more than a number may have shows that there are too many; no more are looked at, so that their number fits.
const LOOKED_AT: usize = MAX_DIGITS + 1;

// Where the first byte stands that does not lie from lo to hi.
fn first_outside(s: &[u8], lo: u8, hi: u8) -> Option<usize>
    ensures { result ≡ position (λ b. ltb b lo || ltb hi b) s.now }
{
    s.iter().position(|b| *b < lo || hi < *b)
}

// How many bytes at the front of s lie from lo to hi.
#[tactic(auto, using(crate::proofs::Leading::found_is))]
pub fn leading_bytes(s: &[u8], lo: u8, hi: u8) -> usize
    ensures { result ≡ leading lo hi s.now }
{
    first_outside(s, lo, hi).unwrap_or(s.len())
}

// The digits at the front of s, whose number goes on after `from`. One pass counts them and adds them up.
fn leading_digits(from: u64, s: &[u8]) -> Digits
    requires { (from + 1) * 10 ^ length s.now ≤ 10000000000000 }
    ensures count_value { result.count ≡ leading 48 57 s.now }
    ensures value_value { result.value ≡ digits_value from (take (leading 48 57 s.now) s.now) }
{
    let mut value = from;
    for (count, b) in s.iter().enumerate() {
        if !b.is_ascii_digit() {
            return Digits { count, value };
        }
        value = value * 10 + u64::from(*b - b'0');
    }
    Digits {
        count: s.len(),
        value,
    }
}

// The first bytes of s, at most so many.
pub fn front(s: &[u8], most: usize) -> &[u8]
    ensures { result.now ≡ take most s.now }
{
    &s[..most.min(s.len())]
}

// up - down.
fn difference(up: u32, down: u32) -> i32
    requires { (up < 1000) × (down < 1000) }
    ensures { result ≡ sub_ℕ up down }
{
    up as i32 - down as i32
}

// What follows the leading spaces.
#[tactic(auto, using(crate::proofs::DigitLaws::leading_le))]
fn unspaced(part: &[u8]) -> &[u8]
    ensures { result.now ≡ unspaced part.now }
{
    &part[leading_bytes(part, b' ', b' ')..]
}

// The id in the columns, if one is spelled.
#[tactic(auto, unfolding(crate::specs::Spelling::id_in, crate::specs::Spelling::id_spelled))]
pub fn id_in(columns: &[u8]) -> Option<u32>
    ensures { result ≡ id_in columns.now }
{
    let text = unspaced(columns);
    if text.is_empty() {
        return None;
    }
    if text[0] <= b'0' {
        return None;
    }
    if ID_WIDTH < text.len() {
        return None;
    }
    let id = leading_digits(0, text);
    if id.count != text.len() {
        return None;
    }
    Some(id.value as u32)
}

// Nothing, or E, a sign and two digits.
#[tactic(auto, unfolding(crate::specs::Spelling::exponent_spelled, crate::specs::Spelling::sign_spelled))]
fn exponent_spelled(tail: &[u8]) -> bool
    ensures { result ≡ exponent_spelled tail.now }
{
    match tail {
        [] => true,
        [b'E', b'+' | b'-', tens, ones] => tens.is_ascii_digit() && ones.is_ascii_digit(),
        _ => false,
    }
}

// The two digits of an exponent that is not left out.
fn exponent(tail: &[u8]) -> u32
    requires { (exponent_spelled tail.now ≡ true) × (length tail.now ≡ 4) }
    ensures { result ≡ digits_value 0 (drop 2 tail.now) }
{
    u32::from(tail[2] - b'0') * 10 + u32::from(tail[3] - b'0')
}

// The power of ten of a number with so many digits after its point, and this exponent.
#[tactic(auto, using(crate::proofs::WordLaws::exponent_small, crate::proofs::WordLaws::exponent_four, crate::proofs::WordLaws::no_exponent), unfolding(crate::specs::Spelling::power_of))]
fn power_of(tail: &[u8], places: u32) -> i32
    requires { (exponent_spelled tail.now ≡ true) × (places < 100) }
    ensures { result ≡ power_of tail.now places }
{
    if tail.len() == 0 {
        return difference(0, places);
    }
    let exponent = exponent(tail);
    if tail[1] == b'-' {
        return difference(0, places + exponent);
    }
    difference(exponent, places)
}

// The number with these digits, so many of them after its point, whose exponent starts at `end`.
fn ended(text: &[u8], digits: u64, places: usize, end: usize) -> Word
    requires { (places < 100) × (end ≤ length text.now) }
    ensures { result ≡ cond (exponent_spelled (drop end text.now)) (Word.Number digits (power_of (drop end text.now) places)) Word.Other }
{
    let tail = &text[end..];
    if !exponent_spelled(tail) {
        return Word::Other;
    }
    Word::Number {
        digits,
        power: power_of(tail, places as u32),
    }
}

// The number with a point after its first digits.
fn pointed(text: &[u8], whole: Digits) -> Word
    requires count_value { (whole.count ≡ leading 48 57 text.now) × (whole.value ≡ digits_value 0 (take (leading 48 57 text.now) text.now)) }
    requires count_le_max_digits { (whole.count ≤ max_digits) × (whole.count < length text.now) }
    ensures { result ≡ pointed_of text.now whole.count }
{
    let at = whole.count + 1;
    let rest = &text[at..];
    let places = leading_digits(whole.value, front(rest, LOOKED_AT - whole.count));
    if places.count == 0 {
        return Word::Other;
    }
    if MAX_DIGITS < whole.count + places.count {
        return Word::Other;
    }
    ended(text, places.value, places.count, at + places.count)
}

// The number that the text spells, which is not blank.
fn spelled(text: &[u8]) -> Word
    ensures { result ≡ spelled_of text.now }
{
    let whole = leading_digits(0, front(text, LOOKED_AT));
    if whole.count == 0 {
        return Word::Other;
    }
    if MAX_DIGITS < whole.count {
        return Word::Other;
    }
    match text.get(whole.count) {
        Some(b'.') => pointed(text, whole),
        _ => ended(text, whole.value, 0, whole.count),
    }
}

// What a part holds after its leading spaces.
#[tactic(auto, unfolding(crate::specs::Spelling::word_of, crate::specs::Spelling::lone_dash))]
pub(crate) fn word(part: &[u8]) -> Word
    ensures { result ≡ word_of part.now }
{
    match unspaced(part) {
        [] => Word::Blank,
        [b'-'] => Word::Dash,
        text => spelled(text),
    }
}
