//! How numbers and ids are spelled in columns (document 01, "Deck" and "Report"), both ways: what a field's text means, and digits written
//! right-justified into a lent part.
#![tactic(auto)]

mod reading;
mod writing;

ghost use Rattle.std.specs.Prelude.{◌≡◌};
ghost use Rattle.spelling.specs.Spelling.{word_of, held};

use reading::word;
pub use reading::{front, id_in, leading_bytes};
pub use writing::{put_dash, put_number};

// Columns of a field and of an id.
pub const FIELD_WIDTH: usize = 12;

pub const ID_WIDTH: usize = 6;

// Digits of a number before and after its point, zeros counted: as many as the columns of a field hold.
pub const MAX_DIGITS: usize = FIELD_WIDTH;

// What a field's columns hold.
#[derive(Clone, Copy)]
pub enum Word {
    Blank,
    // A lone -.
    Dash,
    // digits × 10 ^ power.
    Number { digits: u64, power: i32 },
    // None of these.
    Other,
}

// What a part holds: nothing but spaces, a lone -, a number, or none of these.
pub fn number(part: &[u8]) -> Word
    ensures value { result ≡ word_of part.now }
    ensures result_value { held result ≡ held (word_of part.now) }
{
    word(part)
}
