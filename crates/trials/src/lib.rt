//! What the programs that run stored trials share. A stored trial is a line of five numbers in 6 columns each, the bytes of its input and those
//! of its answer; or it is a line of text. What a file holds no contract can say: what is read and written is proved of readers and writers whose
//! bytes are known.
#![tactic(auto)]

mod counting;
mod stored;
mod text;

pub use counting::{MOST, Tally, said};
pub use stored::{Head, file, fill, next_head, next_part, numbers_in, open, room};
pub use text::{Part, after, digits, past, read_signed, read_whole, signed_at};
