//! The text of report lines (document 01, "Report"), written into a lent part of the report.
#![tactic(auto)]

mod lines;

ghost use Rattle.std.specs.Prelude.{◌≡◌, length};
ghost use Rattle.text.specs.Text.{written, line_told, line_after};

use crate::lines::put_line;
use spelling::ID_WIDTH;
use totals::Columns;

// A report line. A total line has chemical 0 and pathway 0.
#[derive(Clone, Copy)]
pub struct Row {
    pub receptor: u32,
    pub chemical: u32,
    pub pathway: u32,
    pub hazard: Columns,
    pub cancer: Columns,
}

// Why a line is not written: document 01's 51, a part shorter than a line.
#[derive(Clone, Copy, PartialEq, Eq)]
pub struct TooShort;

// Columns of a report line beside its ids, and the bytes of one: its columns and a line feed.
pub const PATHWAY_WIDTH: usize = 2;

pub const COUNT_WIDTH: usize = 20;

pub const LINE_WIDTH: usize = 2 * ID_WIDTH + PATHWAY_WIDTH + 4 * COUNT_WIDTH + 1;

// Writes a row into the first 95 bytes of its part of the report; no byte changes of a part that is too short.
#[tactic(auto, using(crate::proofs::Rows::line_short, crate::proofs::Rows::line_whole), unfolding(crate::specs::Text::line_told))]
pub fn put_row(line: &mut [u8], row: Row) -> Result<(), TooShort>
    ensures result_value { written result ≡ line_told (length line.old) }
    ensures line_after { line.new ≡ line_after row line.old }
{
    if line.len() < LINE_WIDTH {
        return Err(TooShort);
    }
    put_line(&mut line[..LINE_WIDTH], row);
    Ok(())
}
