// A report line, column by column.
ghost use Rattle.std.specs.Prelude.{◌≡◌, [], ◌∷◌, ◌++◌, ◌+◌, ◌*◌, ◌-◌, ◌/◌, ◌%◌, ◌<◌, ◌≤◌, length, drop, replicate};
ghost use Rattle.spelling.specs.Columns.{digits, justified, number, dash};
ghost use Rattle.text.specs.Text.{columns_text, row_text, count_width, report_line_width};
ghost use Rattle.lists.specs.Lists.{placed};

use crate::{COUNT_WIDTH, LINE_WIDTH, PATHWAY_WIDTH, Row};
use spelling::ID_WIDTH;
use totals::Columns;

const CHEMICAL_START: usize = ID_WIDTH;

const PATHWAY_START: usize = 2 * ID_WIDTH;

const HAZARD_START: usize = PATHWAY_START + PATHWAY_WIDTH;

const CANCER_START: usize = HAZARD_START + 2 * COUNT_WIDTH;

const LINE_FEED_AT: usize = LINE_WIDTH - 1;

const LINE_FEED: u8 = b'\n';

// The number n in width columns from at.
fn put_number(line: &mut [u8], at: usize, width: usize, n: u64)
    requires { (0 < width) × (at + width ≤ length line.old) }
    ensures { line.new ≡ placed line.old at (number width n) }
{
    spelling::put_number(&mut line[at..at + width], n);
}

// A lone - in width columns from at.
fn put_dash(line: &mut [u8], at: usize, width: usize)
    requires { (0 < width) × (at + width ≤ length line.old) }
    ensures { line.new ≡ placed line.old at (justified width dash) }
{
    spelling::put_dash(&mut line[at..at + width]);
}

// Low and high, from at.
#[tactic(auto, using(crate::proofs::Rows::columns_absent))]
fn put_columns(line: &mut [u8], at: usize, columns: Columns)
    requires { at + 2 * count_width ≤ length line.old }
    ensures { line.new ≡ placed line.old at (columns_text columns) }
{
    match columns {
        None => {
            put_dash(line, at, COUNT_WIDTH);
            put_dash(line, at + COUNT_WIDTH, COUNT_WIDTH);
        }
        Some(counts) => {
            put_number(line, at, COUNT_WIDTH, counts.low);
            put_number(line, at + COUNT_WIDTH, COUNT_WIDTH, counts.high);
        }
    }
}

// Writes a row into its own part of the report, a line long.
#[tactic(auto, using(crate::proofs::Rows::row_written))]
pub(crate) fn put_line(line: &mut [u8], row: Row)
    requires { length line.old ≡ report_line_width }
    ensures { line.new ≡ row_text row }
{
    put_number(line, 0, ID_WIDTH, row.receptor as u64);
    put_number(line, CHEMICAL_START, ID_WIDTH, row.chemical as u64);
    put_number(line, PATHWAY_START, PATHWAY_WIDTH, row.pathway as u64);
    let hazard = row.hazard;
    put_columns(line, HAZARD_START, hazard);
    let cancer = row.cancer;
    put_columns(line, CANCER_START, cancer);
    line[LINE_FEED_AT] = LINE_FEED;
}
