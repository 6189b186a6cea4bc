// A receptor's columns and totals, read from the cells.
ghost use Rattle.std.specs.Prelude.{◌≡◌, ◌+◌, ◌*◌, ◌<◌, ◌≤◌, length, take, drop};
ghost use Rattle.sizes.specs.Sizes.{most_lines};
ghost use Rattle.totals.specs.Totals.{total_of};
ghost use Rattle.sheet.specs.Counts.{effect_cells, columns_from, columns_found, total_found};
ghost use Rattle.sheet.specs.Inner.{if_told};

use pair::Units;
use sizes::MOST_LINES;
use totals::Columns;

// Two columns: - where no line has counts.
fn columns_from(lines: u64, low: u64, high: u64) -> Columns
    ensures { result ≡ columns_from lines low high }
{
    if lines == 0 {
        return None;
    }
    Some(Units { low, high })
}

pub(crate) fn columns_found(cells: &[u64], at: usize) -> Columns
    requires { at + 2 * most_lines < length cells.now }
    ensures { result ≡ columns_found cells.now at }
{
    columns_from(
        cells[at],
        cells[at + MOST_LINES],
        cells[at + 2 * MOST_LINES],
    )
}

// What the totals call tells of count cells.
fn part_total(cells: &[u64], at: usize, count: usize) -> Option<u64>
    requires { at + count ≤ length cells.now }
    ensures { result ≡ if_told (total_of (take count (drop at cells.now))) }
{
    totals::total(&cells[at..at + count]).ok()
}

// The totals of count lines.
pub(crate) fn total_found(cells: &[u64], at: usize, count: usize) -> Columns
    requires { (count ≤ most_lines) × (at + effect_cells ≤ length cells.now) }
    ensures { result ≡ total_found cells.now at count }
{
    let lines = part_total(cells, at, count)?;
    let low = part_total(cells, at + MOST_LINES, count)?;
    let high = part_total(cells, at + 2 * MOST_LINES, count)?;
    columns_from(lines, low, high)
}
