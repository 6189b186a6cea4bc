//! The sheet of a scenario (document 01, "Units and totals"): each line's quotient and risk counted in units, 42, and a receptor's totals.
#![tactic(auto)]

mod chemicals;
mod counting;
mod lines;
mod reading;
mod references;

ghost use Rattle.std.specs.Prelude.{◌≡◌, ◌≤◌, false, cond, Some, None};
ghost use Rattle.sizes.specs.Sizes.{max_chemicals, most_receptors};
ghost use Rattle.cases.specs.Conditions.{first, verdict_of};
ghost use Rattle.sheet.specs.Counts.{no_cells, cells_for, status_by, cells_by, side_of, is_held, column_start, columns_in, total_in};
ghost use Rattle.sheet.specs.Inner.{worked_by, strictly};

use crate::chemicals::{no_source, sources_of};
use crate::lines::{Basis, clear};
use crate::reading::{columns_found, total_found};
use cases::numbers::{MISCOUNTED, OUT_OF_RANGE, REFUSED, TOO_LARGE};
use cases::{Status, Stop, Verdict, counts_outside, lacks, verdict_of};
use equations::Effect;
use media::Media;
use pathway::{Absorbed, References};
use scenario::{Scenario, has_no_guidance, site_of};
use sizes::{MAX_CHEMICALS, MAX_RECEPTORS, MOST_LINES};
use slots::{Owner, Sort};
use totals::Columns;

// The counts of a scenario's lines stand in cells. An effect has three columns of 96 cells: 1 for each line that has counts, the low and the
// high counts; all three are 0 where the line has -, and where there is none. A receptor has hazard's columns, then cancer's.
pub const EFFECT_CELLS: usize = 3 * MOST_LINES;

pub const RECEPTOR_CELLS: usize = 2 * EFFECT_CELLS;

pub const CELLS: usize = MAX_RECEPTORS * RECEPTOR_CELLS;

// What a chemical's lines take, for every receptor: the shares absorbed, what it leaves in the media, hazard's and each receptor's for
// cancer, and its reference values.
#[derive(Clone, Copy)]
pub struct Source {
    pub absorbed: Absorbed,
    pub media: Media,
    pub means: [Media; MAX_RECEPTORS],
    pub references: References,
}

// The first count sources of the list, in deck order: a fixed list, since nothing here has a heap.
#[derive(Clone, Copy)]
pub struct Sources {
    pub count: usize,
    pub list: [Source; MAX_CHEMICALS],
}

// The counts of a scenario's lines into the cells, which are all 0; or where it stops, and 0 in every cell.
fn work(scenario: &Scenario, cells: &mut [u64; CELLS], capped: bool) -> Status
    requires { (scenario.now.chemicals.count ≤ max_chemicals) × (scenario.now.receptors.count ≤ most_receptors) × (cells.old ≡ no_cells) }
    ensures value { result ≡ first (worked_by capped scenario.now) }
    ensures cells_after { cells.new ≡ cells_for result scenario.now }
{
    if lacks(Sort::Ordinary, Owner::Site, &scenario.site) {
        return Err(Stop::at(REFUSED, 0, 0));
    }
    let site = site_of(scenario.site);
    let mut list = [no_source(); MAX_CHEMICALS];
    let chemicals = &scenario.chemicals;
    let receptors = &scenario.receptors;
    if let Err(chemical) = sources_of(site.values, chemicals, receptors, &mut list) {
        return Err(Stop::at(REFUSED, chemical, 0));
    }
    let count = chemicals.count;
    let sources = Sources { count, list };
    let basis = Basis {
        site,
        receptors,
        sources: &sources,
        capped,
    };
    let status = basis.put_all(cells);
    if let Err(stop) = status {
        clear(cells);
        return Err(stop);
    }
    Ok(())
}

// The same with every 53 before 42: where a line is above its cap, the others are asked whether they are refused.
fn work_strictly(scenario: &Scenario, cells: &mut [u64; CELLS]) -> Status
    requires { (scenario.now.chemicals.count ≤ max_chemicals) × (scenario.now.receptors.count ≤ most_receptors) × (cells.old ≡ no_cells) }
    ensures value { result ≡ first (strictly scenario.now) }
    ensures cells_after { cells.new ≡ cells_for result scenario.now }
{
    let status = work(scenario, cells, true);
    let Err(stop) = status else {
        return status;
    };
    if stop.number != TOO_LARGE {
        return status;
    }
    let refused = work(scenario, cells, false);
    clear(cells);
    refused?;
    status
}

// The counts of a scenario's lines into the cells; or where it stops, whatever its values are, and 0 in every cell. Values of a deck were
// tested where they were read, and are not tested again. Every call that writes a report ends here, those on a deck among them, so that it
// tells line and field.
pub fn counts_from(tested: bool, scenario: &Scenario, cells: &mut [u64; CELLS]) -> Status
    ensures value { result ≡ status_by tested scenario.now }
    ensures cells_after { cells.new ≡ cells_by tested scenario.now }
{
    clear(cells);
    if tested {
        if counts_outside(
            Sort::Ordinary,
            scenario.chemicals.count,
            scenario.receptors.count,
        ) {
            return Err(Stop::at(MISCOUNTED, 0, 0));
        }
        if has_no_guidance(scenario.site) {
            return Err(Stop::at(OUT_OF_RANGE, 0, 0));
        }
        return work(scenario, cells, true);
    }
    scenario.verdict()?;
    if scenario.is_unpaired() {
        return Err(Stop::at(REFUSED, 0, 0));
    }
    work_strictly(scenario, cells)
}

// The same of a scenario in memory, for callers that have no report: the number alone.
pub fn counts_of(scenario: &Scenario, cells: &mut [u64; CELLS]) -> Verdict
    ensures value { result ≡ verdict_of (status_by false scenario.now) }
    ensures cells_after { cells.new ≡ cells_by false scenario.now }
{
    verdict_of(counts_from(false, scenario, cells))
}

fn side_of(effect: Effect) -> usize
    ensures { result ≡ side_of effect }
{
    match effect {
        Effect::Hazard => 0,
        Effect::Cancer => 1,
    }
}

// Where a receptor's columns of an effect begin, in cells that hold them.
fn column_start(cells: &[u64], receptor: usize, effect: Effect) -> Option<usize>
    ensures { result ≡ cond (is_held cells.now receptor) (Some (column_start receptor effect)) None }
{
    if cells.len() != CELLS || MAX_RECEPTORS <= receptor {
        return None;
    }
    Some(RECEPTOR_CELLS * receptor + EFFECT_CELLS * side_of(effect))
}

// The columns of a receptor's line, both counted from 0; - where the cells have none.
pub fn columns(cells: &[u64], receptor: usize, effect: Effect, line: usize) -> Columns
    ensures { result ≡ columns_in cells.now receptor effect line }
{
    let start = column_start(cells, receptor, effect)?;
    if MOST_LINES <= line {
        return None;
    }
    columns_found(cells, start + line)
}

// The total of a receptor's first lines; - where none of them has counts.
pub fn total(cells: &[u64], receptor: usize, effect: Effect, lines: usize) -> Columns
    ensures { result ≡ total_in cells.now receptor effect lines }
{
    let start = column_start(cells, receptor, effect)?;
    if MOST_LINES < lines {
        return None;
    }
    total_found(cells, start, lines)
}
