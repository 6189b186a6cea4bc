// The counts of a receptor's lines, into cells.
ghost use Rattle.std.specs.Prelude.{◌≡◌, ◌+◌, ◌*◌, ◌<◌, ◌≤◌, length};
ghost use Rattle.cases.specs.Conditions.{passed, first};
ghost use Rattle.pathway.specs.Lines as specs;
ghost use Rattle.sheet.specs.Sheet.{pathway_at};
ghost use Rattle.sizes.specs.Sizes.{most_lines, max_chemicals, most_receptors, pathways_per_chemical};
ghost use Rattle.sheet.specs.Counts.{effect_cells, receptor_cells, all_cells, no_cells};
ghost use Rattle.sheet.specs.Inner.{max_rows, is_large, is_broken, fault_at, with_counts, source_columns, columns_worked, faulty_chemical, faulty_worked, all_faulty, CellsHold, CellsEmpty, CellsFilled, SameBelow, SameBut, ZeroFrom};

use crate::counting::{above_cap, columns_of, is_refused};
use crate::{CELLS, EFFECT_CELLS, RECEPTOR_CELLS, Source, Sources};
use cases::numbers::{REFUSED, TOO_LARGE};
use cases::{Status, Stop};
use equations::{Effect, Pathway, Values};
use pathway::{Habits, Line, figures_with, habits_of};
use scenario::{Receptors, Site};
use sizes::{MOST_LINES, PATHWAYS};
use totals::Columns;

fn pathway_at(p: usize) -> Pathway
    ensures { result ≡ pathway_at p }
{
    match p {
        0 => Pathway::Air,
        1 => Pathway::SoilSummer,
        2 => Pathway::SoilWinter,
        3 => Pathway::Skin,
        4 => Pathway::AboveGround,
        _ => Pathway::BelowGround,
    }
}

// Whether a figure of the line is above its cap.
#[tactic(auto, using(std::proofs::lemmas::Grind::common_steps), unfolding(pathway::specs::Lines::figured, crate::specs::Inner::is_large))]
fn is_large(line: Line) -> bool
    ensures { result ≡ is_large (specs.figured line) }
{
    above_cap(line.hazard, Effect::Hazard) || above_cap(line.cancer, Effect::Cancer)
}

// Whether a figure of the line is refused.
#[tactic(auto, using(std::proofs::lemmas::Grind::common_steps), unfolding(pathway::specs::Lines::figured, crate::specs::Inner::is_broken))]
fn is_broken(line: Line) -> bool
    ensures { result ≡ is_broken (specs.figured line) }
{
    is_refused(line.hazard) || is_refused(line.cancer)
}

// 53 at report line l, or 42 where caps are held.
#[tactic(auto, using(std::proofs::lemmas::Grind::common_steps), unfolding(crate::specs::Inner::fault_at, cases::specs::Conditions::first))]
fn fault_at(capped: bool, line: Line, l: usize) -> Status
    ensures { result ≡ first (fault_at capped (specs.figured line) l) }
{
    if is_broken(line) {
        return Err(Stop::at(REFUSED, l, 0));
    }
    if capped && is_large(line) {
        return Err(Stop::at(TOO_LARGE, l, 0));
    }
    Ok(())
}

// 0 in every cell.
pub(crate) fn clear(cells: &mut [u64])
    requires { length cells.old ≡ all_cells }
    ensures { cells.new ≡ no_cells }
{
    cells.fill(0);
}

// The cells of two columns of a line.
fn put_counts(cells: &mut [u64], at: usize, columns: Columns)
    requires { at + 2 * most_lines < length cells.old }
    ensures { cells.new ≡ with_counts cells.old at columns }
{
    match columns {
        None => {
            cells[at] = 0;
            cells[at + MOST_LINES] = 0;
            cells[at + 2 * MOST_LINES] = 0;
        }
        Some(counts) => {
            cells[at] = 1;
            cells[at + MOST_LINES] = counts.low;
            cells[at + 2 * MOST_LINES] = counts.high;
        }
    }
}

// What the lines are worked from, and whether their caps are held: a bool, as the definitions have it (`fault_at capped`).
#[derive(Clone, Copy)]
pub(crate) struct Basis<'a> {
    pub site: Site,
    pub receptors: &'a Receptors,
    pub sources: &'a Sources,
    pub capped: bool,
}

impl Basis<'_> {
    // The counts of a chemical's lines, for the receptor at a place, into their cells, from base on, or the first line that stops.
    fn put_chemical(
        &self,
        cells: &mut [u64],
        base: usize,
        place: usize,
        receptor: Values,
        habits: Habits,
        source: &Source,
        before: usize,
    ) -> Status
        requires { (base + effect_cells + 2 * most_lines + pathways_per_chemical ≤ length cells.old) × (before ≤ max_rows + most_lines) × (place < most_receptors) × (specs.shared habits ≡ specs.habits_of self.now.site.guidance receptor) }
        ensures value { result ≡ first (faulty_chemical self.now.capped self.now.site place receptor source.now before) }
        ensures cells_hold { result ≡ passed → CellsHold (source_columns self.now.site place receptor source.now) pathways_per_chemical cells.new base }
        ensures same_but { SameBut pathways_per_chemical base cells.old cells.new }
    {
        let mean = source.means[place];
        for p in 0..PATHWAYS {
            let line = figures_with(
                habits,
                pathway_at(p),
                self.site.values,
                source.absorbed,
                receptor,
                source.media,
                mean,
                source.references,
            );
            fault_at(self.capped, line, before + (p + 1))?;
            let hazard = line.hazard;
            let cancer = line.cancer;
            let at = base + p;
            put_counts(cells, at, columns_of(hazard, Effect::Hazard));
            put_counts(cells, at + EFFECT_CELLS, columns_of(cancer, Effect::Cancer));
        }
        Ok(())
    }

    // The counts of a receptor's lines into its cells, from base on, or the first line that stops.
    fn put_lines(
        &self,
        cells: &mut [u64],
        base: usize,
        place: usize,
        receptor: Values,
        before: usize,
    ) -> Status
        requires { (base + receptor_cells ≤ length cells.old) × (self.now.sources.now.count ≤ max_chemicals) × (before ≤ max_rows) × (place < most_receptors) }
        ensures value { result ≡ first (faulty_worked self.now.capped self.now.site self.now.sources.now place receptor before) }
        ensures cells_hold { result ≡ passed → CellsHold (columns_worked self.now.site self.now.sources.now place receptor) (self.now.sources.now.count * pathways_per_chemical) cells.new base }
        ensures same_below { SameBelow base cells.old cells.new }
        ensures cells_empty { ZeroFrom base cells.old → CellsEmpty (self.now.sources.now.count * pathways_per_chemical) cells.new base × ZeroFrom (base + receptor_cells) cells.new }
    {
        let habits = habits_of(self.site.guidance, receptor);
        let sources = self.sources;
        for i in 0..sources.count {
            let done = i * PATHWAYS;
            self.put_chemical(
                cells,
                base + done,
                place,
                receptor,
                habits,
                &sources.list[i],
                before + done,
            )?;
        }
        Ok(())
    }

    // Every receptor's counts, or the first line that stops.
    pub fn put_all(&self, cells: &mut [u64; CELLS]) -> Status
        requires { (self.now.receptors.now.count ≤ most_receptors) × (self.now.sources.now.count ≤ max_chemicals) }
        ensures value { result ≡ first (all_faulty self.now.capped self.now.site self.now.sources.now self.now.receptors.now.list self.now.receptors.now.count) }
        ensures cells_filled { result ≡ passed → ZeroFrom 0 cells.old → CellsFilled self.now.site self.now.sources.now self.now.receptors.now.list self.now.receptors.now.count cells.new × ZeroFrom (receptor_cells * self.now.receptors.now.count) cells.new }
    {
        let per = self.sources.count * PATHWAYS + 1;
        let receptors = self.receptors;
        for j in 0..receptors.count {
            let receptor = receptors.list[j];
            self.put_lines(cells, RECEPTOR_CELLS * j, j, receptor.values, j * per)?;
        }
        Ok(())
    }
}
