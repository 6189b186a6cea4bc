// The report's lines, from the cells that hold their counts into a lent buffer.
ghost use Rattle.std.specs.Prelude.{◌≡◌, ◌++◌, ◌*◌, ◌≤◌, length, drop};
ghost use Rattle.sizes.specs.Sizes.{max_chemicals, most_receptors};
ghost use Rattle.text.specs.Text.{report_line_width, lines_text};
ghost use Rattle.report.specs.Inner.{per_receptor, row_in, total_row_in, rows_in, report_in};

use cases::Chemicals;
use equations::Effect;
use scenario::Scenario;
use sizes::PATHWAYS;
use text::{LINE_WIDTH, Row, put_row};

// Line q of a receptor, which has this id, of the chemical that has this id.
fn row_of(cells: &[u64], receptor: usize, id: u32, chemical: u32, q: usize) -> Row
    ensures { result ≡ row_in cells.now receptor id chemical q }
{
    Row {
        receptor: id,
        chemical,
        pathway: (q % PATHWAYS + 1) as u32,
        hazard: sheet::columns(cells, receptor, Effect::Hazard, q),
        cancer: sheet::columns(cells, receptor, Effect::Cancer, q),
    }
}

fn total_row(cells: &[u64], receptor: usize, id: u32, lines: usize) -> Row
    ensures { result ≡ total_row_in cells.now receptor id lines }
{
    Row {
        receptor: id,
        chemical: 0,
        pathway: 0,
        hazard: sheet::total(cells, receptor, Effect::Hazard, lines),
        cancer: sheet::total(cells, receptor, Effect::Cancer, lines),
    }
}

// Writes a receptor's lines and its total line into their part of the report. Each is lent a whole line, so that no line is too short.
fn write_receptor(part: &mut [u8], cells: &[u64], receptor: usize, id: u32, chemicals: &Chemicals)
    requires count_le_max_chemicals { chemicals.now.count ≤ max_chemicals }
    requires part_len { length part.old ≡ report_line_width * per_receptor chemicals.now.count }
    ensures { part.new ≡ lines_text (rows_in cells.now receptor id chemicals.now) }
{
    let count = chemicals.count * PATHWAYS;
    for q in 0..count {
        let chemical = chemicals.records[q / PATHWAYS];
        let row = row_of(cells, receptor, id, chemical.id, q);
        let at = LINE_WIDTH * q;
        let _ = put_row(&mut part[at..at + LINE_WIDTH], row);
    }
    let row = total_row(cells, receptor, id, count);
    let at = LINE_WIDTH * count;
    let _ = put_row(&mut part[at..at + LINE_WIDTH], row);
}

// Writes the report from the start of the buffer.
pub(crate) fn write_rows(out: &mut [u8], cells: &[u64], scenario: &Scenario)
    requires count_le_max_chemicals { (scenario.now.chemicals.count ≤ max_chemicals) × (scenario.now.receptors.count ≤ most_receptors) }
    requires count_in_bounds { report_line_width * (scenario.now.receptors.count * per_receptor scenario.now.chemicals.count) ≤ length out.old }
    ensures { out.new ≡ lines_text (report_in cells.now scenario.now.chemicals scenario.now.receptors.list scenario.now.receptors.count) ++ drop (report_line_width * (scenario.now.receptors.count * per_receptor scenario.now.chemicals.count)) out.old }
{
    let width = LINE_WIDTH * (scenario.chemicals.count * PATHWAYS + 1);
    for j in 0..scenario.receptors.count {
        let receptor = scenario.receptors.list[j];
        let at = width * j;
        write_receptor(
            &mut out[at..at + width],
            cells,
            j,
            receptor.id,
            &scenario.chemicals,
        );
    }
}
