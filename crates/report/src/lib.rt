//! The report (document 01, "Report"): from a deck, or from a scenario in memory, to its lines and totals, written into a lent buffer.
#![tactic(auto)]

mod rows;

ghost use Rattle.std.specs.Prelude.{◌≡◌, ◌*◌, ◌≤◌, length, take};
ghost use Rattle.sizes.specs.Sizes.{max_chemicals, most_receptors};
ghost use Rattle.text.specs.Text.{report_line_width};
ghost use Rattle.slots.specs.declared.Sort.TheVariants.{Ordinary};
ghost use Rattle.report.specs.Forms.{outcome_of, buffer_of};
ghost use Rattle.report.specs.Report.{rows_of, ordinary};
ghost use Rattle.report.specs.InMemory.{on_memory, as_read, written_outcome, written_buffer};
ghost use Rattle.report.specs.Inner.{per_receptor, from_room};
ghost use Rattle.report.specs.Rooms.{deck_room, longest_report};

use crate::rows::write_rows;
use cases::numbers::{MISCOUNTED, TOO_SHORT};
use cases::{Refusal, Told};
use scenario::Scenario;
use sheet::CELLS;
use sizes::{MAX_CHEMICALS, MAX_RECEPTORS, PATHWAYS};
use slots::Sort;
use text::LINE_WIDTH;

// The longest report: 388 lines.
pub const MAX_REPORT: usize = LINE_WIDTH * MAX_RECEPTORS * (MAX_CHEMICALS * PATHWAYS + 1);

// A byte more than the longest deck: input that fills it is no deck, whatever is in it.
pub const DECK_ROOM: usize = deck::MAX_LENGTH + 1;

// How many bytes a report has for so many chemicals and receptors.
fn length_of(chemicals: usize, receptors: usize) -> usize
    requires { (chemicals ≤ max_chemicals) × (receptors ≤ most_receptors) }
    ensures { result ≡ report_line_width * (receptors * per_receptor chemicals) }
{
    LINE_WIDTH * (receptors * (chemicals * PATHWAYS + 1))
}

// A refusal that names neither line nor field.
fn refused(number: u32) -> Told
    ensures { (result.number ≡ number) × (result.line ≡ 0) × (result.field ≡ 0) }
{
    Told {
        number,
        line: 0,
        field: 0,
    }
}

// The report of a scenario for whose records there is room, from 51 on. That its values were tested is a bool, as in the definitions
// (`from_room tested`).
fn write_from(tested: bool, scenario: &Scenario, out: &mut [u8]) -> Told
    requires { (scenario.now.chemicals.count ≤ max_chemicals) × (scenario.now.receptors.count ≤ most_receptors) }
    ensures value { result ≡ written_outcome (from_room tested) rows_of scenario.now (length out.old) }
    ensures out_after { out.new ≡ written_buffer (from_room tested) rows_of scenario.now out.old }
{
    let length = length_of(scenario.chemicals.count, scenario.receptors.count);
    if out.len() < length {
        return refused(TOO_SHORT);
    }
    let mut cells = [0u64; CELLS];
    let worked = sheet::counts_from(tested, scenario, &mut cells);
    if let Err(stop) = worked {
        return cases::tell(Err(stop));
    }
    write_rows(out, &cells, scenario);
    Told {
        number: 0,
        line: length,
        field: 0,
    }
}

// The report of a scenario into the buffer, whatever its values are: 0, the report's length, 0; or the number, line and field of the first
// condition that stops it, and the buffer as it was.
pub fn write_report(scenario: &Scenario, out: &mut [u8]) -> Told
    ensures value { result ≡ written_outcome on_memory rows_of scenario.now (length out.old) }
    ensures out_after { out.new ≡ written_buffer on_memory rows_of scenario.now out.old }
{
    if let Err(Refusal(number)) = scenario.verdict() {
        return refused(number);
    }
    write_from(false, scenario, out)
}

// The same of values that a deck's reading has tested, and that are not tested again. Every call on a deck ends here, however it made its
// receptors.
pub fn write_entered(scenario: &Scenario, out: &mut [u8]) -> Told
    ensures value { result ≡ written_outcome as_read rows_of scenario.now (length out.old) }
    ensures out_after { out.new ≡ written_buffer as_read rows_of scenario.now out.old }
{
    if cases::counts_outside(
        Sort::Ordinary,
        scenario.chemicals.count,
        scenario.receptors.count,
    ) {
        return refused(MISCOUNTED);
    }
    write_from(true, scenario, out)
}

// The report of an ordinary deck into the buffer.
pub fn report(deck: &[u8], out: &mut [u8]) -> Told
    ensures value { result ≡ outcome_of ordinary deck.now (length out.old) }
    ensures out_after { out.new ≡ buffer_of ordinary deck.now out.old }
{
    let case = match deck::read(deck, Sort::Ordinary) {
        Ok(case) => case,
        Err(stop) => return cases::tell(Err(stop)),
    };
    let scenario = Scenario {
        site: case.site,
        chemicals: case.chemicals,
        receptors: scenario::entered_from(&case),
    };
    write_entered(&scenario, out)
}

// The report of the first n bytes of the input, with room for every deck and a byte more and for every report: 51 is never told
// (specs/Rooms.antt), and a program has no room of its own to choose.
pub fn report_with_room(input: &[u8; DECK_ROOM], n: usize, out: &mut [u8; MAX_REPORT]) -> Told
    ensures input_len { length input.now ≡ deck_room Ordinary }
    ensures longest_report_value { longest_report ≡ length out.new }
    ensures value { result ≡ outcome_of ordinary (take n input.now) longest_report }
    ensures out_after { out.new ≡ buffer_of ordinary (take n input.now) out.old }
{
    report(spelling::front(input, n), out)
}
