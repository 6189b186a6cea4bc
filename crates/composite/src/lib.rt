//! The composite receptor (document 02, P2): a deck whose receptors are the life stages of one person, and the report of that person. The
//! composite is made of pairs here; from there on it takes the road of every receptor.
#![tactic(auto)]

mod stages;

ghost use Rattle.std.specs.Prelude.{◌≡◌, length, take};
ghost use Rattle.slots.specs.declared.Sort.TheVariants.{Composite};
ghost use Rattle.report.specs.Forms.{outcome_of, buffer_of};
ghost use Rattle.report.specs.Rooms.{deck_room, longest_for};
ghost use Rattle.composite.specs.Composite.{composite};

use crate::stages::composite_of;
use cases::Told;
use scenario::Scenario;
use slots::Sort;

// The longest report, of one receptor: 97 lines.
pub const MAX_REPORT: usize = report::MAX_REPORT / sizes::MAX_RECEPTORS;

// A byte more than the longest deck: input that fills it is no deck, whatever is in it.
pub const DECK_ROOM: usize = deck::MAX_COMPOSITE_LENGTH + 1;

// Not one function with `report::report`: what makes the receptor takes a case with one to eight stages, as only a deck of this sort has.
// The composite's report into the buffer: 0, the report's length, 0; or the number, line and field of the first condition that stops it, and
// the buffer as it was.
pub fn report(deck: &[u8], out: &mut [u8]) -> Told
    ensures value { result ≡ outcome_of composite deck.now (length out.old) }
    ensures out_after { out.new ≡ buffer_of composite deck.now out.old }
{
    let case = match deck::read(deck, Sort::Composite) {
        Ok(case) => case,
        Err(stop) => return cases::tell(Err(stop)),
    };
    let scenario = Scenario {
        site: case.site,
        chemicals: case.chemicals,
        receptors: composite_of(&case),
    };
    report::write_entered(&scenario, out)
}

// The report of the first n bytes of the input, with room for every composite's deck and a byte more and for every report of one receptor, as
// `report::report_with_room`.
pub fn report_with_room(input: &[u8; DECK_ROOM], n: usize, out: &mut [u8; MAX_REPORT]) -> Told
    ensures input_len { length input.now ≡ deck_room Composite }
    ensures longest_for_value { longest_for 1 ≡ length out.new }
    ensures value { result ≡ outcome_of composite (take n input.now) (longest_for 1) }
    ensures out_after { out.new ≡ buffer_of composite (take n input.now) out.old }
{
    report(spelling::front(input, n), out)
}
