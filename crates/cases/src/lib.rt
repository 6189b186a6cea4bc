//! A case in memory (document 01, "Deck"): the values of a site, chemicals and receptors, whether they were read from a deck or made by a
//! caller; the range of a value; and where a call on a deck or a case stops.
#![tactic(auto)]

mod guidance;
mod memory;
pub mod numbers;
mod ranges;
mod zeros;

ghost use Rattle.std.specs.Prelude.{◌≡◌};
ghost use Rattle.cases.specs.Cases.{max_receptors};
ghost use Rattle.cases.specs.Conditions.{told_of, verdict_of};

pub use guidance::{guidance_of, is_other_year};
pub use memory::{counts_outside, lacks, memory_verdict};
pub use ranges::in_range;
use sizes::{MAX_CHEMICALS, MAX_RECEPTORS, MAX_STAGES, SLOTS};
use slots::Sort;
pub use zeros::plain;

// A slot's value, read from a deck or given by a caller: digits × 10 ^ power. Absent where a lone - stands, where the year is blank, and in later
// slots. The power stands first, so that a value takes 16 bytes and not 24; an Option of a struct takes 24, and a report 17 % more instructions.
#[derive(Clone, Copy, PartialEq, Eq)]
pub enum Value {
    Absent,
    Given { power: i32, digits: u64 },
}

#[derive(Clone, Copy)]
pub struct Record {
    pub id: u32,
    pub slots: [Value; SLOTS],
}

// The count stands beside the records, and may be larger than there is room for: a caller's case has what it says, and is told 21.
#[derive(Clone, Copy)]
pub struct Chemicals {
    pub count: usize,
    pub records: [Record; MAX_CHEMICALS],
}

// One shape for both sorts of deck: room for the most that either has.
#[derive(Clone, Copy)]
pub struct Receptors {
    pub count: usize,
    pub records: [Record; MAX_STAGES],
}

// The ids of the first count receptors, however these are held; the count as given, as the records'.
#[derive(Clone, Copy)]
pub struct Ids {
    pub count: usize,
    pub list: [u32; MAX_STAGES],
}

#[derive(Clone, Copy)]
pub struct Case {
    pub site: Record,
    pub chemicals: Chemicals,
    pub receptors: Receptors,
}

// The first condition of a call that holds: its number, and the line and field where it is told.
#[derive(Clone, Copy, PartialEq, Eq)]
pub struct Stop {
    pub number: u32,
    pub line: usize,
    pub field: usize,
}

pub type Status = Result<(), Stop>;

// The first condition of a call that reads no deck: its number alone (document 01).
#[derive(Clone, Copy, PartialEq, Eq)]
pub struct Refusal(pub u32);

pub type Verdict = Result<(), Refusal>;

// Number, line and field as document 01 tells them and C returns them; all 0 where no condition holds.
#[derive(Clone, Copy, PartialEq, Eq)]
pub struct Told {
    pub number: u32,
    pub line: usize,
    pub field: usize,
}

impl Stop {
    pub fn at(number: u32, line: usize, field: usize) -> Stop
        ensures { result ≡ record { number = number; line = line; field = field } }
    {
        Stop {
            number,
            line,
            field,
        }
    }
}

// A refusal that names neither line nor field.
impl From<Refusal> for Stop {
    ghost from_gives = { λ refusal stop. stop ≡ record { number = refusal.0; line = 0; field = 0 } };

    fn from(refusal: Refusal) -> Stop {
        Stop {
            number: refusal.0,
            line: 0,
            field: 0,
        }
    }
}

// What document 01 has a refusal on a deck return.
#[tactic(auto, unfolding(crate::specs::Conditions::told_of))]
pub fn tell(status: Status) -> Told
    ensures { result ≡ told_of status }
{
    match status {
        Ok(()) => Told {
            number: 0,
            line: 0,
            field: 0,
        },
        Err(stop) => Told {
            number: stop.number,
            line: stop.line,
            field: stop.field,
        },
    }
}

#[tactic(auto, unfolding(crate::specs::Conditions::verdict_of))]
pub fn verdict_of(status: Status) -> Verdict
    ensures { result ≡ verdict_of status }
{
    status.map_err(|stop| Refusal(stop.number))
}

// How many receptors a deck of each sort may have.
pub fn max_receptors(sort: Sort) -> usize
    ensures { result ≡ max_receptors sort }
{
    match sort {
        Sort::Ordinary => MAX_RECEPTORS,
        Sort::Composite => MAX_STAGES,
    }
}
