//! The equations of document 01 as formulas, with the names of pathways and effects and the values that they are worked from. Their
//! definitions and laws are in specs/ and proofs/; the crates above work them.
#![tactic(auto)]

ghost use Rattle.std.specs.Prelude.{◌≡◌};
ghost use Rattle.pair.specs.Calls.{answer, is};
ghost use Rattle.equations.specs.Readings.{value_in};

use pair::{Answer, Pair};
use sizes::SLOTS;

// The six pathways, in document 01's order.
#[derive(Clone, Copy, PartialEq, Eq)]
pub enum Pathway {
    Air,
    SoilSummer,
    SoilWinter,
    Skin,
    AboveGround,
    BelowGround,
}

// What a line tells: the hazard quotient, or the cancer risk.
#[derive(Clone, Copy, PartialEq, Eq)]
pub enum Effect {
    Hazard,
    Cancer,
}

// How long a receptor is exposed, T2, against the deposition, tD: T2 ≤ tD, or T2 above tD.
#[derive(Clone, Copy, PartialEq, Eq)]
pub enum Stay {
    Within,
    Beyond,
}

// The values of a record's slots as pairs, by the places of the crate `slots`.
#[derive(Clone, Copy)]
pub struct Values {
    pub list: [Pair; SLOTS],
}

impl Values {
    // The value at a place; a place that no slot has reads as 1, as a missing reference value does.
    pub fn value(self, place: usize) -> Pair
        ensures { result ≡ value_in self place }
    {
        if SLOTS <= place {
            return Pair::ONE;
        }
        self.list[place]
    }

    // The same, to begin a chain of calls.
    pub fn at(self, place: usize) -> Answer
        ensures { answer result ≡ is (value_in self place) }
    {
        self.value(place).answer()
    }
}
