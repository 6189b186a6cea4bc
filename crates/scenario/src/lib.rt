//! A scenario: what a sheet is worked from. The values of a record's slots as pairs, the length of an exposure set against the deposition
//! (document 02, P4), and the receptors of an ordinary case.
#![tactic(auto)]

mod exposure;
mod memory;
mod ordinary;
mod values;

use cases::{Chemicals, Record};
use equations::{Stay, Values};
pub use exposure::{deposition_of, or_no_time, receptor_with, time_given};
pub use ordinary::entered_from;
use pair::Pair;
use sizes::MAX_RECEPTORS;
use slots::Guidance;
pub use values::{
    has_no_guidance, no_pair, no_values, or_no_pair, pair_of, particles_of, site_of, values_of,
};

// A receptor as the equations take it: its id, the values of its slots as pairs, and its exposure T2 against the deposition tD, with
// T2 − tD where it is above 0. Whether they were printed or made of life stages, nothing after this asks.
#[derive(Clone, Copy)]
pub struct Receptor {
    pub id: u32,
    pub values: Values,
    pub stay: Stay,
    pub later: Pair,
}

// The first count receptors of the list, in deck order: a fixed list, since nothing here has a heap.
#[derive(Clone, Copy)]
pub struct Receptors {
    pub count: usize,
    pub list: [Receptor; MAX_RECEPTORS],
}

// What a sheet is worked from: a site and chemicals as given, and receptors made of pairs.
#[derive(Clone, Copy)]
pub struct Scenario {
    pub site: Record,
    pub chemicals: Chemicals,
    pub receptors: Receptors,
}

// A site as the lines take it: the guidance that its year names, and its values.
#[derive(Clone, Copy)]
pub struct Site {
    pub guidance: Guidance,
    pub values: Values,
}
