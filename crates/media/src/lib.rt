//! Loss, series and media (document 01): from a site and a chemical to the concentrations in air, soil and produce.
#![tactic(auto)]

mod compartments;
mod growth;
mod loss;
mod terms;

ghost use Rattle.std.specs.Prelude.{◌≡◌};
ghost use Rattle.pair.specs.Calls as calls;
ghost use Rattle.equations.specs.Series.{phi, psi, pair_series};
ghost use Rattle.media.specs.Media as specs;

use crate::compartments::beyond;
pub use crate::compartments::{concentrations, ground_of};
pub use crate::loss::exponent;
use crate::terms::{Phi, Psi, sum_of};
use equations::{Stay, Values};
use pair::{Answer, Pair, Refused};

// A concentration in soil or produce, mg/kg. Only this crate makes one, and one in air.
#[derive(Clone, Copy)]
pub struct Conc(Pair);

// A concentration in air, mg/m³: no other may be breathed.
#[derive(Clone, Copy)]
pub struct AirConc(Pair);

// The pair alone: the one way out of the quantity, for those who answer for its unit themselves.
impl Conc {
    pub fn pair(self) -> Pair
        ensures { result ≡ self.0 }
    {
        self.0
    }
}

impl AirConc {
    pub fn pair(self) -> Pair
        ensures { result ≡ self.0 }
    {
        self.0
    }
}

// What a chemical leaves in the media of the pathways.
#[derive(Clone, Copy)]
pub struct Media {
    pub air: AirConc,
    pub soil: Conc,
    pub above_ground: Conc,
    pub below_ground: Conc,
}

impl Media {
    // Where no chemical was worked: 0 in each.
    pub fn none() -> Media
        ensures { result ≡ specs.no_media }
    {
        Media {
            air: AirConc(Pair::ZERO),
            soil: Conc(Pair::ZERO),
            above_ground: Conc(Pair::ZERO),
            below_ground: Conc(Pair::ZERO),
        }
    }
}

// What a chemical's soil is worked from, whatever the receptor: k, what the mean over an exposure beyond the deposition begins with,
// D × tD × tD × h, and the media of the highest year and of an exposure within the deposition.
#[derive(Clone, Copy)]
pub struct Ground {
    pub loss: Pair,
    pub gathered: Pair,
    pub highest: Media,
    pub within: Media,
}

// φ at x.
pub fn series(x: Pair) -> Answer
    ensures { calls.answer result ≡ pair_series phi (calls.is x) }
{
    sum_of::<Phi>(x)
}

// ψ at x.
pub fn mean_series(x: Pair) -> Answer
    ensures { calls.answer result ≡ pair_series psi (calls.is x) }
{
    sum_of::<Psi>(x)
}

// The media of a receptor's cancer: its soil is the mean over the exposure, T2. later is T2 − tD where T2 is above tD. Three arguments: the
// ground is a chemical's, and the two times a receptor's.
pub fn mean_concentrations(
    the_ground: Ground,
    site: Values,
    chemical: Values,
    stay: Stay,
    exposure: Pair,
    later: Pair,
) -> Result<Media, Refused>
    ensures { calls.answer result ≡ specs.mean_media the_ground site chemical stay exposure later }
{
    let within = the_ground.within;
    match stay {
        Stay::Within => Ok(within),
        Stay::Beyond => beyond(the_ground, site, chemical, exposure, later),
    }
}
