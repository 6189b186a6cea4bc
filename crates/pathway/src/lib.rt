//! The six pathways (document 01): from a receptor and a medium to intake factors, doses, hazard quotients and cancer risks.
#![tactic(auto)]

mod air;
mod doses;
mod exposure;
mod given;

ghost use Rattle.std.specs.Prelude.{◌≡◌};
ghost use Rattle.pathway.specs.Lines as specs;

use crate::air::{breathing_of, is_timed, timed_figures};
use crate::doses::{cancer_from, hazard_from};
pub use crate::exposure::absorbed_of;
use crate::exposure::{Intake, base_of, begun_in, begun_of, share_of};
pub use crate::given::references_from;
use crate::given::{csf_of, rfd_of};
use equations::{Effect, Pathway, Values};
use media::Media;
use pair::{Answer, Pair, Refused};
use slots::Guidance;

// An intake factor: what of a medium is taken in, per day and kg of body weight. Only this crate makes one, a dose and a reference value.
#[derive(Clone, Copy)]
pub struct Factor(Pair);

// A dose, mg/kg-day.
#[derive(Clone, Copy)]
pub struct Dose(Pair);

// A reference dose, mg/kg-day, and a cancer slope factor, its inverse.
#[derive(Clone, Copy)]
pub struct Rfd(Pair);

#[derive(Clone, Copy)]
pub struct Csf(Pair);

// A chemical's reference values: o oral, i inhaled. What is inhaled goes by doses or by concentrations, as the year's guidance takes the air.
#[derive(Clone, Copy)]
pub struct References {
    rfd_o: Option<Rfd>,
    rfd_i: Option<Pair>,
    csf_o: Option<Csf>,
    csf_i: Option<Pair>,
}

// The concentration of a pathway's own medium, as a factor takes it: of air, or of soil or produce.
#[derive(Clone, Copy)]
pub struct Medium(Pair);

// A hazard quotient or a cancer risk: the pair, none without a reference value, or document 01's 53.
pub type Figure = Result<Option<Pair>, Refused>;

// The two figures of a report line.
#[derive(Clone, Copy)]
pub struct Line {
    pub hazard: Figure,
    pub cancer: Figure,
}

// The shares of a chemical that a body takes up from air, from what is eaten and through the skin.
#[derive(Clone, Copy)]
pub struct Absorbed {
    pub inhaled: Pair,
    pub oral: Pair,
    pub dermal: Pair,
}

// What a receptor's lines share, whatever the chemical: how the air is taken, B of each effect, the soil held on the skin and the produce eaten.
#[derive(Clone, Copy)]
pub struct Habits {
    pub air: Breathing,
    pub hazard: Answer,
    pub cancer: Answer,
    pub skin: Answer,
    pub above_ground: Answer,
    pub below_ground: Answer,
}

// By the guidance of 2009 (document 02, P6) the air is no dose. The share of the averaging time that is spent in it, and the exposure
// concentration, mg/m³: the air's over that share. Only this crate makes one.
#[derive(Clone, Copy)]
pub struct TimeShare(Pair);

#[derive(Clone, Copy)]
pub struct AirExposure(Pair);

// A reference concentration, mg/m³, and a unit risk, per µg/m³: what the slots RfDi and CSFi hold by that guidance.
#[derive(Clone, Copy)]
pub struct Rfc(Pair);

#[derive(Clone, Copy)]
pub struct UnitRisk(Pair);

// The shares of time of a receptor's lines, whatever the chemical.
#[derive(Clone, Copy)]
pub struct InAir {
    pub hazard: Result<TimeShare, Refused>,
    pub cancer: Result<TimeShare, Refused>,
}

// How the air is taken: as a dose, by the guidance of 2005, or by that of 2009 over a share of time.
#[derive(Clone, Copy)]
pub enum Breathing {
    Dose,
    Time(InAir),
}

// What the lines of a receptor share, by the year's guidance.
pub fn habits_of(guidance: Guidance, receptor: Values) -> Habits
    ensures { specs.shared result ≡ specs.habits_of guidance receptor }
{
    Habits {
        air: breathing_of(guidance, receptor),
        hazard: base_of(receptor, Effect::Hazard),
        cancer: base_of(receptor, Effect::Cancer),
        skin: begun_of(receptor, Pathway::Skin),
        above_ground: begun_of(receptor, Pathway::AboveGround),
        below_ground: begun_of(receptor, Pathway::BelowGround),
    }
}

// Both figures of a line, from what the receptor's lines share and as they take the air; where a reference value is missing, no dose is worked.
// What stands above B is worked once for the two. The doses stand here and not in a function of their own: its arguments would be copied once
// more for each line.
pub fn figures_with(
    habits: Habits,
    pathway: Pathway,
    site: Values,
    absorbed: Absorbed,
    receptor: Values,
    highest: Media,
    mean: Media,
    references: References,
) -> Line
    ensures { specs.figured result ≡ specs.figures_with (specs.shared habits) pathway site absorbed receptor highest mean references }
{
    let breathing = habits.air;
    if is_timed(breathing, pathway) {
        let air = highest.air;
        return timed_figures(breathing, air, references);
    }
    let intake = Intake {
        site: &site,
        receptor: &receptor,
        share: share_of(pathway, absorbed),
        begun: begun_in(habits, receptor, pathway),
    };
    let exposure = intake.exposure(pathway);
    let noncancer = habits.hazard;
    let lifetime = habits.cancer;
    Line {
        hazard: hazard_from(
            pathway,
            exposure,
            noncancer,
            highest,
            rfd_of(pathway, references),
        ),
        cancer: cancer_from(
            pathway,
            exposure,
            lifetime,
            mean,
            csf_of(pathway, references),
        ),
    }
}
