//! Factors, doses and figures, each a quantity of its own.
ghost use Rattle.std.specs.Prelude.{◌≡◌, Some};
ghost use Rattle.equations.specs.declared.Effect.TheVariants.{Hazard, Cancer};
ghost use Rattle.pair.specs.declared.Pair.{Pair};
ghost use Rattle.pair.specs.Calls.{is, answer, mapped, product};
ghost use Rattle.pathway.specs.Lines.{rfd_value, csf_value, factor_with, breathed_in, eaten, medium_for, dose_for, figure_of};

use crate::{Csf, Dose, Factor, Figure, Medium, Rfd};
use equations::Pathway;
use media::{AirConc, Conc, Media};
use pair::{Answer, Chain, Refused};

// Air, as a dose by the guidance of 2005 takes it.
fn breathed_in(air: AirConc) -> Medium
    ensures { result ≡ breathed_in air }
{
    Medium(air.pair())
}

// Soil or produce.
fn eaten(medium: Conc) -> Medium
    ensures { result ≡ eaten medium }
{
    Medium(medium.pair())
}

fn medium_of(pathway: Pathway, media: Media) -> Medium
    ensures { result ≡ medium_for pathway media }
{
    match pathway {
        Pathway::Air => breathed_in(media.air),
        Pathway::SoilSummer => eaten(media.soil),
        Pathway::SoilWinter => eaten(media.soil),
        Pathway::Skin => eaten(media.soil),
        Pathway::AboveGround => eaten(media.above_ground),
        Pathway::BelowGround => eaten(media.below_ground),
    }
}

// A dose = factor × concentration.
fn dose_of(factor: Factor, medium: Medium) -> Result<Dose, Refused>
    ensures { answer result ≡ mapped (λ (q : Pair). record { 0 = q }) (product factor.0 medium.0) }
{
    Ok(Dose(factor.0.product(medium.0)?))
}

// A pathway's dose, from exposure / B.
fn dose_from(
    pathway: Pathway,
    exposure: Answer,
    base: Answer,
    media: Media,
) -> Result<Dose, Refused>
    ensures { answer result ≡ dose_for pathway (factor_with (answer exposure) (answer base)) media }
{
    let factor = Factor(exposure.over(base)?);
    dose_of(factor, medium_of(pathway, media))
}

// Quotient = dose / RfD.
fn quotient_of(dose: Dose, rfd: Rfd) -> Figure
    ensures { answer result ≡ figure_of Hazard (is dose) (Some rfd.0) }
{
    Ok(Some(dose.0.quotient(rfd.0)?))
}

// Risk = dose × CSF.
fn risk_of(dose: Dose, csf: Csf) -> Figure
    ensures { answer result ≡ figure_of Cancer (is dose) (Some csf.0) }
{
    Ok(Some(dose.0.product(csf.0)?))
}

// The quotient of a pathway's dose; no figure without the reference value, whatever the dose. It and the risk have a formula and types each, and
// one function of both would be longer than the two.
pub(crate) fn hazard_from(
    pathway: Pathway,
    exposure: Answer,
    base: Answer,
    media: Media,
    rfd: Option<Rfd>,
) -> Figure
    ensures { answer result ≡ figure_of Hazard (dose_for pathway (factor_with (answer exposure) (answer base)) media) (rfd_value rfd) }
{
    let Some(least) = rfd else {
        return Ok(None);
    };
    quotient_of(dose_from(pathway, exposure, base, media)?, least)
}

// The risk, likewise.
pub(crate) fn cancer_from(
    pathway: Pathway,
    exposure: Answer,
    base: Answer,
    media: Media,
    csf: Option<Csf>,
) -> Figure
    ensures { answer result ≡ figure_of Cancer (dose_for pathway (factor_with (answer exposure) (answer base)) media) (csf_value csf) }
{
    let Some(slope) = csf else {
        return Ok(None);
    };
    risk_of(dose_from(pathway, exposure, base, media)?, slope)
}
