//! Pathway 1 by the guidance of 2009 (document 02, P6): the concentration in air over a share of time, which is no dose.
ghost use Rattle.std.specs.Prelude.{◌≡◌, Some};
ghost use Rattle.pair.specs.Calls.{answer, is};
ghost use Rattle.equations.specs.declared.Effect.TheVariants.{Hazard, Cancer};
ghost use Rattle.equations.specs.Page.{AT, time_in_air};
ghost use Rattle.pathway.specs.Inner.{share_with, is_timed, timed_figures};
ghost use Rattle.pathway.specs.Lines.{worked_of, figured, rfc_value, unit_risk_value, air_exposure_of, air_figure_of, shares_of_time, in_air_of, breathed, breathed_by, air_figures_with};

use crate::given::is_inhaled;
use crate::{AirExposure, Breathing, Figure, InAir, Line, References, Rfc, TimeShare, UnitRisk};
use equations::{Effect, Pathway, Values};
use media::AirConc;
use pair::{Answer, Chain, Pair, Refused};
use slots::{ATC, ED, EF_INH, ET_INH, Guidance};

// AT.
pub(crate) fn averaging_time(r: Values, effect: Effect) -> Answer
    ensures { answer result ≡ worked_of r (AT effect) }
{
    match effect {
        Effect::Hazard => Pair::entry(365, 0).times(r.at(ED)),
        Effect::Cancer => r.at(ATC),
    }
}

// ETinh × EFinh × ED.
fn time_in_air(r: Values) -> Answer
    ensures { answer result ≡ worked_of r time_in_air }
{
    r.at(ET_INH).times(r.at(EF_INH)).times(r.at(ED))
}

// The share of time spent in the air, from that time: it / AT.
fn share_of_time(spent: Answer, r: Values, effect: Effect) -> Result<TimeShare, Refused>
    ensures { answer result ≡ share_with (answer spent) (worked_of r (AT effect)) }
{
    Ok(TimeShare(spent.over(averaging_time(r, effect))?))
}

// The shares of time of a receptor's lines, the time in the air worked once.
fn in_air_of(receptor: Values) -> InAir
    ensures { shares_of_time result ≡ in_air_of receptor }
{
    let spent = time_in_air(receptor);
    InAir {
        hazard: share_of_time(spent, receptor, Effect::Hazard),
        cancer: share_of_time(spent, receptor, Effect::Cancer),
    }
}

// How a receptor takes the air.
pub(crate) fn breathing_of(guidance: Guidance, receptor: Values) -> Breathing
    ensures { breathed result ≡ breathed_by guidance receptor }
{
    match guidance {
        Guidance::Of2005 => Breathing::Dose,
        Guidance::Of2009 => Breathing::Time(in_air_of(receptor)),
    }
}

// Share of time × the air's concentration.
fn exposed_of(share: Result<TimeShare, Refused>, air: AirConc) -> Result<AirExposure, Refused>
    ensures { answer result ≡ air_exposure_of (answer share) air }
{
    Ok(AirExposure(share?.0.product(air.pair())?))
}

// Quotient = exposure concentration / reference concentration, mg/m³ both.
fn quotient_in_air(exposure: AirExposure, rfc: Rfc) -> Figure
    ensures { answer result ≡ air_figure_of Hazard (is exposure) (Some rfc.0) }
{
    Ok(Some(exposure.0.quotient(rfc.0)?))
}

// Risk = exposure concentration × 1000 × unit risk: mg/m³, µg/mg, and per µg/m³.
fn risk_in_air(exposure: AirExposure, unit_risk: UnitRisk) -> Figure
    ensures { answer result ≡ air_figure_of Cancer (is exposure) (Some unit_risk.0) }
{
    let micrograms = exposure.0.answer().times(Pair::entry(1000, 0));
    Ok(Some(micrograms.times(unit_risk.0.answer())?))
}

// No figure without the reference value, whatever the share of time. Two functions, as for doses: the formulas and types differ.
fn hazard_in_air(share: Result<TimeShare, Refused>, air: AirConc, rfc: Option<Rfc>) -> Figure
    ensures { answer result ≡ air_figure_of Hazard (air_exposure_of (answer share) air) (rfc_value rfc) }
{
    let Some(least) = rfc else {
        return Ok(None);
    };
    quotient_in_air(exposed_of(share, air)?, least)
}

fn cancer_in_air(
    share: Result<TimeShare, Refused>,
    air: AirConc,
    unit_risk: Option<UnitRisk>,
) -> Figure
    ensures { answer result ≡ air_figure_of Cancer (air_exposure_of (answer share) air) (unit_risk_value unit_risk) }
{
    let Some(slope) = unit_risk else {
        return Ok(None);
    };
    risk_in_air(exposed_of(share, air)?, slope)
}

// Both figures, from the receptor's shares of time.
fn air_figures_with(in_air: InAir, air: AirConc, references: References) -> Line
    ensures { figured result ≡ air_figures_with (shares_of_time in_air) air references }
{
    let noncancer = in_air.hazard;
    let lifetime = in_air.cancer;
    let rfd_i = references.rfd_i;
    let csf_i = references.csf_i;
    Line {
        hazard: hazard_in_air(noncancer, air, rfd_i.map(Rfc)),
        cancer: cancer_in_air(lifetime, air, csf_i.map(UnitRisk)),
    }
}

// Whether a pathway is taken over a share of time.
pub(crate) fn is_timed(breathing: Breathing, pathway: Pathway) -> bool
    ensures { result ≡ is_timed (breathed breathing) pathway }
{
    match breathing {
        Breathing::Dose => false,
        Breathing::Time(_) => is_inhaled(pathway),
    }
}

// The figures of such a pathway.
pub(crate) fn timed_figures(breathing: Breathing, air: AirConc, references: References) -> Line
    ensures { figured result ≡ timed_figures (breathed breathing) air references }
{
    let Breathing::Time(in_air) = breathing else {
        return Line {
            hazard: Ok(None),
            cancer: Ok(None),
        };
    };
    air_figures_with(in_air, air, references)
}
