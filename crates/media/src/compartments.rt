//! Air, deposition, soil and produce (document 01, "Media").
ghost use Rattle.std.specs.Prelude.{◌≡◌};
ghost use Rattle.pair.specs.Calls.{answer};
ghost use Rattle.equations.specs.declared.Stay.TheVariants.{Beyond};
ghost use Rattle.equations.specs.Page as page;
ghost use Rattle.equations.specs.Page.{D};
ghost use Rattle.media.specs.Media.{media_inputs, of_media, four, media_of, ground_from, ground_of, grown_in, soil_beyond, mean_media};

use crate::growth::{g_at, growth_at};
use crate::loss::{exponent, loss_rate};
use crate::{AirConc, Conc, Ground, Media};
use equations::Values;
use pair::{Answer, Chain, Pair, Refused};
use slots::{BD, BR, CYP, CYV, DYDP, DYDV, DYWP, DYWV, FV, HG_A, HG_D, KDS, Q, RCF, TD, VG, ZS};

// A. particles is 1 − Fv.
fn air(s: Values, c: Values, particles: Pair) -> Answer
    ensures { answer result ≡ of_media s c particles page.A }
{
    let vapour = c.at(FV).times(c.at(CYV));
    let both = vapour.plus(particles.answer().times(c.at(CYP)));
    c.at(Q)
        .times(c.at(HG_A))
        .times(both)
        .over(Pair::entry(1000, 0))
}

// D. particles is 1 − Fv.
fn deposition(s: Values, c: Values, particles: Pair) -> Answer
    ensures { answer result ≡ of_media s c particles D }
{
    let vapour = c.at(FV).times(c.at(DYDV).plus(c.at(DYWV)));
    let fallen = c.at(DYDP).plus(c.at(DYWP));
    let both = vapour.plus(fallen.times(particles.answer()));
    let layer = s.at(ZS).times(s.at(BD));
    Pair::entry(100, 0)
        .times(c.at(HG_D))
        .times(c.at(Q))
        .over(layer)
        .times(both)
}

// The four concentrations, or the refusal among them.
#[tactic(auto, unfolding(pair::specs::Calls::answer, crate::specs::Media::four))]
fn all(air: Answer, soil: Answer, above: Answer, below: Answer) -> Result<Media, Refused>
    ensures { answer result ≡ four (answer air) (answer soil) (answer above) (answer below) }
{
    Ok(Media {
        air: AirConc(air?),
        soil: Conc(soil?),
        above_ground: Conc(above?),
        below_ground: Conc(below?),
    })
}

// The media with this soil: produce grows in it.
fn grown(s: Values, c: Values, air: Answer, soil: Answer) -> Result<Media, Refused>
    ensures { answer result ≡ grown_in s c (answer air) (answer soil) }
{
    let leaves = soil.times(c.at(BR));
    let roots = soil.times(c.at(RCF)).times(s.at(VG)).over(c.at(KDS));
    all(air, soil, leaves, roots)
}

// The concentrations that a chemical leaves in the media, in the highest year. particles is 1 − Fv, from the printed digits.
pub fn concentrations(site: Values, chemical: Values, particles: Pair) -> Result<Media, Refused>
    ensures { answer result ≡ media_of (media_inputs site chemical particles) }
{
    let g = g_at(exponent(site, chemical));
    let laid = deposition(site, chemical, particles).times(site.at(TD));
    let breathed = air(site, chemical, particles);
    grown(site, chemical, breathed, laid.times(g))
}

// The ground, or the refusal among its parts.
#[tactic(auto, unfolding(pair::specs::Calls::answer, crate::specs::Media::ground_from))]
fn ground_from(
    loss: Answer,
    gathered: Answer,
    highest: Result<Media, Refused>,
    within: Result<Media, Refused>,
) -> Result<Ground, Refused>
    ensures { answer result ≡ ground_from (answer loss) (answer gathered) (answer highest) (answer within) }
{
    Ok(Ground {
        loss: loss?,
        gathered: gathered?,
        highest: highest?,
        within: within?,
    })
}

// The ground that a chemical leaves, for every receptor. particles is 1 − Fv, from the printed digits. k is worked once, for x and for all of them.
pub fn ground_of(site: Values, chemical: Values, particles: Pair) -> Result<Ground, Refused>
    ensures { answer result ≡ ground_of (media_inputs site chemical particles) }
{
    let loss = loss_rate(site, chemical);
    let growth = growth_at(loss.times(site.at(TD)));
    let g = growth.g;
    let h = growth.h;
    let laid = deposition(site, chemical, particles).times(site.at(TD));
    let breathed = air(site, chemical, particles);
    let highest = grown(site, chemical, breathed, laid.times(g));
    let within = grown(site, chemical, breathed, laid.times(h));
    ground_from(loss, laid.times(site.at(TD)).times(h), highest, within)
}

// The mean over an exposure that goes beyond the deposition.
fn soil_beyond(the_ground: Ground, exposure: Pair, later: Pair) -> Answer
    ensures { answer result ≡ soil_beyond the_ground exposure later }
{
    let g = g_at(the_ground.loss.product(later));
    let highest = the_ground.highest.soil.pair();
    let left = highest.product(later).times(g);
    let gathered = the_ground.gathered.answer();
    gathered.plus(left).over(exposure.answer())
}

pub(crate) fn beyond(
    the_ground: Ground,
    s: Values,
    c: Values,
    exposure: Pair,
    later: Pair,
) -> Result<Media, Refused>
    ensures { answer result ≡ mean_media the_ground s c Beyond exposure later }
{
    let breathed = the_ground.highest.air.pair();
    let soil = soil_beyond(the_ground, exposure, later);
    grown(s, c, breathed.answer(), soil)
}
