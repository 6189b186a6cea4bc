//! What stands above and below the bar of an intake factor (document 01, "Six pathways").
ghost use Rattle.std.specs.Prelude.{◌≡◌, negsuc};
ghost use Rattle.pair.specs.Calls.{answer, is, after, product, entry};
ghost use Rattle.equations.specs.Page as page;
ghost use Rattle.equations.specs.declared.Pathway.TheVariants.{Air, SoilSummer, SoilWinter, Skin, AboveGround};
ghost use Rattle.equations.specs.Ahead.{ahead};
ghost use Rattle.pathway.specs.Inner.{each, Takes};
ghost use Rattle.pathway.specs.Lines.{worked_of, absorbed_of, shared, begun_in, exposure_from};

use crate::air::averaging_time;
use crate::{Absorbed, Habits};
use equations::{Effect, Pathway, Values};
use pair::{Answer, Chain, Pair, Step};
use slots::{
    AF_DERM, AF_INH, AF_ORAL, BW, ED, EF_INH, EF_P, EF_S, EF_W, ET_DERM, ET_INH, ET_SOIL, F_AG,
    F_BG, FR_SNOW, IR_AG, IR_BG, IR_INH, IR_SOIL, SA_B, SA_H, SAF_B, SAF_H, WP,
};

// 0.000001, kg/mg.
fn per_million() -> Answer
    ensures { answer result ≡ entry 1 (negsuc 5) }
{
    Pair::entry(1, -6)
}

// B = BW × AT.
pub(crate) fn base_of(r: Values, effect: Effect) -> Answer
    ensures { answer result ≡ worked_of r (page.B effect) }
{
    r.at(BW).times(averaging_time(r, effect))
}

// The shares absorbed of a chemical.
pub fn absorbed_of(c: Values) -> Absorbed
    ensures { result ≡ absorbed_of c }
{
    Absorbed {
        inhaled: c.value(AF_INH),
        oral: c.value(AF_ORAL),
        dermal: c.value(AF_DERM),
    }
}

// The share absorbed on a pathway.
pub(crate) fn share_of(pathway: Pathway, absorbed: Absorbed) -> Pair
    ensures { Takes pathway absorbed result }
{
    match pathway {
        Pathway::Air => absorbed.inhaled,
        Pathway::SoilSummer => absorbed.oral,
        Pathway::SoilWinter => absorbed.oral,
        Pathway::Skin => absorbed.dermal,
        Pathway::AboveGround => absorbed.oral,
        Pathway::BelowGround => absorbed.oral,
    }
}

// Soil held on the skin.
fn held(r: Values) -> Answer
    ensures { answer result ≡ worked_of r (ahead (page.exposure Skin)) }
{
    let body = r.at(SA_B).times(r.at(SAF_B));
    let hands = r.at(SA_H).times(r.at(SAF_H));
    body.plus(hands)
}

// What an exposure begins with, before the chemical's letter.
pub(crate) fn begun_of(r: Values, pathway: Pathway) -> Answer
    ensures { answer result ≡ worked_of r (ahead (page.exposure pathway)) }
{
    match pathway {
        Pathway::Air => r.at(IR_INH),
        Pathway::SoilSummer => r.at(IR_SOIL),
        Pathway::SoilWinter => r.at(IR_SOIL),
        Pathway::Skin => held(r),
        Pathway::AboveGround => r.at(IR_AG).times(r.at(F_AG)).times(r.at(WP)),
        Pathway::BelowGround => r.at(IR_BG).times(r.at(F_BG)).times(r.at(WP)),
    }
}

// The same, worked for the receptor's lines together where it is the same for each chemical.
pub(crate) fn begun_in(habits: Habits, receptor: Values, pathway: Pathway) -> Answer
    ensures { answer result ≡ begun_in (shared habits) receptor pathway }
{
    match pathway {
        Pathway::Air => begun_of(receptor, Pathway::Air),
        Pathway::SoilSummer => begun_of(receptor, Pathway::SoilSummer),
        Pathway::SoilWinter => begun_of(receptor, Pathway::SoilWinter),
        Pathway::Skin => habits.skin,
        Pathway::AboveGround => habits.above_ground,
        Pathway::BelowGround => habits.below_ground,
    }
}

// What an exposure is worked from: the site, the receptor, the share that is absorbed, and what it begins with.
#[derive(Clone, Copy)]
pub(crate) struct Intake<'a> {
    pub(crate) site: &'a Values,
    pub(crate) receptor: &'a Values,
    pub(crate) share: Pair,
    pub(crate) begun: Answer,
}

impl Intake<'_> {
    fn times_three(&self, a: Pair, b: Pair) -> Answer
        ensures { answer result ≡ after product (after product (after product (answer self.now.begun) (is self.now.share)) (is a)) (is b) }
    {
        self.begun
            .through(Step::Times, self.share, Step::Times, a, Step::Times, b)
    }

    fn air(&self) -> Answer
        ensures { answer result ≡ exposure_from (answer self.now.begun) Air self.now.site.now (each self.now.share) self.now.receptor.now }
    {
        let r = self.receptor;
        let inhaled = self.times_three(r.value(ET_INH), r.value(EF_INH));
        inhaled.times(r.at(ED))
    }

    fn soil_summer(&self) -> Answer
        ensures { answer result ≡ exposure_from (answer self.now.begun) SoilSummer self.now.site.now (each self.now.share) self.now.receptor.now }
    {
        let r = self.receptor;
        let eaten = self.times_three(r.value(ET_SOIL), r.value(EF_S));
        eaten.times(r.at(ED)).times(per_million())
    }

    fn soil_winter(&self) -> Answer
        ensures { answer result ≡ exposure_from (answer self.now.begun) SoilWinter self.now.site.now (each self.now.share) self.now.receptor.now }
    {
        let r = self.receptor;
        let eaten = self.times_three(self.site.value(FR_SNOW), r.value(ET_SOIL));
        eaten.times(r.at(EF_W)).times(r.at(ED)).times(per_million())
    }

    fn skin(&self) -> Answer
        ensures { answer result ≡ exposure_from (answer self.now.begun) Skin self.now.site.now (each self.now.share) self.now.receptor.now }
    {
        let r = self.receptor;
        let taken = self.times_three(r.value(ET_DERM), r.value(EF_S));
        taken.times(r.at(ED)).times(per_million())
    }

    fn produce(&self) -> Answer
        ensures { answer result ≡ exposure_from (answer self.now.begun) AboveGround self.now.site.now (each self.now.share) self.now.receptor.now }
    {
        self.times_three(self.receptor.value(EF_P), self.receptor.value(ED))
    }

    // The exposure of a pathway.
    pub(crate) fn exposure(&self, pathway: Pathway) -> Answer
        ensures { answer result ≡ exposure_from (answer self.now.begun) pathway self.now.site.now (each self.now.share) self.now.receptor.now }
    {
        match pathway {
            Pathway::Air => self.air(),
            Pathway::SoilSummer => self.soil_summer(),
            Pathway::SoilWinter => self.soil_winter(),
            Pathway::Skin => self.skin(),
            Pathway::AboveGround => self.produce(),
            Pathway::BelowGround => self.produce(),
        }
    }
}
