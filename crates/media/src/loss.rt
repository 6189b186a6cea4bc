//! Loss from the soil and x (document 01, "Loss and series").
ghost use Rattle.std.specs.Prelude.{◌≡◌};
ghost use Rattle.pair.specs.Calls.{answer, after, quotient, is};
ghost use Rattle.equations.specs.Page.{u, kse, k, x};
ghost use Rattle.media.specs.Media.{of_slots};

use equations::Values;
use pair::{Answer, Chain, Pair};
use slots::{BD, ER, KDS, KSG, KSV, R, RO, SD, TD, THETA, XE, ZS};

// kse, erosion. sorbed is u.
fn erosion(s: Values, c: Values, sorbed: Answer) -> Answer
    requires { answer sorbed ≡ of_slots s c u }
    ensures { answer result ≡ of_slots s c kse }
{
    let lost = Pair::entry(1, -1)
        .times(s.at(XE))
        .times(s.at(SD))
        .times(s.at(ER));
    let layer = s.at(BD).times(s.at(ZS));
    let held = s.at(THETA).plus(sorbed);
    lost.over(layer).times(sorbed).over(held)
}

// ksr and ksl, runoff and leaching: what flows, over the soil's water, over what the soil holds back.
fn washed(flow: Answer, water: Answer, retained: Answer) -> Answer
    ensures { answer result ≡ after quotient (after quotient (answer flow) (answer water)) (answer retained) }
{
    flow.over(water).over(retained)
}

// k, the rates of loss added up.
pub(crate) fn loss_rate(s: Values, c: Values) -> Answer
    ensures { answer result ≡ of_slots s c k }
{
    let theta = s.at(THETA);
    let sorbed = c.at(KDS).times(s.at(BD));
    let water = theta.times(s.at(ZS));
    let retained = Pair::entry(1, 0).plus(sorbed.over(theta));
    c.at(KSG)
        .plus(erosion(s, c, sorbed))
        .plus(washed(s.at(RO), water, retained))
        .plus(washed(s.at(R), water, retained))
        .plus(c.at(KSV))
}

// x = k × tD.
pub fn exponent(site: Values, chemical: Values) -> Answer
    ensures { answer result ≡ of_slots site chemical x }
{
    loss_rate(site, chemical).times(site.at(TD))
}
