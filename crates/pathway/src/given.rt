//! Reference values, made of what a chemical's slots hold: the oral ones at once, the inhaled ones by the year's guidance (document 02, P6).
ghost use Rattle.std.specs.Prelude.{◌≡◌, true, false};
ghost use Rattle.equations.specs.Page.{by_route};
ghost use Rattle.pathway.specs.Lines.{as_rfd, as_csf, references_from};

use crate::{Csf, References, Rfd};
use equations::Pathway;
use pair::Pair;

// A chemical's reference values, from its four slots.
#[tactic(auto, unfolding(crate::specs::Lines::references_from, crate::specs::Lines::as_rfd, crate::specs::Lines::as_csf))]
pub fn references_from(
    rfd_o: Option<Pair>,
    rfd_i: Option<Pair>,
    csf_o: Option<Pair>,
    csf_i: Option<Pair>,
) -> References
    ensures { result ≡ references_from rfd_o rfd_i csf_o csf_i }
{
    References {
        rfd_o: rfd_o.map(Rfd),
        rfd_i,
        csf_o: csf_o.map(Csf),
        csf_i,
    }
}

// Whether a pathway takes the inhaled reference values.
pub(crate) fn is_inhaled(pathway: Pathway) -> bool
    ensures { result ≡ by_route pathway true false }
{
    matches!(pathway, Pathway::Air)
}

// What a dose of a pathway is set against.
pub(crate) fn rfd_of(pathway: Pathway, references: References) -> Option<Rfd>
    ensures { result ≡ by_route pathway (as_rfd references.rfd_i) references.rfd_o }
{
    if is_inhaled(pathway) {
        return references.rfd_i.map(Rfd);
    }
    references.rfd_o
}

pub(crate) fn csf_of(pathway: Pathway, references: References) -> Option<Csf>
    ensures { result ≡ by_route pathway (as_csf references.csf_i) references.csf_o }
{
    if is_inhaled(pathway) {
        return references.csf_i.map(Csf);
    }
    references.csf_o
}
