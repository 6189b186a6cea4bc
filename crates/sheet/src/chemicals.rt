// Each chemical worked once: what its lines take, for every receptor.
ghost use Rattle.std.specs.Prelude.{◌≡◌, ◌≤◌, cond, get_or, replicate, Some, None};
ghost use Rattle.sizes.specs.Sizes.{max_chemicals, most_receptors};
ghost use Rattle.pair.specs.Calls.{answer};
ghost use Rattle.scenario.specs.Scenario.{no_receptor, is_refused};
ghost use Rattle.lists.specs.Lists.{any_of};
ghost use Rattle.sheet.specs.Counts.{mean_with};
ghost use Rattle.sheet.specs.Inner.{means_of, no_source, source_of, stops_with, SourcesTold};

use crate::Source;
use crate::references::references_of;
use cases::{Chemicals, Record, lacks};
use equations::Values;
use media::{Ground, Media, ground_of, mean_concentrations};
use pair::{Pair, Refused};
use pathway::{Absorbed, absorbed_of, references_from};
use scenario::{Receptor, Receptors, particles_of, values_of};
use sizes::{MAX_CHEMICALS, MAX_RECEPTORS};
use slots::{Owner, Sort, T2};

pub(crate) fn no_source() -> Source
    ensures { result ≡ no_source }
{
    let references = references_from(None, None, None, None);
    Source {
        absorbed: Absorbed {
            inhaled: Pair::ONE,
            oral: Pair::ONE,
            dermal: Pair::ONE,
        },
        media: Media::none(),
        means: [Media::none(); MAX_RECEPTORS],
        references,
    }
}

fn mean_with(
    site: Values,
    chemical: Values,
    receptor: Receptor,
    the_ground: Ground,
) -> Result<Media, Refused>
    ensures { answer result ≡ mean_with site chemical receptor the_ground }
{
    let stay = receptor.stay;
    let later = receptor.later;
    let values = receptor.values;
    mean_concentrations(the_ground, site, chemical, stay, values.value(T2), later)
}

// The media of the receptors' cancer, or none where those of one are refused. The receptors are a caller's, so that their count is required here
// and not a type's.
fn means_of(
    site: Values,
    chemical: Values,
    receptors: &Receptors,
    the_ground: Ground,
) -> Option<[Media; MAX_RECEPTORS]>
    requires { receptors.now.count ≤ most_receptors }
    ensures { result ≡ cond (any_of (λ j. is_refused (mean_with site chemical (get_or receptors.now.list j no_receptor) the_ground)) receptors.now.count) None (Some (means_of site chemical receptors.now the_ground)) }
{
    let mut list = [Media::none(); MAX_RECEPTORS];
    for j in 0..receptors.count {
        let Ok(m) = mean_with(site, chemical, receptors.list[j], the_ground) else {
            return None;
        };
        list[j] = m;
    }
    Some(list)
}

// What a chemical's lines take, or nothing where a value that it needs is missing or its media are refused.
fn source_of(site: Values, chemical: Record, receptors: &Receptors) -> Option<Source>
    requires { receptors.now.count ≤ most_receptors }
    ensures { result ≡ cond (stops_with site receptors.now chemical) None (Some (source_of site receptors.now chemical)) }
{
    if lacks(Sort::Ordinary, Owner::Chemical, &chemical) {
        return None;
    }
    let values = values_of(chemical);
    let Ok(the_ground) = ground_of(site, values, particles_of(chemical)) else {
        return None;
    };
    let means = means_of(site, values, receptors, the_ground)?;
    Some(Source {
        absorbed: absorbed_of(values),
        media: the_ground.highest,
        means,
        references: references_of(chemical),
    })
}

// The source of each chemical into the list, or the place, from 1, of the first whose media are refused. No chemical of a deck is.
pub(crate) fn sources_of(
    site: Values,
    chemicals: &Chemicals,
    receptors: &Receptors,
    list: &mut [Source; MAX_CHEMICALS],
) -> Result<(), usize>
    requires { (chemicals.now.count ≤ max_chemicals) × (receptors.now.count ≤ most_receptors) × (list.old ≡ replicate max_chemicals no_source) }
    ensures { SourcesTold site receptors.now chemicals.now list.new result }
{
    for i in 0..chemicals.count {
        list[i] = source_of(site, chemicals.records[i], receptors).ok_or(i + 1)?;
    }
    Ok(())
}
