// A scenario in memory, whatever its values are.
ghost use Rattle.std.specs.Prelude.{◌≡◌, ◌||◌, ltb, get_or};
ghost use Rattle.sizes.specs.Sizes.{max_chemicals};
ghost use Rattle.cases.specs.Cases.{no_record, value_at};
ghost use Rattle.cases.specs.Conditions.{first, verdict_of};
ghost use Rattle.lists.specs.Lists.{any_of};
ghost use Rattle.slots.specs.Slots.{place_of};
ghost use Rattle.times.specs.Times as years;
ghost use Rattle.scenario.specs.Scenario.{ids_of, scenario_conditions, is_refused, told, is_unpaired, unpaired, unpaired_in};

use crate::exposure::timed;
use crate::values::entered;
use crate::{Receptors, Scenario};
use cases::{Chemicals, Ids, Record, Value, Verdict, memory_verdict};
use sizes::{MAX_CHEMICALS, SLOTS};
use slots::{Sort, TD};

impl Receptors {
    fn ids(&self) -> Ids
        ensures { result ≡ ids_of self.now }
    {
        let [a, b, c, d] = self.list;
        Ids {
            count: self.count,
            list: [a.id, b.id, c.id, d.id, 0, 0, 0, 0],
        }
    }
}

fn is_unpaired(v: Value) -> bool
    ensures { result ≡ is_unpaired v }
{
    let Value::Given {
        digits: _,
        power: _,
    } = v
    else {
        return false;
    };
    let Ok(_) = entered(v) else {
        return true;
    };
    false
}

fn unpaired(r: &Record) -> bool
    ensures { result ≡ unpaired r.now }
{
    r.slots.iter().any(|v| is_unpaired(*v))
}

fn untimed(site: &Record) -> bool
    ensures { result ≡ is_refused (told years.printed (value_at site.now (place_of "tD"))) }
{
    let Ok(_) = timed(site.slots[TD]) else {
        return true;
    };
    false
}

// Whether a chemical has a value without a pair; and of more chemicals than there is room for.
fn chemicals_unpaired(chemicals: &Chemicals) -> bool
    ensures { result ≡ (ltb max_chemicals chemicals.now.count || any_of (λ i. unpaired (get_or chemicals.now.records i no_record)) chemicals.now.count) }
{
    let Some(records) = chemicals.records.get(..chemicals.count) else {
        return true;
    };
    records.iter().any(unpaired)
}

impl Scenario {
    // The first condition of its counts, ids, and slots that are given, by its number: 21, 22, 32, 33.
    pub fn verdict(&self) -> Verdict
        ensures { result ≡ verdict_of (first (scenario_conditions self.now)) }
    {
        memory_verdict(
            Sort::Ordinary,
            &self.site,
            &self.chemicals,
            &self.receptors.ids(),
        )
    }

    // Whether some value of the site or of the chemicals has no pair, or tD is no time; and of more chemicals than there is room for.
    pub fn is_unpaired(&self) -> bool
        ensures { result ≡ unpaired_in self.now.site self.now.chemicals }
    {
        untimed(&self.site) || unpaired(&self.site) || chemicals_unpaired(&self.chemicals)
    }
}
