// One receptor made of life stages.
ghost use Rattle.std.specs.Prelude.{◌≡◌, ◌-◌, ◌<◌, ◌≤◌};
ghost use Rattle.sizes.specs.Sizes.{most_stages, slots_per_record};
ghost use Rattle.pair.specs.Calls.{answer};
ghost use Rattle.times.specs.Times.{together};
ghost use Rattle.slots.specs.Slots.{place_of};
ghost use Rattle.equations.specs.Formula.{pairs};
ghost use Rattle.cases.specs.Cases.{value_at};
ghost use Rattle.scenario.specs.Scenario.{pair_of, no_receptor, or_no_time, time_given};
ghost use Rattle.composite.specs.Composite.{summed, sum_of_years, composed, years_together, composite_from};
ghost use Rattle.composite.specs.Inner.{stage_in, years_in, weight_at, time_in, composed_in};

use cases::{Case, Receptors, Record};
use equations::{Stay, Values};
use pair::{Answer, Chain, Pair};
use scenario::Receptor;
use sizes::{MAX_STAGES, SLOTS};
use slots::{ATC, ED, T2, YEARS};
use times::Years;

// A stage's value at place k, a slot's as everywhere here.
fn value_in(stage: Record, k: usize) -> Pair
    requires { k < slots_per_record }
    ensures { result ≡ pair_of (value_at stage k) }
{
    scenario::pair_of(stage.slots[k])
}

// A stage's years as printed.
fn time_in(stage: Record) -> Years
    ensures { result ≡ time_given (value_at stage (place_of "years")) }
{
    scenario::time_given(stage.slots[YEARS])
}

// The sum of two times, which printed years in range always have.
fn added(sum: Years, next: Years) -> Years
    ensures { result ≡ or_no_time (together sum next) }
{
    scenario::or_no_time(sum.together(next))
}

// A person's life stages in deck order: the records, the years of each as a pair, entered once, and the place of the last one.
#[derive(Clone, Copy)]
struct Stages {
    records: [Record; MAX_STAGES],
    years: [Pair; MAX_STAGES],
    last: usize,
    ghost in_range: { last < most_stages },
    ghost entered: { years ≡ years_in records },
}

impl Stages {
    fn of(stages: Receptors) -> Stages
        requires { (1 ≤ stages.count) × (stages.count ≤ most_stages) }
        ensures { (result.records ≡ stages.records) × (result.last ≡ stages.count - 1) }
    {
        let records = stages.records;
        let years = records.map(|stage| value_in(stage, YEARS));
        Stages {
            records,
            years,
            last: stages.count - 1,
        }
    }

    fn sum_of_years(&self) -> Answer
        ensures { answer result ≡ sum_of_years pairs (stage_in self.now.records) self.now.last }
    {
        let mut sum = self.years[0].answer();
        for j in 0..self.last {
            sum = sum.plus(self.years[j + 1].answer());
        }
        sum
    }

    // The sum of years × value at place k.
    fn weighted_sum(&self, k: usize) -> Answer
        requires { k < slots_per_record }
        ensures { answer result ≡ summed pairs (weight_at self.now.records self.now.years k) self.now.last }
    {
        let mut sum = self.years[0].product(value_in(self.records[0], k));
        for j in 0..self.last {
            sum = sum.plus_product(self.years[j + 1], value_in(self.records[j + 1], k));
        }
        sum
    }

    // The exposure, exact.
    fn time_exposed(&self) -> Years
        ensures { result ≡ years_together (time_in self.now.records) self.now.last }
    {
        let mut sum = time_in(self.records[0]);
        for j in 0..self.last {
            sum = added(sum, time_in(self.records[j + 1]));
        }
        sum
    }

    // The composite's value at place k.
    fn composed_at(&self, total: Answer, exposure: Answer, k: usize) -> Answer
        requires k_lt_slots_per_record { k < slots_per_record }
        requires total_value { answer total ≡ sum_of_years pairs (stage_in self.now.records) self.now.last }
        ensures { answer result ≡ composed pairs (stage_in self.now.records) (answer exposure) self.now.last k }
    {
        match k {
            ED => total,
            ATC => Pair::entry(365, 0).times(total),
            T2 => exposure,
            _ => self.weighted_sum(k).over(total),
        }
    }

    fn composed_values(&self, exposure: Answer) -> Values
        ensures { result.list ≡ composed_in self.now.records (answer exposure) self.now.last }
    {
        let total = self.sum_of_years();
        let mut list = [Pair::ONE; SLOTS];
        for k in 0..SLOTS {
            list[k] = scenario::or_no_pair(self.composed_at(total, exposure, k));
        }
        Values { list }
    }
}

fn no_receptor() -> Receptor
    ensures { result ≡ no_receptor }
{
    Receptor {
        id: 0,
        values: scenario::no_values(),
        stay: Stay::Within,
        later: scenario::no_pair(),
    }
}

// A single receptor, made of all of the deck's, under the first one's id.
pub(crate) fn composite_of(case: &Case) -> scenario::Receptors
    requires { (1 ≤ case.now.receptors.count) × (case.now.receptors.count ≤ most_stages) }
    ensures { result ≡ composite_from case.now }
{
    let first = case.receptors.records[0];
    let stages = Stages::of(case.receptors);
    let exposure = stages.time_exposed();
    let values = stages.composed_values(exposure.pair());
    let deposition = scenario::deposition_of(case.site);
    let receptor = scenario::receptor_with(first.id, values, exposure, deposition);
    let none = no_receptor();
    let list = [receptor, none, none, none];
    scenario::Receptors { count: 1, list }
}
