// A case in memory: its counts, ids and slots, as a deck's are held to.
ghost use Rattle.std.specs.Prelude.{◌≡◌, ◌||◌, ◌≤◌, ◌<◌, ℕ, leb, ltb, length, get_or};
ghost use Rattle.lists.specs.Lists.{chained};
ghost use Rattle.sizes.specs.Sizes.{max_chemicals, most_stages};
ghost use Rattle.slots.specs.Slots.{rule_at};
ghost use Rattle.cases.specs.Cases.{no_record};
ghost use Rattle.cases.specs.Conditions.{first, verdict_of};
ghost use Rattle.cases.specs.CaseConditions.{outside, counts_outside, most_id, ids_wrong, chemical_ids, receptor_ids, is_missing, slot_conditions, record_conditions, chemical_conditions, memory_conditions, lacks};

use crate::numbers::{MISCOUNTED, MISPLACED, OUT_OF_RANGE, WRONG_ID};
use crate::ranges::in_range;
use crate::{Chemicals, Ids, Record, Refusal, Value, Verdict, max_receptors};
use sizes::MAX_CHEMICALS;
use slots::{Owner, Rule, Sort, rule_at};

const MOST_ID: u32 = 999_999;

// Whether there are fewer or more records than a deck of this sort may have.
#[tactic(auto, unfolding(crate::specs::CaseConditions::counts_outside, crate::specs::CaseConditions::outside))]
pub fn counts_outside(sort: Sort, chemicals: usize, receptors: usize) -> bool
    ensures { result ≡ counts_outside sort chemicals receptors }
{
    chemicals == 0 || MAX_CHEMICALS < chemicals || receptors == 0 || max_receptors(sort) < receptors
}

// An id that is not above the one before, which is 0 before the first, or has more than six digits.
fn id_wrong(id: u32, before: u32) -> bool
    ensures { result ≡ (leb id before || ltb most_id id) }
{
    id <= before || MOST_ID < id
}

// Whether one of so many ids, each told by its place, is wrong.
fn ids_wrong<F: Fn(usize) -> u32>(count: usize, id_at: F) -> bool
    requires { (i : ℕ) → i < count → F.pre id_at i }
    ensures { (ids : ℕ → ℕ) → ((i id : ℕ) → i < count → F.post id_at i id → id ≡ ids i) → result ≡ ids_wrong ids count }
{
    let mut before = 0;
    for i in 0..count {
        let id = id_at(i);
        if id_wrong(id, before) {
            return true;
        }
        before = id;
    }
    false
}

#[tactic(auto, unfolding(crate::specs::CaseConditions::outside))]
fn some_id_wrong(site: u32, chemicals: &Chemicals, receptors: &Ids) -> bool
    requires { (chemicals.now.count ≤ max_chemicals) × (receptors.now.count ≤ most_stages) }
    ensures { result ≡ (outside most_id site || ids_wrong (chemical_ids chemicals.now) chemicals.now.count || ids_wrong (receptor_ids receptors.now) receptors.now.count) }
{
    if site == 0 || MOST_ID < site {
        return true;
    }
    ids_wrong(chemicals.count, |i| chemicals.records[i].id)
        || ids_wrong(receptors.count, |j| receptors.list[j])
}

// Whether a needed slot has no value.
#[tactic(auto, unfolding(crate::specs::CaseConditions::is_missing))]
fn is_missing(rule: Rule, v: Value) -> bool
    ensures { result ≡ is_missing rule v }
{
    match v {
        Value::Absent => !(rule.dash || rule.blank),
        Value::Given { .. } => false,
    }
}

#[tactic(auto, unfolding(crate::specs::Conditions::verdict_of, crate::specs::Conditions::first, crate::specs::CaseConditions::slot_conditions, crate::specs::CaseConditions::is_missing, crate::specs::CaseConditions::is_stray, crate::specs::CaseConditions::is_out_of_range))]
fn slot_verdict(rule: Rule, v: Value) -> Verdict
    ensures { result ≡ verdict_of (first (slot_conditions rule v)) }
{
    if is_missing(rule, v) {
        return Err(Refusal(MISPLACED));
    }
    let Value::Given { power, digits } = v else {
        return Ok(());
    };
    if !rule.used {
        return Err(Refusal(MISPLACED));
    }
    if !in_range(rule, digits, power) {
        return Err(Refusal(OUT_OF_RANGE));
    }
    Ok(())
}

fn record_verdict(owner: Owner, r: &Record) -> Verdict
    ensures { result ≡ verdict_of (first (record_conditions Sort.Ordinary owner r.now)) }
{
    for (k, v) in r.slots.iter().enumerate() {
        slot_verdict(rule_at(Sort::Ordinary, owner, k), *v)?;
    }
    Ok(())
}

fn chemicals_verdict(chemicals: &[Record]) -> Verdict
    ensures { result ≡ verdict_of (first (chained (λ i. record_conditions Sort.Ordinary Owner.Chemical (get_or chemicals.now i no_record)) (length chemicals.now))) }
{
    for chemical in chemicals {
        record_verdict(Owner::Chemical, chemical)?;
    }
    Ok(())
}

// The first condition of a site, chemicals and receptors in memory, these by their ids: its number alone, as there is no deck.
pub fn memory_verdict(sort: Sort, site: &Record, chemicals: &Chemicals, receptors: &Ids) -> Verdict
    ensures { result ≡ verdict_of (first (memory_conditions sort site.now chemicals.now receptors.now)) }
{
    if counts_outside(sort, chemicals.count, receptors.count) {
        return Err(Refusal(MISCOUNTED));
    }
    if some_id_wrong(site.id, chemicals, receptors) {
        return Err(Refusal(WRONG_ID));
    }
    record_verdict(Owner::Site, site)?;
    chemicals_verdict(&chemicals.records[..chemicals.count])
}

// Whether the slot at a place is needed and has no value. Most have one, and their rules are not looked up.
#[tactic(auto, unfolding(crate::specs::CaseConditions::is_missing))]
fn slot_lacks(sort: Sort, owner: Owner, k: usize, v: Value) -> bool
    ensures { result ≡ is_missing (rule_at sort owner k) v }
{
    match v {
        Value::Absent => is_missing(rule_at(sort, owner, k), v),
        Value::Given { .. } => false,
    }
}

// Whether a needed slot of a record has no value.
pub fn lacks(sort: Sort, owner: Owner, r: &Record) -> bool
    ensures { result ≡ lacks sort owner r.now }
{
    r.slots
        .iter()
        .enumerate()
        .any(|(k, v)| slot_lacks(sort, owner, k, *v))
}
