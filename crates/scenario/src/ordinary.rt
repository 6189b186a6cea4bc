// The receptors of an ordinary deck.
ghost use Rattle.std.specs.Prelude.{◌≡◌};
ghost use Rattle.scenario.specs.Scenario.{values_if, entered, entered_from};

use crate::exposure::{deposition_of, receptor_with, time_given};
use crate::values::{no_values, values_of};
use crate::{Receptor, Receptors};
use cases::{Case, Record, lacks};
use equations::Values;
use slots::{Owner, Sort, T2};
use std::array;
use times::Years;

// A receptor's values; nothing is worked of one that lacks a needed value.
fn values_if(lacking: bool, r: Record) -> Values
    ensures { result ≡ values_if lacking r }
{
    if lacking {
        return no_values();
    }
    values_of(r)
}

// A receptor whose slots' pairs are the entries of what is printed.
fn enter(deposition: Years, r: Record) -> Receptor
    ensures { result ≡ entered deposition r }
{
    receptor_with(
        r.id,
        values_if(lacks(Sort::Ordinary, Owner::Receptor, &r), r),
        time_given(r.slots[T2]),
        deposition,
    )
}

// The receptors that an ordinary deck's sheet is worked for.
pub fn entered_from(case: &Case) -> Receptors
    ensures { result ≡ entered_from case.now }
{
    let deposition = deposition_of(case.site);
    Receptors {
        count: case.receptors.count,
        list: array::from_fn(|j| enter(deposition, case.receptors.records[j])),
    }
}
