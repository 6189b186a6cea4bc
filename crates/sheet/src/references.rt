// The reference values that a chemical may lack.
ghost use Rattle.std.specs.Prelude.{◌≡◌, ◌<◌};
ghost use Rattle.cases.specs.Cases.{value_at};
ghost use Rattle.sizes.specs.Sizes.{slots_per_record};
ghost use Rattle.sheet.specs.Inner.{printed_as, references_of};

use cases::{Record, Value};
use pair::Pair;
use pathway::{References, references_from};
use scenario::pair_of;
use slots::{CSF_I, CSF_O, RFD_I, RFD_O};

// What a slot holds.
fn printed(r: Record, k: usize) -> Option<Pair>
    requires { k < slots_per_record }
    ensures { result ≡ printed_as (value_at r k) }
{
    let v = r.slots[k];
    let Value::Given {
        digits: _,
        power: _,
    } = v
    else {
        return None;
    };
    Some(pair_of(v))
}

pub(crate) fn references_of(r: Record) -> References
    ensures { result ≡ references_of r }
{
    references_from(
        printed(r, RFD_O),
        printed(r, RFD_I),
        printed(r, CSF_O),
        printed(r, CSF_I),
    )
}
