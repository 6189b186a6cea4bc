// A receptor's exposure against the deposition (document 02, P4), on the printed digits.
ghost use Rattle.std.specs.Prelude.{◌≡◌};
ghost use Rattle.pair.specs.Calls.{answer};
ghost use Rattle.times.specs.Times as years;
ghost use Rattle.scenario.specs.Scenario.{or_no_time, told, time_given, deposition_of, stay_if, later_if, receptor_with};

use crate::Receptor;
use crate::values::{or_no_pair, told};
use cases::{Record, Value};
use equations::{Stay, Values};
use pair::{Pair, Refused};
use slots::TD;
use times::Years;

// What is no time: every call refuses it.
const NO_TIME: Years = Years {
    high: 10_000_000_000_000_000_000,
    low: 0,
};

pub fn or_no_time(t: Result<Years, Refused>) -> Years
    ensures { result ≡ or_no_time (answer t) }
{
    t.unwrap_or(NO_TIME)
}

// A given time, exact.
pub(crate) fn timed(v: Value) -> Result<Years, Refused>
    ensures { answer result ≡ told years.printed v }
{
    told(Years::printed, v)
}

pub fn time_given(v: Value) -> Years
    ensures { result ≡ time_given v }
{
    or_no_time(timed(v))
}

// The years of deposition.
pub fn deposition_of(site: Record) -> Years
    ensures { result ≡ deposition_of site }
{
    time_given(site.slots[TD])
}

// What cannot be compared goes beyond, where T2 − tD is no pair.
#[tactic(auto, unfolding(pair::specs::Calls::answer, crate::specs::Scenario::stay_if))]
fn stay_if(compared: Result<bool, Refused>) -> Stay
    ensures { result ≡ stay_if (answer compared) }
{
    match compared {
        Ok(true) => Stay::Within,
        Ok(false) => Stay::Beyond,
        Err(_) => Stay::Beyond,
    }
}

// T2 − tD, where T2 is above tD.
fn later_if(stay: Stay, exposure: Years, deposition: Years) -> Pair
    ensures { result ≡ later_if stay exposure deposition }
{
    match stay {
        Stay::Within => Pair::ONE,
        Stay::Beyond => or_no_pair(exposure.beyond(deposition)),
    }
}

// A receptor of these values, exposed for a time that is set against the deposition's.
pub fn receptor_with(id: u32, values: Values, exposure: Years, deposition: Years) -> Receptor
    ensures { result ≡ receptor_with id values exposure deposition }
{
    let stay = stay_if(exposure.compare(deposition));
    let later = later_if(stay, exposure, deposition);
    Receptor {
        id,
        values,
        stay,
        later,
    }
}
