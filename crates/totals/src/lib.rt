//! A report line's counts, and totals over a caller's list of units (document 01, "Units and totals").
#![tactic(auto)]

ghost use Rattle.std.specs.Prelude.{◌≡◌};
ghost use Rattle.totals.specs.Totals.{totalled, total_of};

use pair::Units;
use sizes::MOST_LINES;

// Two columns of a report line: - in both, or two counts.
pub type Columns = Option<Units>;

// Why the totals call has no sum: document 01's 52.
#[derive(Clone, Copy, PartialEq, Eq)]
pub struct NoTotal;

pub const LARGEST_NUMBER: u64 = 10_000_000_000_000_000;

// The sum of the list, or a refusal: more than 96 numbers, or one above 1E+16.
#[tactic(auto, using(crate::proofs::TotalSums::sum_from, crate::proofs::TotalSums::all_past, crate::proofs::TotalSums::too_many, crate::proofs::TotalSums::too_large, crate::proofs::TotalSums::summed))]
pub fn total(list: &[u64]) -> Result<u64, NoTotal>
    ensures { totalled result ≡ total_of list.now }
{
    if MOST_LINES < list.len() {
        return Err(NoTotal);
    }
    let mut sum: u64 = 0;
    for n in list {
        if LARGEST_NUMBER < *n {
            return Err(NoTotal);
        }
        sum += *n;
    }
    Ok(sum)
}
