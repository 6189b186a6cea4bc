// A value however it is given.
ghost use Rattle.std.specs.Prelude.{◌≡◌, min, ◌<◌, ◌≤◌};
ghost use Rattle.std.proofs.Math.IntN.{sub_ℕ};
ghost use Rattle.cases.specs.Cases.{zeros_at_end, plain};

use crate::Value;
use powers::{lowered, ten_to};

// Zeros at the end of a number of 64 bits, at most.
const MOST_ZEROS: u32 = 19;

// No number in range has its last digit further behind the point.
const FARTHEST: u32 = 999;

// The zeros at the end of the digits, at most so many.
#[tactic(auto, using(crate::proofs::ZeroLaws::zero_start, crate::proofs::ZeroLaws::zero_more, crate::proofs::ZeroLaws::zero_less, crate::proofs::ZeroLaws::zero_last))]
fn zeros_at_end(most: u32, digits: u64) -> u32
    ensures { (result ≡ zeros_at_end most digits) × (result ≤ most) }
{
    let mut left = digits;
    for n in 0..most {
        if left % 10 != 0 {
            return n;
        }
        left /= 10;
    }
    most
}

// So far behind the point, as a power of ten.
fn below_point(down: u32) -> i32
    requires { down < 1000 }
    ensures { result ≡ sub_ℕ 0 down }
{
    -(down as i32)
}

// The same number without zeros at the end of what stands behind the point.
#[tactic(auto, using(crate::proofs::ZeroLaws::tens_above), unfolding(crate::specs::Cases::plain))]
pub fn plain(v: Value) -> Value
    ensures { result ≡ plain v }
{
    let Value::Given { digits, power } = v else {
        return Value::Absent;
    };
    if digits == 0 {
        return Value::Given {
            power: 0,
            digits: 0,
        };
    }
    let down = lowered(power);
    if down == 0 || FARTHEST < down {
        return v;
    }
    let n = zeros_at_end(down.min(MOST_ZEROS), digits);
    Value::Given {
        power: below_point(down - n),
        digits: digits / ten_to(n),
    }
}
