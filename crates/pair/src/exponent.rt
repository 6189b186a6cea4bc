//! Signed exponents of ten: which are in reach, and how far one lies above another.
ghost use Rattle.std.specs.Prelude.{◌≡◌, false, ◌-ℤ◌};
ghost use Rattle.std.specs.Int.Signed.{lt_z};
ghost use Rattle.std.specs.Int.{w32};
ghost use Rattle.std.proofs.Common.{SFits};
ghost use Rattle.pair.specs.Number.{in_reach, rise};

// How far e lies above s, which is not above e.
pub(crate) fn above(s: i32, e: i32) -> usize
    requires sfits { SFits w32 (e -ℤ s) }
    requires s_value { lt_z e s ≡ false }
    ensures { result ≡ rise s e }
{
    (e - s) as usize
}

pub(crate) fn in_reach(e: i32) -> bool
    ensures { result ≡ in_reach e }
{
    (-99_999..=99_999).contains(&e)
}
