//! Powers of ten: looked up in one table, and how far one lies above or below 0.
#![tactic(auto)]

ghost use Rattle.std.specs.Prelude.{◌≡◌};
ghost use Rattle.powers.specs.Powers.{ten_to, above, below};

// 10^n; above 19 the largest power of ten that 64 bits hold, 10^19.
#[tactic(auto, unfolding(crate::specs::Powers::ten_to))]
pub fn ten_to(n: u32) -> u64
    ensures { result ≡ ten_to n }
{
    match n {
        0 => 1,
        1 => 10,
        2 => 100,
        3 => 1_000,
        4 => 10_000,
        5 => 100_000,
        6 => 1_000_000,
        7 => 10_000_000,
        8 => 100_000_000,
        9 => 1_000_000_000,
        10 => 10_000_000_000,
        11 => 100_000_000_000,
        12 => 1_000_000_000_000,
        13 => 10_000_000_000_000,
        14 => 100_000_000_000_000,
        15 => 1_000_000_000_000_000,
        16 => 10_000_000_000_000_000,
        17 => 100_000_000_000_000_000,
        18 => 1_000_000_000_000_000_000,
        _ => 10_000_000_000_000_000_000,
    }
}

// A power of ten above 0, or 0.
#[tactic(auto, unfolding(crate::specs::Powers::above))]
pub fn raised(power: i32) -> u32
    ensures { result ≡ above power }
{
    power.max(0).unsigned_abs()
}

// How far a power of ten lies below 0, or 0.
#[tactic(auto, unfolding(crate::specs::Powers::below))]
pub fn lowered(power: i32) -> u32
    ensures { result ≡ below power }
{
    power.min(0).unsigned_abs()
}
