//! Words and numbers in a text.
ghost use Rattle.std.specs.Prelude.{◌≡◌, ◌+◌, ◌-◌, ◌≤◌, length, drop};
ghost use Rattle.trials.specs.Text.{leading, number_of, whole_of, after_of, spaced_whole, signed_of, signed_at, spaced_signed};

// What was read, and where the text goes on.
#[derive(Clone, Copy, PartialEq, Eq)]
pub struct Part<T> {
    pub value: T,
    pub at: usize,
}

// What stands from a place on.
#[tactic(auto, using(std::proofs::lemmas::List::drop_min))]
fn rest(s: &[u8], at: usize) -> &[u8]
    ensures { result.now ≡ drop at s.now }
{
    &s[at.min(s.len())..]
}

// How many bytes from low to high stand from a place on. The part from there is taken first: `skip` would walk to it.
fn leading(s: &[u8], at: usize, low: u8, high: u8) -> usize
    ensures value { result ≡ leading low high (drop at s.now) }
    ensures upper_bound { result ≤ length s.now - at }
{
    rest(s, at)
        .iter()
        .take_while(|b| (low..=high).contains(*b))
        .count()
}

// Where the bytes from low to high end that stand from a place on.
pub fn past(s: &[u8], at: usize, low: u8, high: u8) -> usize
    ensures value { result ≡ at + leading low high (drop at s.now) }
    ensures lower_bound { (at ≤ result) × (result ≤ at + (length s.now - at)) }
{
    at + leading(s, at, low, high)
}

// The number that digits spell, where 64 bits hold it; the text goes on at a place.
#[tactic(auto, using(crate::proofs::Spelled::too_large), unfolding(crate::specs::Text::number_of, crate::specs::Text::spelled))]
fn number(s: &[u8], at: usize) -> Option<Part<u64>>
    ensures { result ≡ number_of s.now at }
{
    let mut value: u64 = 0;
    for byte in s {
        let digit = u64::from(byte.saturating_sub(b'0'));
        value = value.checked_mul(10)?.checked_add(digit)?;
    }
    Some(Part { value, at })
}

// The digits from a place on: at least one, and a number of 64 bits.
#[tactic(auto, unfolding(crate::specs::Text::whole_of))]
pub fn digits(s: &[u8], at: usize) -> Option<Part<u64>>
    ensures { result ≡ whole_of s.now at }
{
    let end = past(s, at, b'0', b'9');
    if end <= at {
        return None;
    }
    number(&s[at..end], end)
}

// The place after a byte that stands here; none where another does.
#[tactic(auto, unfolding(crate::specs::Text::after_of))]
pub fn after(s: &[u8], at: usize, byte: u8) -> Option<usize>
    ensures { result ≡ after_of byte s.now at }
{
    match s.get(at) {
        Some(b) if *b == byte => Some(at + 1),
        _ => None,
    }
}

// A space and digits.
#[tactic(auto, unfolding(crate::specs::Text::spaced_whole))]
pub fn read_whole(s: &[u8], at: usize) -> Option<Part<u64>>
    ensures { result ≡ spaced_whole s.now at }
{
    digits(s, after(s, at, b' ')?)
}

// A number or its opposite, where 32 bits hold it.
#[tactic(auto, unfolding(crate::specs::Text::signed_of))]
fn signed_with(minus: bool, size: Part<u64>) -> Option<Part<i32>>
    ensures { result ≡ signed_of minus size }
{
    let n = i64::try_from(size.value).ok()?;
    let value = i32::try_from(if minus { -n } else { n }).ok()?;
    Some(Part { value, at: size.at })
}

// Perhaps a minus, and digits: a number of 32 bits with its sign.
#[tactic(auto, unfolding(crate::specs::Text::signed_at))]
pub fn signed_at(s: &[u8], at: usize) -> Option<Part<i32>>
    ensures { result ≡ signed_at s.now at }
{
    match after(s, at, b'-') {
        Some(from) => signed_with(true, digits(s, from)?),
        None => signed_with(false, digits(s, at)?),
    }
}

// A space, perhaps a minus, and digits.
#[tactic(auto, unfolding(crate::specs::Text::spaced_signed))]
pub fn read_signed(s: &[u8], at: usize) -> Option<Part<i32>>
    ensures { result ≡ spaced_signed s.now at }
{
    signed_at(s, after(s, at, b' ')?)
}
