// Digits written into columns, from the right.
ghost use Rattle.std.specs.Prelude.{◌≡◌, [], ◌∷◌, ◌++◌, ◌+◌, ◌-◌, ◌/◌, ◌%◌, ◌<◌, length};
ghost use Rattle.spelling.specs.Columns.{digits, justified, number_in, dash_in};

// The last digit of n, which is 10 × tens and that digit.
fn digit(n: u64, tens: u64) -> u8
    requires { tens ≡ n / 10 }
    ensures { result ≡ 48 + n % 10 }
{
    b'0' + (n - 10 * tens) as u8
}

// Fills the part from the right: last, before it the digits of n, none of 0, and spaces.
fn fill(part: &mut [u8], n: u64, last: u8)
    requires { 0 < length part.old }
    ensures { part.new ≡ justified (length part.old) (digits (length part.old - 1) n ++ (last ∷ [])) }
{
    let end = part.len() - 1;
    part[end] = last;
    let mut left = n;
    for at in (0..end).rev() {
        if left == 0 {
            part[..=at].fill(b' ');
            return;
        }
        let tens = left / 10;
        part[at] = digit(left, tens);
        left = tens;
    }
}

// The number n in the columns of a part; where it has none, nothing.
pub fn put_number(part: &mut [u8], n: u64)
    ensures { part.new ≡ number_in part.old n }
{
    if part.len() == 0 {
        return;
    }
    let tens = n / 10;
    fill(part, tens, digit(n, tens));
}

// A lone - in the columns of a part; where it has none, nothing.
pub fn put_dash(part: &mut [u8])
    ensures { part.new ≡ dash_in part.old }
{
    if part.len() == 0 {
        return;
    }
    fill(part, 0, b'-');
}
