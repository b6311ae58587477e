// Digits of a number, as many as are asked for.
ghost use Rattle.std.specs.Prelude.{◌+◌, ◌≤◌, ◌<◌, length, ◌≡◌};
ghost use Rattle.lent.specs.Put.{Puts};
ghost use Rattle.decimals.specs.Decimals.{digit_in, digits_in};

// The character of a digit, `a` for ten.
fn character(digit: u32) -> u8
    requires { digit < 16 }
    ensures { result ≡ digit_in digit }
{
    if digit < 10 {
        b'0' + digit as u8
    } else {
        b'a' + (digit - 10) as u8
    }
}

// The last digits, the last one first.
pub fn put_digits(base: u32, count: usize, n: u32, place: usize, out: &mut [u8]) -> usize
    requires { (0 < base) × (base ≤ 16) × (place + count ≤ length out.old) }
    ensures { Puts (digits_in base count n) place out.old result out.new }
{
    let end = place + count;
    let mut rest = n;
    for last in (place..end).rev() {
        out[last] = character(rest % base);
        rest /= base;
    }
    end
}
