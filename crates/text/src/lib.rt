// Text and decimal numbers, put at a place of a lent buffer.
#![tactic(auto)]

ghost use Rattle.std.specs.Prelude.{◌+◌, ◌%◌, ◌≤◌, ◌<◌, length, ◌++◌, ◌∷◌, [], ◌≡◌};
ghost use Rattle.lent.specs.Put.{Puts};
ghost use Rattle.text.specs.Text.{digit_of, decimal_of, refused_of};

// All bytes of a text. A place and a buffer are two parameters, here and wherever bytes are put: a struct that held the lent slice
// would have to promise at each call that it is the same slice and as long.
#[tactic(auto, using(lent::proofs::Placed::put_none))]
pub fn put_text(text: &[u8], place: usize, out: &mut [u8]) -> usize
    requires { place + length text.now ≤ length out.old }
    ensures { Puts text.now place out.old result out.new }
{
    // Byte by byte: a copy of a length that is known only as it runs calls memmove, which the bias sheet's archive for C does without.
    for at in 0..text.len() {
        out[place + at] = text[at];
    }
    place + text.len()
}

// How many digits a number has.
#[tactic(auto, using(crate::proofs::Decimal::one_digit, crate::proofs::Decimal::two_digits, crate::proofs::Decimal::three_digits, crate::proofs::Decimal::four_digits, crate::proofs::Decimal::five_digits))]
pub fn digit_count(n: u16) -> usize
    ensures { (result ≡ length (decimal_of n)) × (1 ≤ result) × (result ≤ 5) }
{
    match n {
        0..=9 => 1,
        10..=99 => 2,
        100..=999 => 3,
        1000..=9999 => 4,
        _ => 5,
    }
}

// The character of a number's last digit.
fn digit(n: u16) -> u8
    ensures { result ≡ digit_of (n % 10) }
{
    b'0' + (n % 10) as u8
}

// The digits of a number, the last one first.
#[tactic(auto, using(crate::proofs::Decimal::one_digit, crate::proofs::Decimal::lone_digit))]
fn put_decimal(n: u16, place: usize, out: &mut [u8]) -> usize
    requires { place + length (decimal_of n) ≤ length out.old }
    ensures { Puts (decimal_of n) place out.old result out.new }
{
    // Most numbers have one digit: it needs no division.
    if n < 10 {
        out[place] = digit(n);
        return place + 1;
    }
    let digits = digit_count(n);
    let mut rest = n;
    for at in (0..digits).rev() {
        out[place + at] = digit(rest);
        rest /= 10;
    }
    place + digits
}

// A number, and the byte that ends it.
pub fn put_number(n: u16, mark: u8, place: usize, out: &mut [u8]) -> usize
    requires { place + length (decimal_of n) < length out.old }
    ensures { Puts (decimal_of n ++ (mark ∷ [])) place out.old result out.new }
{
    let end = put_decimal(n, place, out);
    out[end] = mark;
    end + 1
}

// A name, and a number behind it with the byte that ends it.
pub fn put_named(name: &[u8], n: u16, mark: u8, place: usize, out: &mut [u8]) -> usize
    requires { place + length name.now + length (decimal_of n) < length out.old }
    ensures { Puts (name.now ++ (decimal_of n ++ (mark ∷ []))) place out.old result out.new }
{
    let next = put_text(name, place, out);
    put_number(n, mark, next, out)
}

// What a program prints for a refusal.
#[tactic(auto, unfolding(crate::specs::Text::refused_of))]
pub fn put_refused(number: u8, out: &mut [u8]) -> usize
    requires { 12 ≤ length out.old }
    ensures { Puts (refused_of number) 0 out.old result out.new }
{
    put_named(b"refused ", u16::from(number), b'\n', 0, out)
}
