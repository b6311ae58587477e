// Volts with four decimals, from whole numbers: the exact value of a formula, to the nearest.
ghost use Rattle.std.specs.Prelude.{◌+◌, ◌*◌, ◌≤◌, ◌<◌, length, ◌≡◌};
ghost use Rattle.lent.specs.Put.{Puts};
ghost use Rattle.decimals.specs.Decimals.{decimals_of, nearest_of, sign_of, printed_volts};
ghost use Rattle.decimals.specs.Promises.{OfSheet};

use super::digits::put_digits;
use text::{put_number, put_text};

// A sign, a digit, the point and four decimals: where the value is below ten volts.
pub const MOST_VOLTS: usize = 7;

// Step k: divisor * VDD less k * span, in parts of a volt of which there are 64 * divisor.
#[derive(Clone, Copy)]
pub struct Formula {
    pub divisor: u16,
    pub vdd: u16,
    pub span: u16,
    pub k: u16,
}

// a / c, a half up.
fn nearest(a: u32, c: u32) -> u32
    requires { (a ≤ 20480000) × (0 < c) × (c ≤ 320) }
    ensures { result ≡ nearest_of a c }
{
    (2 * a + c) / (2 * c)
}

// A minus sign where more is taken off than there is.
#[tactic(auto, using(crate::proofs::Signs::no_sign_puts))]
fn put_sign(from: u32, less: u32, place: usize, out: &mut [u8]) -> usize
    requires { place + length (sign_of from less) ≤ length out.old }
    ensures { Puts (sign_of from less) place out.old result out.new }
{
    if from < less {
        put_text(b"-", place, out)
    } else {
        place
    }
}

// Ten-thousandths of a volt.
fn put_decimals(n: u32, place: usize, out: &mut [u8]) -> usize
    requires { (n < 100000) × (place + length (decimals_of n) ≤ length out.old) }
    ensures { Puts (decimals_of n) place out.old result out.new }
{
    let next = put_number((n / 10000) as u16, b'.', place, out);
    put_digits(10, 4, n, next, out)
}

pub fn put_volts(formula: Formula, place: usize, out: &mut [u8]) -> usize
    requires { OfSheet formula × (place + length (printed_volts formula) ≤ length out.old) }
    ensures { Puts (printed_volts formula) place out.old result out.new }
{
    let from = formula.divisor as u32 * formula.vdd as u32;
    let less = formula.k as u32 * formula.span as u32;
    let next = put_sign(from, less, place, out);
    let n = nearest(10000 * from.abs_diff(less), 64 * formula.divisor as u32);
    put_decimals(n, next, out)
}
