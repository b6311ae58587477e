// The line of one voltage.
ghost use Rattle.std.specs.Float.Ieee.{is_nan};
ghost use Rattle.std.specs.Prelude.{◌+◌, ◌≤◌, T, length, not, ◌≡◌};
ghost use Rattle.decimals.specs.Promises.{OfSheet};
ghost use Rattle.lent.specs.Put.{Puts};
ghost use Rattle.voltages.specs.Answers.{InRange};
ghost use Rattle.sheet.specs.Sheet.{bits_of, formula_of, voltage_line, most_behind};

use decimals::{Formula, put_digits, put_volts};
use text::put_text;
use voltages::Drive;

// What can stand behind a name: the volts, and eight digits with a byte before and behind them.
pub(crate) const MOST_BEHIND: usize = decimals::MOST_VOLTS + 10;

// A space, the bits as eight hex digits, and the line's end. Only a number has bits of its own.
fn put_bits(volts: f32, place: usize, out: &mut [u8]) -> usize
    requires { T (not (is_nan volts)) × (place + length (bits_of volts) ≤ length out.old) }
    ensures { Puts (bits_of volts) place out.old result out.new }
{
    let next = put_text(b" ", place, out);
    let end = put_digits(16, 8, f32::to_bits(volts), next, out);
    put_text(b"\n", end, out)
}

#[tactic(auto, using(crate::proofs::Lengths::of_sheet))]
fn formula(drive: Drive, k: u16) -> Formula
    requires { InRange drive × (k ≤ 4) }
    ensures { (result ≡ formula_of drive k) × OfSheet result }
{
    Formula {
        divisor: drive.divisor(),
        vdd: drive.vdd,
        span: drive.span,
        k,
    }
}

pub(crate) fn put_line(
    name: &[u8],
    drive: Drive,
    k: u16,
    volts: f32,
    place: usize,
    out: &mut [u8],
) -> usize
    requires { InRange drive × (k ≤ 4) × T (not (is_nan volts)) × (place + length name.now + most_behind ≤ length out.old) }
    ensures { Puts (voltage_line name.now drive k volts) place out.old result out.new × (result ≤ place + length name.now + most_behind) }
{
    let named = put_text(name, place, out);
    let next = put_volts(formula(drive, k), named, out);
    put_bits(volts, next, out)
}
