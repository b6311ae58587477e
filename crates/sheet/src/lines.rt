// The whole text: a line for each voltage, or the refusal.
ghost use Rattle.std.specs.Prelude.{◌≤◌, length, [], ◌∷◌};
ghost use Rattle.lent.specs.Put.{Puts};
ghost use Rattle.voltages.specs.Answers.{InRange};
ghost use Rattle.voltages.specs.declared.Steps.TheVariants.{Quarter};
ghost use Rattle.sheet.specs.Promises.{AllNumbers, most_three};
ghost use Rattle.sheet.specs.Sheet.{three_lines, voltage_lines, most_sheet, sheet_of};

use super::line::put_line;
use text::put_refused;
use voltages::{Drive, Steps, voltages};

// A name with its space, which `V2=V3` alone exceeds.
pub(crate) const NAME_BYTES: usize = 3;

// The first three lines, the first from the buffer's front on.
fn put_three(
    drive: Drive,
    second: &[u8],
    third: &[u8],
    one: f32,
    two: f32,
    three: f32,
    out: &mut [u8],
) -> usize
    requires { InRange drive × AllNumbers (Quarter (one ∷ two ∷ three ∷ [])) × (most_three (length second.now) (length third.now) ≤ length out.old) }
    ensures { Puts (three_lines drive second.now third.now one two three) 0 out.old result out.new × (result ≤ most_three (length second.now) (length third.now)) }
{
    let next = put_line(b"V1 ", drive, 1, one, 0, out);
    let last = put_line(second, drive, 2, two, next, out);
    put_line(third, drive, 3, three, last, out)
}

// Any drive can be asked for, so that this one is in range is a clause, here and in line.rt, and no part of the type.
fn put_lines(drive: Drive, steps: Steps, out: &mut [u8]) -> usize
    requires { InRange drive × AllNumbers steps × (most_sheet ≤ length out.old) }
    ensures { Puts (voltage_lines drive steps) 0 out.old result out.new }
{
    match steps {
        Steps::Quarter(steps) => {
            let [one, two, three] = steps;
            put_three(drive, b"V2=V3 ", b"V4 ", one, two, three, out)
        }
        Steps::Fifth(steps) => {
            let [one, two, three, four] = steps;
            let next = put_three(drive, b"V2 ", b"V3 ", one, two, three, out);
            put_line(b"V4 ", drive, 4, four, next, out)
        }
    }
}

pub(crate) fn put_sheet(drive: Drive, out: &mut [u8]) -> usize
    requires { most_sheet ≤ length out.old }
    ensures { Puts (sheet_of drive) 0 out.old result out.new }
{
    match voltages(drive) {
        Ok(steps) => put_lines(drive, steps, out),
        Err(refusal) => put_refused(u8::from(refusal), out),
    }
}
