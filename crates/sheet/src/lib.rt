// The words that `bias` is started with, and what it prints, as bytes in a lent buffer.
#![tactic(auto)]

ghost use Rattle.printing.specs.Answers.{Printed};
ghost use Rattle.sheet.specs.Sheet.{most_sheet, sheet_of};

mod line;
mod lines;
mod words;

use lines::put_sheet;
use refusal::Refusal;
use voltages::Drive;
pub use words::asked_by;

// Room for the four lines of fifth bias.
pub const MOST_BYTES: usize = 4 * (lines::NAME_BYTES + line::MOST_BEHIND);

// A line for each voltage, or the refusal; bytes behind what is written stay. A buffer below MOST_BYTES is refused, whatever the numbers.
pub fn sheet(drive: Drive, out: &mut [u8]) -> Result<usize, Refusal>
    ensures { Printed most_sheet (sheet_of drive) out.old result out.new }
{
    if out.len() < MOST_BYTES {
        return Err(Refusal::ShortBuffer);
    }
    Ok(put_sheet(drive, out))
}
