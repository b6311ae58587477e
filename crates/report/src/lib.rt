// What `mend` writes: the mended record and a line about it, as bytes in two lent buffers.
#![tactic(auto)]

ghost use Rattle.report.specs.Report.{Reported};

mod line;
mod written;

use refusal::Refusal;
pub use written::Sizes;
use written::put_both;

// The bytes that a length field can speak of: its own two, and the most that it counts.
pub const MOST_INPUT: usize = 2 + 65535;

pub const MOST_LINE: usize = line::MOST_BYTES;

// The bytes behind what is written stay. A buffer that has no room for the longest record or line is refused, whatever the input.
pub fn report(bytes: &[u8], mended: &mut [u8], line: &mut [u8]) -> Result<Sizes, Refusal>
    ensures { Reported bytes.now mended.old line.old result mended.new line.new }
{
    if mended.len() < record::MOST_BYTES {
        return Err(Refusal::ShortBuffer);
    }
    if line.len() < MOST_LINE {
        return Err(Refusal::ShortBuffer);
    }
    Ok(put_both(bytes, mended, line))
}
