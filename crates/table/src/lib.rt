// The bench program's text for a record, as bytes in a lent buffer.
#![tactic(auto)]

ghost use Rattle.printing.specs.Answers.{Printed};
ghost use Rattle.table.specs.Table.{most_text, printed_of};

mod line;
mod lines;
mod printed;

use printed::put_printed;
use refusal::Refusal;

// Room for the heading and the lines of 4,096 events.
pub const MOST_BYTES: usize = printed::HEADING_BYTES + line::LINE_BYTES * record::MOST_EVENTS;

// `too long`, a refusal or the table; the bytes behind it stay. A buffer below MOST_BYTES is refused, whatever the record.
pub fn table(bytes: &[u8], out: &mut [u8]) -> Result<usize, Refusal>
    ensures { Printed most_text (printed_of bytes.now) out.old result out.new }
{
    if out.len() < MOST_BYTES {
        return Err(Refusal::ShortBuffer);
    }
    Ok(put_printed(bytes, out))
}
