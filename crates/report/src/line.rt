// The line about a record that was mended.
ghost use Rattle.std.specs.Prelude.{◌+◌, ◌≤◌, ◌<◌, length};
ghost use Rattle.lent.specs.Put.{Puts};
ghost use Rattle.record.specs.Record.{most_events};
ghost use Rattle.report.specs.Report.{counts_of, line_of, most_line};

use mending::Mended;
use text::{put_named, put_text};

// Numbers of 4 and 5 digits with their names, and `length altered` with the line's end.
pub(crate) const MOST_BYTES: usize = 24 + 15;

// The buffer is the caller's, so its room is a clause.
#[tactic(auto, using(crate::proofs::Parts::kept_room, crate::proofs::Parts::dropped_room))]
fn put_counts(told: Mended, out: &mut [u8]) -> usize
    requires { (told.kept ≤ most_events) × (told.dropped < 65536) × (most_line ≤ length out.old) }
    ensures { Puts (counts_of told) 0 out.old result out.new × (result + 15 ≤ most_line) }
{
    let next = put_named(b"kept ", told.kept as u16, b' ', 0, out);
    put_named(b"dropped ", told.dropped as u16, b' ', next, out)
}

pub(crate) fn put_line(told: Mended, out: &mut [u8]) -> usize
    requires { (told.kept ≤ most_events) × (told.dropped < 65536) × (most_line ≤ length out.old) }
    ensures { Puts (line_of told) 0 out.old result out.new }
{
    let next = put_counts(told, out);
    if told.altered {
        return put_text(b"length altered\n", next, out);
    }
    put_text(b"length kept\n", next, out)
}
