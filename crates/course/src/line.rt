// The line that is said, in a lent buffer.
ghost use Rattle.std.specs.Prelude.{◌≤◌, length};
ghost use Rattle.lent.specs.Put.{Puts};
ghost use Rattle.printing.specs.Answers.{Printed};
ghost use Rattle.course.specs.Course.{most_line};
ghost use Rattle.course.specs.Promises.{said_line};

use super::verdict::Said;
use refusal::Refusal;
use text::{put_number, put_refused, put_text};

// `not yet written` and the line's end.
pub(crate) const MOST_BYTES: usize = 16;

// The buffer is the caller's, so its room is a clause.
#[tactic(auto, unfolding(crate::specs::Course::figure_line))]
fn put_line(said: Said, out: &mut [u8]) -> usize
    requires { most_line ≤ length out.old }
    ensures { Puts (said_line said) 0 out.old result out.new }
{
    match said {
        Said::TooLong => put_text(b"too long\n", 0, out),
        Said::Refused(refusal) => put_refused(u8::from(refusal), out),
        Said::Done => put_text(b"done\n", 0, out),
        Said::Figure(quarters) => put_number(quarters as u16, b'\n', 0, out),
        Said::NotYetWritten => put_text(b"not yet written\n", 0, out),
    }
}

pub(crate) fn print_line(said: Said, out: &mut [u8]) -> Result<usize, Refusal>
    ensures { Printed most_line (said_line said) out.old result out.new }
{
    if out.len() < MOST_BYTES {
        return Err(Refusal::ShortBuffer);
    }
    Ok(put_line(said, out))
}
