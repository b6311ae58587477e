// The words that `panel` is started with, and what it writes: a record and a line, as bytes in two lent buffers.
#![tactic(auto)]

ghost use Rattle.course.specs.Course.{Played};

mod call;
mod line;
mod longer;
mod request;
mod verdict;
mod words;

use line::print_line;
use longer::print_longer;
use refusal::Refusal;
pub use request::Request;
use verdict::decide;
pub use words::asked_by;

// How many bytes each buffer got; each is refused by itself, so these are two answers.
#[derive(Clone, Copy, PartialEq, Eq)]
pub struct Written {
    pub longer: Result<usize, Refusal>,
    pub line: Result<usize, Refusal>,
}

pub const MOST_LINE: usize = line::MOST_BYTES;

// The bytes behind what is written stay. A buffer that has no room for the longest of its kind is refused, whatever is asked.
pub fn play(
    request: Request,
    characters: &[u8],
    bytes: &[u8],
    longer: &mut [u8],
    line: &mut [u8],
) -> Written
    ensures { Played request characters.now bytes.now longer.old line.old result longer.new line.new }
{
    // No heap: the longest call has room.
    let mut events = [0u8; calls::MOST_BYTES];
    let verdict = decide(request, characters, bytes, &mut events);
    Written {
        longer: print_longer(verdict.added, bytes, &events, longer),
        line: print_line(verdict.said, line),
    }
}
