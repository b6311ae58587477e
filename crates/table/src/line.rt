// The line of one event.
ghost use Rattle.std.specs.Prelude.{◌+◌, ◌≤◌, length};
ghost use Rattle.lent.specs.Put.{Puts};
ghost use Rattle.table.specs.Promises.{Narrow};
ghost use Rattle.table.specs.Table.{spaced, line_of, line_bytes};

use text::put_number;

// A line's bytes: numbers of at most 4, 1, 5, 2, 3 and 1 digits, and a byte behind each.
pub(crate) const LINE_BYTES: usize = 22;

// A space behind each number.
#[tactic(auto, using(crate::proofs::Columns::spaced_room, crate::proofs::Columns::spaced_end))]
fn put_spaced(numbers: &[u16], place: usize, out: &mut [u8]) -> usize
    requires { place + length (spaced numbers.now) ≤ length out.old }
    ensures { Puts (spaced numbers.now) place out.old result out.new }
{
    let mut next = place;
    for &number in numbers {
        next = put_number(number, b' ', next, out);
    }
    next
}

// An event by its number, and what it was answered.
#[derive(Clone, Copy)]
pub(crate) struct Line {
    pub number: u16,
    pub kind: u8,
    pub value: u16,
    pub answer: u8,
    pub read: u8,
    pub wrap: u8,
}

#[tactic(auto, using(crate::proofs::Columns::wrap_room))]
pub(crate) fn put_line(line: Line, place: usize, out: &mut [u8]) -> usize
    requires { Narrow line × (place + line_bytes ≤ length out.old) }
    ensures { Puts (line_of line.number line.kind line.value line.answer line.read line.wrap) place out.old result out.new × (result ≤ place + line_bytes) }
{
    let columns = [
        line.number,
        line.kind as u16,
        line.value,
        line.answer as u16,
        line.read as u16,
    ];
    let next = put_spaced(&columns, place, out);
    put_number(line.wrap as u16, b'\n', next, out)
}
