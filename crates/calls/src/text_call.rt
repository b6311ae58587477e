// The events of a text.
ghost use Rattle.std.specs.Prelude.{◌+◌, ◌≤◌, length, ◌≡◌};
ghost use Rattle.calls.specs.Events.{line_address, text_events};
ghost use Rattle.calls.specs.Promises.{PutsEvents, room_for};

use super::bytes_given::{put_address, put_data};
use counters::address::DisplayAddress;
use halves::LineCount;

// Where a line of the screen starts.
#[tactic(auto, using(crate::proofs::Calls::first_line, crate::proofs::Calls::other_line))]
fn line_address(line: u8) -> DisplayAddress
    ensures { result ≡ line_address line }
{
    if line == 0 {
        DisplayAddress(0x00)
    } else {
        DisplayAddress(0x40)
    }
}

// The address of the line, the characters, and address 00.
pub(crate) fn put_text_call(
    bus: LineCount,
    line: u8,
    characters: &[u8],
    place: usize,
    out: &mut [u8],
) -> usize
    requires { place + room_for (2 + length characters.now) ≤ length out.old }
    ensures { PutsEvents (text_events bus line characters.now) place out.old result out.new }
{
    let first = put_address(bus, line_address(line), place, out);
    let last = put_data(bus, characters, first, out);
    put_address(bus, DisplayAddress(0x00), last, out)
}
