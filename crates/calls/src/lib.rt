// The panel's calls, and their events put into a lent buffer as a bench record holds them.
#![tactic(auto)]

ghost use Rattle.std.specs.Prelude.{◌+◌, ◌≤◌, length};
ghost use Rattle.calls.specs.Events.{call_events};
ghost use Rattle.calls.specs.Promises.{PutsEvents, room_for, bytes_in, InCourse};

mod bytes_given;
mod log_call;
mod nights;
mod text_call;

use halves::LineCount;
use log_call::put_log_call;
pub use nights::{MARK, Night};
use text_call::put_text_call;

// There are these two, so each part of a call is a match.
#[derive(Clone, Copy, PartialEq, Eq)]
pub enum Call {
    // The line that the characters are written on.
    Text(u8),
    // A night, and its quarter hours.
    Log(u8, u8),
}

// Sixteen characters and two addresses, each of two halves.
pub const MOST_BYTES: usize = 18 * bytes_given::BYTE_ROOM;

// The characters are a text's.
#[tactic(auto, using(crate::proofs::Calls::text_room, crate::proofs::Calls::log_room))]
pub fn put_call(
    bus: LineCount,
    call: Call,
    characters: &[u8],
    place: usize,
    out: &mut [u8],
) -> usize
    requires { InCourse call × (place + room_for (bytes_in call (length characters.now)) ≤ length out.old) }
    ensures { PutsEvents (call_events bus call characters.now) place out.old result out.new }
{
    match call {
        Call::Text(line) => put_text_call(bus, line, characters, place, out),
        Call::Log(number, quarters) => put_log_call(bus, Night { number }, quarters, place, out),
    }
}
