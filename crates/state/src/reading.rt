// The registers that the fifteen bytes behind the memories would be: each field off its byte, whatever it holds.
ghost use Rattle.std.specs.Prelude.{get_or, ◌≡◌};
ghost use Rattle.state.specs.Taken.{counter_read, half_read, mode_read, entry_read, lights_read, registers_read};

use super::BYTES;
use controller::registers::{Entry, Lights, Mode, Registers};
use counters::LineMode;
use counters::address::{CharacterAddress, DisplayAddress};
use counters::counter::Counter;
use counters::shift::Shift;
use event::Kind;
use halves::{Half, LineCount};

fn counter_read(bytes: &[u8; BYTES]) -> Counter
    ensures { result ≡ counter_read (get_or bytes.now 144 0) (get_or bytes.now 145 0) }
{
    let address = bytes[145];
    if bytes[144] == 0 {
        Counter::Display(DisplayAddress(address))
    } else {
        Counter::Character(CharacterAddress(address))
    }
}

fn mode_read(bytes: &[u8; BYTES]) -> Mode
    ensures { result ≡ mode_read bytes.now }
{
    Mode {
        lines: LineMode::from(bytes[148] == 1),
        tall: bytes[149] == 1,
    }
}

fn entry_read(bytes: &[u8; BYTES]) -> Entry
    ensures { result ≡ entry_read bytes.now }
{
    Entry {
        up: bytes[150] == 1,
        shifts: bytes[151] == 1,
    }
}

fn lights_read(bytes: &[u8; BYTES]) -> Lights
    ensures { result ≡ lights_read bytes.now }
{
    Lights {
        display: bytes[152] == 1,
        cursor: bytes[153] == 1,
        blink: bytes[154] == 1,
    }
}

fn half_read(bytes: &[u8; BYTES]) -> Half
    ensures { result ≡ half_read (get_or bytes.now 155 0) (get_or bytes.now 156 0) }
{
    // 0 where no half waits.
    let number = bytes[155];
    let upper = bytes[156];
    if number == 0 {
        Half::Nothing
    } else {
        Half::Waiting(Kind::of(number - 1), upper)
    }
}

#[tactic(auto, unfolding(crate::specs::Taken::registers_read))]
pub(crate) fn registers_of(bytes: &[u8; BYTES]) -> Registers
    ensures { result ≡ registers_read bytes.now }
{
    Registers {
        counter: counter_read(bytes),
        shift: Shift(bytes[146]),
        mode: mode_read(bytes),
        entry: entry_read(bytes),
        lights: lights_read(bytes),
        bus: LineCount::from(bytes[147] == 1),
        half: half_read(bytes),
        busy: u16::from_be_bytes([bytes[157], bytes[158]]),
    }
}
