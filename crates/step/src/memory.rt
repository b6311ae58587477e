// The two memories, lent: the byte that the counter addresses, and the changes that a transfer can make.
ghost use Rattle.std.specs.Prelude.{eqb, replicate, true, cond, ◌≡◌};
ghost use Rattle.controller.specs.Memory.{byte_at, store_at, display_after, character_after};
ghost use Rattle.counters.specs.Counter.{has_counter};

use controller::registers::Registers;
use counters::counter::Counter;

// The byte that the counter addresses.
#[tactic(auto, using(crate::proofs::Stored::cell_below, crate::proofs::Stored::character_below, crate::proofs::Stored::cell_read, crate::proofs::Stored::character_read))]
pub(crate) fn addressed(display: &[u8; 80], character: &[u8; 64], registers: Registers) -> u8
    requires { has_counter registers.mode.lines registers.counter ≡ true }
    ensures { result ≡ byte_at registers.mode.lines registers.counter display.now character.now }
{
    match registers.counter {
        Counter::Display(address) => display[address.cell(registers.mode.lines).0 as usize],
        Counter::Character(address) => character[address.0 as usize],
    }
}

// A byte stored where the counter points.
#[tactic(auto, using(crate::proofs::Stored::cell_below, crate::proofs::Stored::character_below))]
pub(crate) fn store(
    display: &mut [u8; 80],
    character: &mut [u8; 64],
    registers: Registers,
    byte: u8,
)
    requires { has_counter registers.mode.lines registers.counter ≡ true }
    ensures { (display.new ≡ display_after (store_at registers.mode.lines registers.counter byte) display.old) × (character.new ≡ character_after (store_at registers.mode.lines registers.counter byte) character.old) }
{
    match registers.counter {
        Counter::Display(address) => {
            display[address.cell(registers.mode.lines).0 as usize] = byte;
        }
        Counter::Character(address) => {
            character[address.0 as usize] = byte;
        }
    }
}

// Clear is the byte 01; no other instruction changes a memory.
pub(crate) fn clear(display: &mut [u8; 80], byte: u8)
    ensures { display.new ≡ cond (eqb byte 0x01) (replicate 80 0x20) display.old }
{
    if byte == 0x01 {
        *display = [0x20; 80];
    }
}
