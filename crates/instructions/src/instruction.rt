// The nine instructions: in a byte written with RS = 0 the highest bit that is set decides.
ghost use Rattle.std.specs.Prelude.{◌≡◌};
ghost use Rattle.instructions.specs.Instructions.{decode as decode_of};

use controller::registers::{Entry, Lights, Mode};
use counters::LineMode;
use counters::address::{CharacterAddress, DisplayAddress};
use halves::LineCount;

#[derive(Clone, Copy, PartialEq, Eq)]
pub enum Instruction {
    Nothing,
    Clear,
    Home,
    EntryMode(Entry),
    OnOff(Lights),
    Move { display: bool, right: bool },
    FunctionSet(LineCount, Mode),
    SetCharacter(CharacterAddress),
    SetDisplay(DisplayAddress),
}

#[tactic(auto, unfolding(crate::specs::Instructions::decode, crate::specs::Instructions::bit))]
pub fn decode(byte: u8) -> Instruction
    ensures { result ≡ decode_of byte }
{
    match byte {
        0x00 => Instruction::Nothing,
        0x01 => Instruction::Clear,
        0x02..=0x03 => Instruction::Home,
        0x04..=0x07 => Instruction::EntryMode(Entry {
            up: byte / 2 % 2 == 1,
            shifts: byte % 2 == 1,
        }),
        0x08..=0x0f => Instruction::OnOff(Lights {
            display: byte / 4 % 2 == 1,
            cursor: byte / 2 % 2 == 1,
            blink: byte % 2 == 1,
        }),
        0x10..=0x1f => Instruction::Move {
            display: byte / 8 % 2 == 1,
            right: byte / 4 % 2 == 1,
        },
        0x20..=0x3f => Instruction::FunctionSet(
            LineCount::from(byte / 16 % 2 == 1),
            Mode {
                lines: LineMode::from(byte / 8 % 2 == 1),
                tall: byte / 4 % 2 == 1,
            },
        ),
        0x40..=0x7f => Instruction::SetCharacter(CharacterAddress(byte % 64)),
        0x80..=0xff => Instruction::SetDisplay(DisplayAddress(byte % 128)),
    }
}
