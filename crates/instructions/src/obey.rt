// What each of the nine instructions does to the registers.
ghost use Rattle.std.specs.Prelude.{◌≡◌};
ghost use Rattle.controller.specs.Part.{arranged as arranged_of};
ghost use Rattle.controller.specs.Result.{result_of};
ghost use Rattle.instructions.specs.Instructions.{homed as homed_of, rearranged as rearranged_of, obey as obey_of};

use super::instruction::Instruction;
use controller::Controller;
use controller::answer::Answer;
use controller::effect::Effect;
use controller::registers::{Entry, Mode, Registers};
use counters::LineMode;
use counters::address::DisplayAddress;
use counters::counter::Counter;
use counters::shift::Shift;
use halves::{Half, LineCount};

// Address 00 of display memory and shift 0.
fn homed(registers: Registers) -> Registers
    ensures { result ≡ homed_of registers }
{
    Registers {
        counter: Counter::Display(DisplayAddress(0x00)),
        shift: Shift(0),
        ..registers
    }
}

// Where N changes, the counter's address may no longer exist.
#[tactic(auto, using(crate::proofs::Rows::unless_by_eq), unfolding(crate::specs::Instructions::rearranged))]
fn rearranged(registers: Registers, lines: LineMode) -> Registers
    ensures { result ≡ rearranged_of lines registers }
{
    if registers.mode.lines == lines {
        registers
    } else {
        homed(registers)
    }
}

fn arranged(registers: Registers, bus: LineCount, mode: Mode) -> Registers
    ensures { result ≡ arranged_of (rearranged_of mode.lines registers) bus mode }
{
    Registers {
        mode,
        bus,
        ..rearranged(registers, mode.lines)
    }
}

#[tactic(auto, unfolding(crate::specs::Instructions::obey, crate::specs::Instructions::moved, crate::specs::Instructions::moves_past, crate::specs::Instructions::row_of))]
pub fn obey(registers: Registers, instruction: Instruction) -> Effect
    ensures { result_of result (obey_of instruction registers).change ≡ obey_of instruction registers }
{
    let mut after = registers;
    let mut ticks = Controller::SHORT;
    let mut answer = Answer::Done(0);
    let mut wrap = false;
    match instruction {
        Instruction::Nothing => {}
        Instruction::Clear => {
            let entry = Entry {
                up: true,
                ..registers.entry
            };
            after = homed(Registers { entry, ..registers });
            ticks = Controller::LONG;
        }
        Instruction::Home => {
            after = homed(registers);
            ticks = Controller::LONG;
        }
        Instruction::EntryMode(entry) => {
            after = Registers { entry, ..registers };
        }
        Instruction::OnOff(lights) => {
            after = Registers {
                lights,
                ..registers
            };
        }
        Instruction::Move { display, right } => {
            if display {
                after = Registers {
                    shift: registers.shift_moved(right),
                    ..registers
                };
            } else {
                let stepped = registers.counter_stepped(right);
                let counter = stepped.counter;
                after = Registers {
                    counter,
                    ..registers
                };
                wrap = stepped.wrap;
            }
        }
        Instruction::FunctionSet(bus, mode) => {
            after = arranged(registers, bus, mode);
        }
        Instruction::SetCharacter(address) => {
            after = Registers {
                counter: Counter::Character(address),
                ..registers
            };
        }
        Instruction::SetDisplay(address) => {
            if address.exists(registers.mode.lines) {
                after = Registers {
                    counter: Counter::Display(address),
                    ..registers
                };
            } else {
                ticks = registers.busy;
                answer = Answer::NoSuchAddress;
            }
        }
    }
    Effect {
        registers: Registers {
            half: Half::Nothing,
            busy: ticks,
            ..after
        },
        answer,
        wrap,
    }
}
