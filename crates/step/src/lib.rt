// One transfer with the memories lent: halves, then the whole byte, each change made where it is decided.
// The registers go by value beside the memories (bus/src/turn.rt says why). That they are in range is a clause, here and in
// what lies beside, and no type: an effect holds plain registers, since `obey` takes any.
#![tactic(auto)]

ghost use Rattle.std.specs.Prelude.{◌*◌, true, false, ◌≡◌};
ghost use Rattle.controller.specs.Part.{with, in_range};
ghost use Rattle.controller.specs.Told.{told_with};
ghost use Rattle.halves.specs.Halves.{upper};
ghost use Rattle.step.specs.Acted.{read_from, acted};
ghost use Rattle.step.specs.Step.{refused_busy, stepped};

mod data;
mod memory;

use controller::answer::Answer;
use controller::effect::Effect;
use controller::registers::Registers;
use event::Kind;
use halves::{Half, answered};
use instructions::instruction::decode;
use instructions::obey::obey;

// A whole byte, as on eight lines; no half waits any more.
#[tactic(auto, using(controller::proofs::Ranged::counter_exists))]
fn act(
    display: &mut [u8; 80],
    character: &mut [u8; 64],
    registers: Registers,
    kind: Kind,
    byte: u8,
) -> Effect
    requires { (in_range registers ≡ true) × (registers.half ≡ Half.Nothing) }
    ensures { told_with display.new character.new result ≡ acted (with display.old character.old registers) kind byte }
{
    // One exit, here as in every function of the step: arms that each end in an effect of their own are merged through memory.
    let bus = registers.bus;
    let mut after = registers;
    let mut answer = Answer::Done(0);
    let mut wrap = false;
    // Four kinds, as the paper has them: a match, here and below, and no table of steps.
    match kind {
        Kind::InstructionWrite => {
            memory::clear(display, byte);
            let effect = obey(registers, decode(byte));
            after = effect.registers;
            answer = effect.answer;
            wrap = effect.wrap;
        }
        Kind::DataWrite => {
            memory::store(display, character, registers, byte);
            let effect = data::stepped_to(registers, data::shift_after(registers), 0);
            after = effect.registers;
            answer = effect.answer;
            wrap = effect.wrap;
        }
        Kind::StatusRead => {
            answer = Answer::Done(answered(bus, data::status(registers)));
        }
        Kind::DataRead => {
            let read = memory::addressed(&*display, &*character, registers);
            let effect = data::stepped_to(registers, registers.shift, answered(bus, read));
            after = effect.registers;
            answer = effect.answer;
            wrap = effect.wrap;
        }
    }
    Effect {
        registers: after,
        answer,
        wrap,
    }
}

// What the first half of a byte answers: the upper half of the value read.
#[tactic(auto, using(controller::proofs::Ranged::counter_exists), unfolding(crate::specs::Data::read_of))]
fn upper_read(display: &[u8; 80], character: &[u8; 64], registers: Registers, kind: Kind) -> u8
    requires { in_range registers ≡ true }
    ensures { result ≡ upper (read_from (with display.now character.now registers) kind) * 16 }
{
    match kind {
        Kind::InstructionWrite | Kind::DataWrite => 0,
        Kind::StatusRead => data::status(registers) / 16 * 16,
        Kind::DataRead => memory::addressed(display, character, registers) / 16 * 16,
    }
}

// Only a status read is taken while the part is busy.
#[tactic(auto, unfolding(crate::specs::Step::refused_busy))]
pub fn refused_busy(registers: Registers, kind: Kind) -> bool
    ensures { result ≡ refused_busy registers kind }
{
    (registers.busy != 0) & !kind.is_status()
}

// A transfer that is not refused with 1.
#[tactic(auto, using(controller::proofs::Ranged::upper_small, controller::proofs::Ranged::unhalved_in_range))]
pub fn step(
    display: &mut [u8; 80],
    character: &mut [u8; 64],
    registers: Registers,
    kind: Kind,
    value: u8,
) -> Effect
    requires { (in_range registers ≡ true) × (refused_busy registers kind ≡ false) }
    ensures { told_with display.new character.new result ≡ stepped (with display.old character.old registers) kind value }
{
    let bus = registers.bus;
    let half = registers.half;
    let mut after = Registers {
        half: Half::Nothing,
        ..registers
    };
    let mut answer = Answer::HalvesDisagree;
    let mut wrap = false;
    if half.is_first(bus) {
        after = Registers {
            half: Half::of(kind, value),
            ..registers
        };
        answer = Answer::FirstHalf(upper_read(&*display, &*character, registers, kind));
    } else if !half.disagrees(bus, kind) {
        let byte = half.completed(bus, value);
        let effect = act(display, character, after, kind, byte);
        after = effect.registers;
        answer = effect.answer;
        wrap = effect.wrap;
    }
    Effect {
        registers: after,
        answer,
        wrap,
    }
}
