// One event with the memories lent, so that nothing is copied.
// The registers go by value: with one `&mut Controller`, or a `&mut Registers`, an event takes a twentieth to a third more instructions.
ghost use Rattle.std.specs.Prelude.{true, ◌≡◌};
ghost use Rattle.controller.specs.Part.{with, in_range};
ghost use Rattle.controller.specs.Told.{told_with};
ghost use Rattle.bus.specs.Events.{told_by};
ghost use Rattle.bus.specs.Transfer.{transfer_of};

use controller::answer::Answer;
use controller::effect::Effect;
use controller::registers::Registers;
use event::{Event, Kind};

#[tactic(auto, using(condition::proofs::Tests::holds, crate::proofs::Free::transfer_steps), unfolding(crate::specs::Transfer::transfer_of, step::specs::Step::result_for, controller::specs::Memory::display_after, controller::specs::Memory::character_after))]
pub(crate) fn transferred(
    display: &mut [u8; 80],
    character: &mut [u8; 64],
    registers: Registers,
    kind: Kind,
    value: u8,
) -> Effect
    requires { in_range registers ≡ true }
    ensures { told_with display.new character.new result ≡ transfer_of (with display.old character.old registers) kind value }
{
    let mut after = registers;
    let mut answer = Answer::Busy;
    let mut wrap = false;
    if !step::refused_busy(registers, kind) {
        let effect = step::step(display, character, registers, kind, value);
        after = effect.registers;
        answer = effect.answer;
        wrap = effect.wrap;
    }
    Effect {
        registers: after,
        answer,
        wrap,
    }
}

// Whoever gives many events tests the range once: a turn keeps it.
pub fn turn(
    display: &mut [u8; 80],
    character: &mut [u8; 64],
    registers: Registers,
    event: Event,
) -> Effect
    requires { in_range registers ≡ true }
    ensures { (told_with display.new character.new result ≡ told_by event (with display.old character.old registers)) × (in_range result.registers ≡ true) }
{
    let mut after = registers;
    let mut answer = Answer::Done(0);
    let mut wrap = false;
    match event {
        Event::Transfer(kind, value) => {
            let effect = transferred(display, character, registers, kind, value);
            after = effect.registers;
            answer = effect.answer;
            wrap = effect.wrap;
        }
        Event::Wait(ticks) => {
            after = registers.waited(ticks);
        }
    }
    Effect {
        registers: after,
        answer,
        wrap,
    }
}
