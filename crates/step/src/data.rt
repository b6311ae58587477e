// Data and status: what a data write, a data read and a status read do to the registers, and what they read.
ghost use Rattle.std.specs.Prelude.{true, ◌≡◌};
ghost use Rattle.counters.specs.Counter.{has_counter};
ghost use Rattle.step.specs.Acted.{stepped_to};
ghost use Rattle.step.specs.Data.{shift_after, status_of};

use controller::Controller;
use controller::answer::Answer;
use controller::effect::Effect;
use controller::registers::Registers;
use counters::counter::Counter;
use counters::shift::Shift;

// A write to display memory moves the display where shift on write is set.
#[tactic(auto, using(condition::proofs::Tests::met), unfolding(crate::specs::Data::shift_after))]
pub(crate) fn shift_after(registers: Registers) -> Shift
    ensures { result ≡ shift_after registers.counter registers }
{
    match registers.counter {
        Counter::Display(_) => {
            if registers.entry.shifts {
                registers.shift_moved(!registers.entry.up)
            } else {
                registers.shift
            }
        }
        Counter::Character(_) => registers.shift,
    }
}

// Data is done: this was read, the counter is stepped in the set direction, and this is the shift that the display then has.
pub(crate) fn stepped_to(registers: Registers, shift: Shift, read: u8) -> Effect
    ensures { result ≡ stepped_to shift read registers }
{
    let step = registers.counter_stepped(registers.entry.up);
    Effect {
        registers: Registers {
            counter: step.counter,
            shift,
            busy: Controller::SHORT,
            ..registers
        },
        answer: Answer::Done(read),
        wrap: step.wrap,
    }
}

// 128 if busy, plus the address.
#[tactic(auto, using(condition::proofs::Tests::holds, counters::proofs::Laws::number_below), unfolding(crate::specs::Data::status_of))]
pub(crate) fn status(registers: Registers) -> u8
    requires { has_counter registers.mode.lines registers.counter ≡ true }
    ensures { result ≡ status_of registers }
{
    let address = registers.counter.number();
    if registers.busy == 0 {
        address
    } else {
        128 + address
    }
}
