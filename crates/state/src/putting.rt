// The registers as the fifteen bytes behind the memories.
ghost use Rattle.std.specs.Prelude.{◌≡◌};
ghost use Rattle.state.specs.State.{registers_put};

use controller::registers::Registers;
use counters::LineMode;
use counters::counter::Counter;
use halves::{Half, LineCount};

#[tactic(auto, using(condition::proofs::Flag::flag_number_lem), unfolding(crate::specs::State::registers_put))]
pub(crate) fn registers_put(registers: Registers) -> [u8; 15]
    ensures { result ≡ registers_put registers }
{
    let counter = registers.counter;
    let mode = registers.mode;
    let entry = registers.entry;
    let lights = registers.lights;
    // 0 where no half waits, else one more than its kind's number in a bench record.
    let (half, upper) = match registers.half {
        Half::Nothing => (0, 0),
        Half::Waiting(kind, upper) => (u8::from(kind) + 1, upper),
    };
    let [high, low] = registers.busy.to_be_bytes();
    [
        matches!(counter, Counter::Character(_)) as u8,
        counter.number(),
        registers.shift.0,
        (registers.bus == LineCount::Eight) as u8,
        (mode.lines == LineMode::Two) as u8,
        mode.tall as u8,
        entry.up as u8,
        entry.shifts as u8,
        lights.display as u8,
        lights.cursor as u8,
        lights.blink as u8,
        half,
        upper,
        high,
        low,
    ]
}
