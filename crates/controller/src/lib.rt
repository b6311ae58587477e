// The character controller: two memories and a handful of registers.
#![tactic(auto)]

ghost use Rattle.std.specs.Prelude.{◌≡◌};
ghost use Rattle.controller.specs.Part.{switched_on};

pub mod answer;
pub mod effect;
pub mod registers;

use counters::LineMode;
use counters::address::DisplayAddress;
use counters::counter::Counter;
use counters::shift::Shift;
use halves::{Half, LineCount};
use registers::{Entry, Lights, Mode, Registers};

#[derive(Clone, Copy)]
pub struct Controller {
    pub display: [u8; 80],
    pub character: [u8; 64],
    pub registers: Registers,
}

impl Controller {
    // Busy ticks once switched on; busy time never exceeds them.
    pub const LONGEST: u16 = 3750;

    // Busy ticks of clear and home.
    pub const LONG: u16 = 410;

    // Busy ticks of every other instruction and of data.
    pub const SHORT: u16 = 10;

    #[tactic(auto, unfolding(crate::specs::Part::switched_on, crate::specs::Part::fresh_with, crate::specs::Part::fresh_registers))]
    pub fn switched_on() -> Controller
        ensures { result ≡ switched_on }
    {
        Controller {
            display: [0x20; 80],
            character: [0; 64],
            registers: Registers {
                counter: Counter::Display(DisplayAddress(0x00)),
                shift: Shift(0),
                mode: Mode {
                    lines: LineMode::One,
                    tall: false,
                },
                entry: Entry {
                    up: true,
                    shifts: false,
                },
                lights: Lights {
                    display: false,
                    cursor: false,
                    blink: false,
                },
                bus: LineCount::Eight,
                half: Half::Nothing,
                busy: Controller::LONGEST,
            },
        }
    }
}
