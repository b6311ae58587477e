// The registers: all of the part but its two memories.
ghost use Rattle.std.specs.Prelude.{◌≡◌};
ghost use Rattle.counters.specs.Counter.{stepped_of};
ghost use Rattle.controller.specs.Part.{in_range, waited as waited_of, shift_moved};

use super::Controller;
use counters::LineMode;
use counters::counter::{Counter, Stepped};
use counters::shift::Shift;
use halves::{Half, LineCount};

// N and F.
#[derive(Clone, Copy, PartialEq, Eq)]
pub struct Mode {
    pub lines: LineMode,
    pub tall: bool,
}

// The direction, and shift on write.
#[derive(Clone, Copy, PartialEq, Eq)]
pub struct Entry {
    pub up: bool,
    pub shifts: bool,
}

#[derive(Clone, Copy, PartialEq, Eq)]
pub struct Lights {
    pub display: bool,
    pub cursor: bool,
    pub blink: bool,
}

#[derive(Clone, Copy, PartialEq, Eq)]
pub struct Registers {
    pub counter: Counter,
    pub shift: Shift,
    pub mode: Mode,
    pub entry: Entry,
    pub lights: Lights,
    pub bus: LineCount,
    pub half: Half,
    pub busy: u16,
}

impl Registers {
    #[tactic(auto, unfolding(crate::specs::Part::in_range))]
    pub fn in_range(self) -> bool
        ensures { result ≡ in_range self }
    {
        let lines = self.mode.lines;
        self.counter.exists(lines)
            & (self.shift.exists(lines)
                & (self.half.fits(self.bus) & (self.busy <= Controller::LONGEST)))
    }

    #[tactic(auto, unfolding(crate::specs::Part::waited))]
    pub fn waited(self, ticks: u16) -> Registers
        ensures { result ≡ waited_of self ticks }
    {
        Registers {
            busy: self.busy.saturating_sub(ticks),
            ..self
        }
    }

    // The counter one step on, and whether it passed an end.
    pub fn counter_stepped(self, up: bool) -> Stepped
        ensures { result ≡ stepped_of self.mode.lines up self.counter }
    {
        self.counter.step(self.mode.lines, up)
    }

    // The shift once the display has moved.
    pub fn shift_moved(self, right: bool) -> Shift
        ensures { result ≡ shift_moved right self }
    {
        self.shift.moved(self.mode.lines, right)
    }
}
