// The address counter, which belongs to one of the two memories.
ghost use Rattle.std.specs.Prelude.{◌≡◌};
ghost use Rattle.counters.specs.Counter.{has_counter, stepped_of, number_on};

use super::LineMode;
use super::address::{CharacterAddress, DisplayAddress};

#[derive(Clone, Copy, PartialEq, Eq)]
pub enum Counter {
    Display(DisplayAddress),
    Character(CharacterAddress),
}

// One step: the counter behind it, and whether it passed an end. A transfer's effect carries an answer too, so that the two are no one type.
#[derive(Clone, Copy, PartialEq, Eq)]
pub struct Stepped {
    pub counter: Counter,
    pub wrap: bool,
}

impl Counter {
    #[tactic(auto, unfolding(crate::specs::Counter::has_counter))]
    pub fn exists(self, mode: LineMode) -> bool
        ensures { result ≡ has_counter mode self }
    {
        match self {
            Counter::Display(a) => a.exists(mode),
            Counter::Character(a) => a.exists(),
        }
    }

    // One step within its memory, up or down.
    #[tactic(auto, unfolding(crate::specs::Counter::step_of, crate::specs::Counter::passes_of))]
    pub fn step(self, mode: LineMode, up: bool) -> Stepped
        ensures { result ≡ stepped_of mode up self }
    {
        match self {
            Counter::Display(a) => Stepped {
                counter: Counter::Display(a.step(mode, up)),
                wrap: a.passes(mode, up),
            },
            Counter::Character(a) => Stepped {
                counter: Counter::Character(a.step(up)),
                wrap: a.passes(up),
            },
        }
    }

    // The address as a number, whatever memory it belongs to: a part of the counter and no conversion.
    #[tactic(auto, unfolding(crate::specs::Counter::number_on))]
    pub fn number(self) -> u8
        ensures { result ≡ number_on self }
    {
        match self {
            Counter::Display(a) => a.0,
            Counter::Character(a) => a.0,
        }
    }
}
