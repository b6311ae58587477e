// Memories and counters: addresses on the bus, cells of storage, the counter and the shift, as the line mode orders them.
#![tactic(auto)]

ghost use Rattle.std.specs.Prelude.{◌≡◌};
ghost use Rattle.counters.specs.Address.{line_mode};
ghost use Rattle.counters.specs.Shift.{last_shift};

pub mod address;
pub mod counter;
pub mod shift;
mod wrap;

// N: how many lines the screen has.
#[derive(Clone, Copy, PartialEq, Eq)]
pub enum LineMode {
    One,
    Two,
}

// N = 0 is one line.
impl From<bool> for LineMode {
    ghost from_gives = { λ two mode. mode ≡ line_mode two };

    fn from(two: bool) -> LineMode {
        if two { LineMode::Two } else { LineMode::One }
    }
}

impl LineMode {
    // The largest shift.
    #[tactic(auto, unfolding(crate::specs::Shift::last_shift))]
    pub(crate) fn last_shift(self) -> u8
        ensures { result ≡ last_shift self }
    {
        match self {
            LineMode::One => 79,
            LineMode::Two => 39,
        }
    }
}
