// The blink phase.
ghost use Rattle.std.specs.Prelude.{◌≡◌};
ghost use Rattle.dots.specs.Dots.{is_dark, is_phase_of};

#[derive(Clone, Copy, PartialEq, Eq)]
pub enum Phase {
    Plain,
    Dark,
}

impl Phase {
    #[tactic(auto, unfolding(crate::specs::Dots::is_dark))]
    pub(crate) fn is_dark(self) -> bool
        ensures { result ≡ is_dark self }
    {
        self == Phase::Dark
    }
}

// Whether it is dark.
impl From<bool> for Phase {
    ghost from_gives = { is_phase_of };

    fn from(dark: bool) -> Phase {
        if dark { Phase::Dark } else { Phase::Plain }
    }
}
