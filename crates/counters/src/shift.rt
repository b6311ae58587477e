// The shift: how far the display is moved to the left.
ghost use Rattle.std.specs.Prelude.{◌≡◌};
ghost use Rattle.counters.specs.Shift.{has_shift, move_of};

use super::LineMode;
use super::wrap::wrapped;

#[derive(Clone, Copy, PartialEq, Eq)]
pub struct Shift(pub u8);

impl Shift {
    #[tactic(auto, unfolding(crate::specs::Shift::has_shift))]
    pub fn exists(self, mode: LineMode) -> bool
        ensures { result ≡ has_shift mode self }
    {
        self.0 <= mode.last_shift()
    }

    // One move of the display: left adds 1, right subtracts 1.
    #[tactic(auto, unfolding(crate::specs::Shift::move_of))]
    pub fn moved(self, mode: LineMode, right: bool) -> Shift
        ensures { result ≡ move_of mode right self }
    {
        Shift(wrapped(!right, mode.last_shift(), self.0))
    }
}
