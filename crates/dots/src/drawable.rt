// What is drawn: the part, the digits of each line and the blink phase.
ghost use Rattle.std.specs.Prelude.{◌≤◌, ◌<◌};
ghost use Rattle.size.specs.Size.{most_digits};

use super::phase::Phase;
use controller::Controller;

// What the tests before a picture tell: the shift exists, the digits are there.
#[derive(Clone, Copy)]
pub struct Drawable {
    pub controller: Controller,
    pub digits: u8,
    pub phase: Phase,
    pub ghost shifted: { controller.registers.shift.0 < most_digits controller.registers.mode.lines },
    pub ghost counted: { digits ≤ most_digits controller.registers.mode.lines },
}
