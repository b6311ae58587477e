// The cell that a digit shows.
ghost use Rattle.std.specs.Prelude.{◌<◌, ◌≡◌};
ghost use Rattle.dots.specs.Digit.{shown_on};

use super::place::Place;
use counters::LineMode;
use counters::address::Cell;

// As the sheet draws it: up to the end of the line, then from its start again. With one line there is line 0 alone.
#[tactic(auto, unfolding(size::specs::Size::most_digits, size::specs::Size::lines_of, crate::specs::Digit::shown_on))]
pub(crate) fn shown(place: Place, digit: u8) -> Cell
    requires { digit < place.size.digits }
    ensures { (result ≡ shown_on place.lines place.shift place.line digit) × (result.0 < 80) }
{
    let lines = place.lines;
    let n = place.shift.0;
    let length = match lines {
        LineMode::One => 80,
        LineMode::Two => 40,
    };
    let end = length - n;
    if digit < end {
        Cell(40 * place.line + (n + digit))
    } else {
        Cell(40 * place.line + (digit - end))
    }
}
