// A line of the picture: the line mode and the shift that it is drawn by, which line it is, and how large.
ghost use Rattle.std.specs.Prelude.{◌≤◌, ◌<◌};
ghost use Rattle.size.specs.Size.{lines_of, most_digits};

use super::extent::Size;
use counters::LineMode;
use counters::shift::Shift;

#[derive(Clone, Copy)]
pub(crate) struct Place {
    pub(crate) lines: LineMode,
    pub(crate) shift: Shift,
    pub(crate) line: u8,
    pub(crate) size: Size,
    ghost shifted: { shift.0 < most_digits lines },
    ghost there: { line < lines_of lines },
    ghost counted: { size.digits ≤ most_digits lines },
}
