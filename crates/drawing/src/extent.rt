// How many bytes a drawing and its parts have.
ghost use Rattle.std.specs.Prelude.{◌*◌, ◌≤◌, ◌<◌, length, ◌≡◌};
ghost use Rattle.size.specs.Size.{rows_of};
ghost use Rattle.drawing.specs.Drawing.{height_of, head_of, most_drawn};
ghost use Rattle.drawing.specs.Promises.{row_size, gap_size, lines_size, size_of};
ghost use Rattle.drawing.specs.Row.{width_of};

use super::form::Form;
use super::layout::Layout;
use counters::LineMode;
use size::row_count;
use text::digit_count;

impl Layout {
    pub(crate) fn width(self) -> usize
        ensures { (result ≡ width_of self.digits) × (result ≤ 479) }
    {
        6 * self.digits - 1
    }

    #[tactic(auto, unfolding(size::specs::Size::lines_of))]
    pub(crate) fn height(self) -> usize
        ensures { (result ≡ height_of self.mode) × (result < 100) }
    {
        let rows = row_count(self.mode);
        match self.mode.lines {
            LineMode::One => rows,
            LineMode::Two => 2 * rows + 1,
        }
    }

    #[tactic(auto, using(crate::proofs::Lengths::length_head), unfolding(crate::specs::Drawing::head_of))]
    fn head_size(self) -> usize
        ensures { (result ≡ length (head_of self.form (width_of self.digits) (height_of self.mode))) × (result ≤ 15) }
    {
        match self.form {
            Form::Text => 0,
            Form::Image => {
                5 + digit_count(self.width() as u16) + digit_count(self.height() as u16)
            }
        }
    }

    #[tactic(auto, unfolding(crate::specs::Promises::row_size))]
    pub(crate) fn row_size(self) -> usize
        ensures { (result ≡ row_size self.form self.digits) × (result ≤ 480) }
    {
        match self.form {
            Form::Text => 6 * self.digits,
            Form::Image => self.width().div_ceil(8),
        }
    }

    #[tactic(auto, unfolding(crate::specs::Promises::gap_size))]
    pub(crate) fn gap_size(self) -> usize
        ensures { (result ≡ gap_size self.form self.digits) × (result ≤ 480) }
    {
        match self.form {
            Form::Text => 1,
            Form::Image => self.row_size(),
        }
    }

    // All rows of one line of the picture.
    pub(crate) fn line_size(self) -> usize
        ensures { (result ≡ rows_of self.mode * row_size self.form self.digits) × (result ≤ most_drawn) }
    {
        row_count(self.mode) * self.row_size()
    }

    #[tactic(auto, unfolding(crate::specs::Promises::lines_size))]
    fn lines_size(self) -> usize
        ensures { (result ≡ lines_size self.mode.lines (gap_size self.form self.digits) (rows_of self.mode * row_size self.form self.digits)) × (result ≤ 3 * most_drawn) }
    {
        let line = self.line_size();
        match self.mode.lines {
            LineMode::One => line,
            LineMode::Two => line + (self.gap_size() + line),
        }
    }

    #[tactic(auto, unfolding(crate::specs::Promises::size_of))]
    pub(crate) fn byte_size(self) -> usize
        ensures { result ≡ size_of self.form self.mode self.digits }
    {
        self.head_size() + self.lines_size()
    }
}
