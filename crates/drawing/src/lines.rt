// The lines of the picture, one behind the other.
ghost use Rattle.std.specs.Prelude.{◌*◌, ◌≤◌, length, ◌≡◌};
ghost use Rattle.size.specs.Size.{rows_of, bytes_of};
ghost use Rattle.drawing.specs.Drawing.{gap_in, between, line_in, drawing_of};
ghost use Rattle.drawing.specs.Promises.{row_size, gap_size, lines_size, size_of};

use super::layout::Layout;
use counters::LineMode;
use size::row_count;

impl Layout {
    // The line at the front of `dots`.
    #[tactic(auto, using(lent::proofs::Lists::length_lent, lent::proofs::Lists::taken_whole, crate::proofs::Lengths::rest_lent), unfolding(crate::specs::Drawing::line_in))]
    fn draw_line(self, dots: &[u8], out: &mut [u8])
        requires { (rows_of self.mode * self.digits ≤ length dots.now) × (length out.old ≡ rows_of self.mode * row_size self.form self.digits) }
        ensures { out.new ≡ line_in self.form (rows_of self.mode) self.digits dots.now 0 }
    {
        let size = self.row_size();
        for row in 0..row_count(self.mode) {
            let at = row * size;
            self.draw_row(&dots[row * self.digits..], &mut out[at..at + size]);
        }
    }

    // The lines, and what stands between two of them.
    #[tactic(auto, using(crate::proofs::Lengths::line_behind), unfolding(size::specs::Size::lines_of, size::specs::Size::rows_in, crate::specs::Promises::lines_size, crate::specs::Drawing::between))]
    fn draw_lines(self, dots: &[u8], out: &mut [u8])
        requires { (bytes_of self.mode self.digits ≤ length dots.now) × (length out.old ≡ lines_size self.mode.lines (gap_size self.form self.digits) (rows_of self.mode * row_size self.form self.digits)) }
        ensures { out.new ≡ between self.mode.lines (gap_in self.form self.digits) (line_in self.form (rows_of self.mode) self.digits dots.now) }
    {
        match self.mode.lines {
            LineMode::One => self.draw_line(dots, out),
            LineMode::Two => {
                let (first, rest) = out.split_at_mut(self.line_size());
                let (gap, second) = rest.split_at_mut(self.gap_size());
                self.draw_line(dots, first);
                self.draw_gap(gap);
                self.draw_line(&dots[row_count(self.mode) * self.digits..], second);
            }
        }
    }

    #[tactic(auto, using(lent::proofs::Returned::behind_put, crate::proofs::Lengths::rest_lent), unfolding(crate::specs::Promises::size_of, crate::specs::Drawing::drawing_of))]
    pub(crate) fn draw_whole(self, dots: &[u8], out: &mut [u8])
        requires { (bytes_of self.mode self.digits ≤ length dots.now) × (length out.old ≡ size_of self.form self.mode self.digits) }
        ensures { out.new ≡ drawing_of self.form self.mode self.digits dots.now }
    {
        let at = self.put_head(out);
        self.draw_lines(dots, &mut out[at..]);
    }
}
