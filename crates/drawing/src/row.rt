// One row of dots, as text or as bits.
ghost use Rattle.std.specs.Prelude.{◌+◌, ◌≤◌, ◌/◌, length, get_or, ◌≡◌};
ghost use Rattle.drawing.specs.Drawing.{row_in, gap_in};
ghost use Rattle.drawing.specs.Promises.{row_size, gap_size};
ghost use Rattle.drawing.specs.Row.{width_of, is_on, mark_of, text_row, bit_at, packed, image_row};

use super::form::Form;
use super::layout::Layout;

// Leftmost dot is bit 4; the sixth column of a digit is blank.
#[tactic(auto, unfolding(crate::specs::Row::is_on))]
fn is_on(byte: u8, column: usize) -> bool
    ensures { result ≡ is_on byte column }
{
    if 5 <= column {
        return false;
    }
    (byte >> (4 - column)) % 2 == 1
}

#[tactic(auto, unfolding(crate::specs::Row::mark_of))]
fn mark(byte: u8, column: usize) -> u8
    ensures { result ≡ mark_of byte column }
{
    if 5 <= column {
        return b' ';
    }
    if is_on(byte, column) { b'#' } else { b'.' }
}

impl Layout {
    #[tactic(auto, using(lent::proofs::Lists::filled_start, crate::proofs::Rows::values_end), unfolding(crate::specs::Row::text_row))]
    fn draw_text(self, dots: &[u8], out: &mut [u8])
        requires { (self.digits ≤ length dots.now) × (length out.old ≡ width_of self.digits + 1) }
        ensures { out.new ≡ text_row self.digits (λ digit. get_or dots.now digit 0) }
    {
        let width = self.width();
        for x in 0..width {
            out[x] = mark(dots[x / 6], x % 6);
        }
        out[width] = b'\n';
    }

    #[tactic(auto, unfolding(crate::specs::Row::bit_at))]
    fn bit(self, dots: &[u8], x: usize) -> u8
        requires { self.digits ≤ length dots.now }
        ensures { (result ≡ bit_at self.digits (λ digit. get_or dots.now digit 0) x) × (result ≤ 1) }
    {
        if self.width() <= x {
            return 0;
        }
        u8::from(is_on(dots[x / 6], x % 6))
    }

    // The eight columns from x on, the leftmost in the highest bit.
    #[tactic(auto, using(crate::proofs::Rows::below_128, crate::proofs::Rows::packed_small, crate::proofs::Rows::packed_next), unfolding(crate::specs::Row::packed))]
    fn eight(self, dots: &[u8], x: usize) -> u8
        requires { (self.digits ≤ length dots.now) × (x ≤ 480) }
        ensures { result ≡ packed 8 (λ n. bit_at self.digits (λ digit. get_or dots.now digit 0) (x + n)) }
    {
        let mut byte = 0;
        for n in 0..8 {
            byte = 2 * byte + self.bit(dots, x + n);
        }
        byte
    }

    #[tactic(auto, using(lent::proofs::Lists::filled_start, lent::proofs::Lists::filled_whole), unfolding(crate::specs::Row::image_row))]
    fn draw_bits(self, dots: &[u8], out: &mut [u8])
        requires { (self.digits ≤ length dots.now) × (length out.old ≡ (width_of self.digits + 7) / 8) }
        ensures { out.new ≡ image_row self.digits (λ digit. get_or dots.now digit 0) }
    {
        for (k, byte) in out.iter_mut().enumerate() {
            *byte = self.eight(dots, 8 * k);
        }
    }

    // The row at the front of `dots`.
    #[tactic(auto, unfolding(crate::specs::Promises::row_size))]
    pub(crate) fn draw_row(self, dots: &[u8], out: &mut [u8])
        requires { (self.digits ≤ length dots.now) × (length out.old ≡ row_size self.form self.digits) }
        ensures { out.new ≡ row_in self.form self.digits (λ digit. get_or dots.now digit 0) }
    {
        match self.form {
            Form::Text => self.draw_text(dots, out),
            Form::Image => self.draw_bits(dots, out),
        }
    }

    // What stands between the two lines of the picture.
    #[tactic(auto, using(crate::proofs::Rows::set_only), unfolding(crate::specs::Promises::gap_size, crate::specs::Promises::row_size, crate::specs::Drawing::gap_in))]
    pub(crate) fn draw_gap(self, out: &mut [u8])
        requires { length out.old ≡ gap_size self.form self.digits }
        ensures { out.new ≡ gap_in self.form self.digits }
    {
        match self.form {
            Form::Text => out[0] = b'\n',
            Form::Image => self.draw_bits(&[0u8; 80], out),
        }
    }
}
