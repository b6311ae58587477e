// What an image starts with.
ghost use Rattle.std.specs.Prelude.{◌≤◌, length};
ghost use Rattle.lent.specs.Put.{Puts};
ghost use Rattle.drawing.specs.Drawing.{height_of, head_of};
ghost use Rattle.drawing.specs.Row.{width_of};

use super::form::Form;
use super::layout::Layout;
use text::{put_number, put_text};

impl Layout {
    #[tactic(auto, using(crate::proofs::Lengths::length_head), unfolding(crate::specs::Drawing::head_of, lent::specs::Put::put_at))]
    pub(crate) fn put_head(self, out: &mut [u8]) -> usize
        requires { length (head_of self.form (width_of self.digits) (height_of self.mode)) ≤ length out.old }
        ensures { Puts (head_of self.form (width_of self.digits) (height_of self.mode)) 0 out.old result out.new }
    {
        match self.form {
            Form::Text => 0,
            Form::Image => {
                let next = put_text(b"P4\n", 0, out);
                let next = put_number(self.width() as u16, b' ', next, out);
                put_number(self.height() as u16, b'\n', next, out)
            }
        }
    }
}
