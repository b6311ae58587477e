// The picture as something to look at: text, or a raw PBM image.
#![tactic(auto)]

ghost use Rattle.drawing.specs.Answers.{Drawing};

mod extent;
mod form;
mod head;
mod layout;
mod lines;
mod row;

use controller::registers::Mode;
pub use form::Form;
use layout::Layout;
use refusal::Refusal;
use size::{byte_count, has_digits};

// The text of 11 rows of 80 digits: no drawing has more.
pub const MOST_BYTES: usize = 5280;

// The drawing of the picture at the front of `dots`, and how many bytes it has; bytes behind it stay, and a refusal writes none.
#[tactic(auto, using(size::proofs::Sizes::digits_counted))]
pub fn draw(
    form: Form,
    mode: Mode,
    digits: u8,
    dots: &[u8],
    out: &mut [u8],
) -> Result<usize, Refusal>
    ensures { Drawing form mode digits dots.now out.old result out.new }
{
    let lines = mode.lines;
    if !has_digits(lines, digits) {
        return Err(Refusal::BadDigits);
    }
    if dots.len() < byte_count(mode, digits) {
        return Err(Refusal::ShortBuffer);
    }
    let layout = Layout {
        form,
        mode,
        digits: digits as usize,
    };
    let size = layout.byte_size();
    if out.len() < size {
        return Err(Refusal::ShortBuffer);
    }
    layout.draw_whole(dots, &mut out[..size]);
    Ok(size)
}
