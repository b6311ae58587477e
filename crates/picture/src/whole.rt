// The whole picture: its lines, one behind the other, or all zeros.
ghost use Rattle.std.specs.Prelude.{length, replicate, true, ◌≡◌};
ghost use Rattle.size.specs.Size.{bytes_of};
ghost use Rattle.picture.specs.Picture.{picture_of};

use dots::{Drawable, IMAGE_SIZE, draw_line};
use size::{line_count, row_count};

#[tactic(auto, unfolding(crate::specs::Picture::picture_of))]
fn draw_lines(drawable: Drawable, rom: &[u8; IMAGE_SIZE], out: &mut [u8])
    requires { (drawable.controller.registers.lights.display ≡ true) × (length out.old ≡ bytes_of drawable.controller.registers.mode drawable.digits) }
    ensures { out.new ≡ picture_of drawable.controller drawable.digits rom.now drawable.phase }
{
    let mode = drawable.controller.registers.mode;
    let count = line_count(mode.lines);
    let bytes = row_count(mode) * drawable.digits as usize;
    // A running place: `line * bytes` is slower.
    let mut at = 0;
    for line in 0..count {
        let end = at + bytes;
        draw_line(drawable, rom, line, &mut out[at..end]);
        at = end;
    }
}

// Not `fill`, with which the tall font is drawn slower.
fn blank(out: &mut [u8])
    ensures { out.new ≡ replicate (length out.old) 0 }
{
    for dots in out.iter_mut() {
        *dots = 0;
    }
}

#[tactic(auto, using(crate::proofs::Lines::off_dots))]
pub(crate) fn draw(drawable: Drawable, rom: &[u8; IMAGE_SIZE], out: &mut [u8])
    requires { length out.old ≡ bytes_of drawable.controller.registers.mode drawable.digits }
    ensures { out.new ≡ picture_of drawable.controller drawable.digits rom.now drawable.phase }
{
    if drawable.controller.registers.lights.display {
        draw_lines(drawable, rom, out);
    } else {
        blank(out);
    }
}
