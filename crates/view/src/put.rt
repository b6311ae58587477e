// What is printed, put at the front of a lent buffer that has room for the longest drawing.
ghost use Rattle.std.specs.Prelude.{◌≤◌, length, true, ◌≡◌};
ghost use Rattle.controller.specs.Part.{in_range};
ghost use Rattle.drawing.specs.Drawing.{most_drawn};
ghost use Rattle.lent.specs.Put.{Puts};
ghost use Rattle.view.specs.View.{shown_of, view_of};

use super::words::Wanted;
use controller::Controller;
use drawing::draw;
use picture::picture;
use run::run;
use size::byte_count;
use text::{put_refused, put_text};

// The picture of a part in range, or its refusal.
fn show(part: Controller, wanted: Wanted, rom: &[u8], out: &mut [u8]) -> usize
    requires { (in_range part.registers ≡ true) × (most_drawn ≤ length out.old) }
    ensures { Puts (shown_of part wanted rom.now) 0 out.old result out.new }
{
    let registers = part.registers;
    let mode = registers.mode;
    let digits = wanted.digits;
    // No heap: the largest picture has room.
    let mut dots = [0u8; size::MOST_BYTES];
    match picture(part, digits, rom, wanted.phase, &mut dots) {
        Ok(()) => {
            let bytes = byte_count(mode, digits);
            draw(wanted.form, mode, digits, &dots[..bytes], out).unwrap_or(0)
        }
        Err(refusal) => put_refused(u8::from(refusal), out),
    }
}

#[tactic(auto, using(crate::proofs::Views::part_in_range, crate::proofs::Views::view_long, crate::proofs::Views::view_refused, crate::proofs::Views::view_shown))]
pub(crate) fn put_view(wanted: Wanted, rom: &[u8], bytes: &[u8], out: &mut [u8]) -> usize
    requires { most_drawn ≤ length out.old }
    ensures { Puts (view_of wanted rom.now bytes.now) 0 out.old result out.new }
{
    if record::MOST_BYTES < bytes.len() {
        return put_text(b"too long\n", 0, out);
    }
    match run(bytes) {
        Ok(part) => show(part, wanted, rom, out),
        Err(refusal) => put_refused(u8::from(refusal), out),
    }
}
