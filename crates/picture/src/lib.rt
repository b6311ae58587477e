// The picture: the dots of every digit, one byte a digit and row.
#![tactic(auto)]

ghost use Rattle.picture.specs.Answers.{Pictured};

mod whole;

use controller::Controller;
use dots::{Drawable, IMAGE_SIZE, Phase};
use refusal::Refusal;
use size::{byte_count, has_digits};
use whole::draw;

// Writes lines x rows x digits bytes in the order line, row, digit; a refusal writes none. Its parameters are those that C hands in.
#[tactic(auto, using(size::proofs::Sizes::digits_counted, crate::proofs::Promise::shift_in_range))]
pub fn picture(
    controller: Controller,
    digits: u8,
    rom: &[u8],
    phase: Phase,
    out: &mut [u8],
) -> Result<(), Refusal>
    ensures { Pictured controller digits rom.now phase out.old result out.new }
{
    let registers = controller.registers;
    if !registers.in_range() {
        return Err(Refusal::NotInRange);
    }
    let mode = registers.mode;
    if !has_digits(mode.lines, digits) {
        return Err(Refusal::BadDigits);
    }
    let Some(image) = rom.as_array::<IMAGE_SIZE>() else {
        return Err(Refusal::BadImage);
    };
    let bytes = byte_count(mode, digits);
    if out.len() < bytes {
        return Err(Refusal::ShortBuffer);
    }
    let drawable = Drawable {
        controller,
        digits,
        phase,
    };
    draw(drawable, image, &mut out[..bytes]);
    Ok(())
}
