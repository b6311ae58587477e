// One line: its digits' columns, then the mark.
ghost use Rattle.std.specs.Prelude.{ℕ, ◌+◌, ◌*◌, ◌%◌, ◌<◌, length, get_or, true, ◌≡◌};
ghost use Rattle.size.specs.Size.{lines_of, rows_of};
ghost use Rattle.dots.specs.Digit.{shown_on};
ghost use Rattle.dots.specs.Dots.{pattern_of, line_of};

use super::IMAGE_SIZE;
use super::column::draw_column;
use super::digit::shown;
use super::drawable::Drawable;
use super::extent::Size;
use super::mark::{Mark, draw_mark};
use super::place::Place;
use size::row_count;

// The pattern of each digit's code.
fn draw_columns(
    display: &[u8; 80],
    character: &[u8; 64],
    rom: &[u8; IMAGE_SIZE],
    place: Place,
    out: &mut [u8],
)
    requires { length out.old ≡ place.size.rows * place.size.digits }
    ensures { (d : ℕ) → d < place.size.digits → (row : ℕ) → row < place.size.rows → get_or out.new (row * place.size.digits + d) 0 ≡ pattern_of character.now rom.now place.size.rows (get_or display.now (shown_on place.lines place.shift place.line d).0 0) row % 0x20 }
{
    for digit in 0..place.size.digits {
        let cell = shown(place, digit);
        let code = display[cell.0 as usize];
        draw_column(character, rom, place.size, code, digit, out);
    }
}

// Asks for a part whose display is on; writes rows x digits bytes.
pub fn draw_line(drawable: Drawable, rom: &[u8; IMAGE_SIZE], line: u8, out: &mut [u8])
    requires { (drawable.controller.registers.lights.display ≡ true) × (line < lines_of drawable.controller.registers.mode.lines) × (length out.old ≡ rows_of drawable.controller.registers.mode * drawable.digits) }
    ensures { out.new ≡ line_of drawable.controller drawable.digits rom.now drawable.phase line }
{
    let controller = drawable.controller;
    let registers = controller.registers;
    let size = Size {
        rows: row_count(registers.mode),
        digits: drawable.digits,
    };
    let place = Place {
        lines: registers.mode.lines,
        shift: registers.shift,
        line,
        size,
    };
    draw_columns(&controller.display, &controller.character, rom, place, out);
    let mark = Mark::new(registers, drawable.phase, place);
    if mark.digit < size.digits {
        draw_mark(mark, size, out);
    }
}
