// Cursor and blink: the digit that they mark on a line, and the rows in which they set it.
ghost use Rattle.std.specs.Prelude.{ℕ, ◌+◌, ◌*◌, ◌<◌, eqb, length, get_or, cond, ◌&&◌, ◌≡◌};
ghost use Rattle.counters.specs.Address.{address_of};
ghost use Rattle.dots.specs.Digit.{shown_on};
ghost use Rattle.dots.specs.Dots.{is_dark, is_marked, is_set};
ghost use Rattle.dots.specs.Promises.{Column};

use super::extent::Size;
use super::phase::Phase;
use super::place::Place;
use controller::registers::Registers;
use counters::LineMode;
use counters::address::DisplayAddress;

// The digit whose display address equals the counter, any number past the line where there is none;
// whether the cursor sets its last row, and whether blink sets all its rows.
#[derive(Clone, Copy)]
pub struct Mark {
    pub digit: u8,
    pub cursor: bool,
    pub blink: bool,
}

// The digit of a line that has this display address; where none has, the digit count.
#[tactic(auto, using(counters::proofs::Laws::cell_exists, size::proofs::Sizes::most_small, size::proofs::Sizes::most_two, crate::proofs::Marks::digit_one, crate::proofs::Marks::digit_two, crate::proofs::Marks::marked_cell, crate::proofs::Marks::marked_none, crate::proofs::Marks::marked_elsewhere))]
fn digit_at(place: Place, address: u8) -> u8
    ensures { (d : ℕ) → d < place.size.digits → eqb d result ≡ eqb (address_of place.lines (shown_on place.lines place.shift place.line d)).0 address }
{
    let lines = place.lines;
    let address = DisplayAddress(address);
    if !address.exists(lines) {
        return place.size.digits;
    }
    let cell = address.cell(lines);
    let n = cell.0;
    let s = place.shift.0;
    match lines {
        LineMode::One => (n + 80 - s) % 80,
        LineMode::Two => {
            if n / 40 == place.line {
                (n + 40 - s) % 40
            } else {
                place.size.digits
            }
        }
    }
}

impl Mark {
    #[tactic(auto, unfolding(crate::specs::Dots::is_marked))]
    pub(crate) fn new(registers: Registers, phase: Phase, place: Place) -> Mark
        requires { place.lines ≡ registers.mode.lines }
        ensures { (result.cursor ≡ registers.lights.cursor) × (result.blink ≡ registers.lights.blink && is_dark phase) × ((d : ℕ) → d < place.size.digits → eqb d result.digit ≡ is_marked registers (shown_on place.lines place.shift place.line d)) }
    {
        let lights = registers.lights;
        Mark {
            digit: digit_at(place, registers.counter.number()),
            cursor: lights.cursor,
            blink: lights.blink & phase.is_dark(),
        }
    }

    #[tactic(auto, unfolding(crate::specs::Dots::is_set))]
    pub(crate) fn sets(self, rows: usize, row: usize) -> bool
        requires { row < rows }
        ensures { result ≡ is_set self.cursor self.blink rows row }
    {
        (self.cursor & (row == rows - 1)) | self.blink
    }
}

fn lit(set: bool, dots: u8) -> u8
    ensures { result ≡ cond set 0x1F dots }
{
    if set { 0x1f } else { dots }
}

// All five dots of the marked digit in the rows in which the mark sets it; the other digits' bytes stay.
pub(crate) fn draw_mark(mark: Mark, size: Size, out: &mut [u8])
    requires { (mark.digit < size.digits) × (length out.old ≡ size.rows * size.digits) }
    ensures { Column (λ row. cond (is_set mark.cursor mark.blink size.rows row) 0x1F (get_or out.old (row * size.digits + mark.digit) 0)) size.rows size.digits mark.digit out.old out.new }
{
    // A running place, as in draw_rows.
    let mut at = mark.digit as usize;
    for row in 0..size.rows {
        out[at] = lit(mark.sets(size.rows, row), out[at]);
        at += size.digits as usize;
    }
}
