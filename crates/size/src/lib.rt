// How large a picture is: its lines, digits, rows and bytes.
#![tactic(auto)]

ghost use Rattle.std.specs.Prelude.{◌≤◌, ◌≡◌};
ghost use Rattle.size.specs.Size.{lines_of, most_digits, has_digits as has_digits_on, rows_of, bytes_of};

use controller::registers::Mode;
use counters::LineMode;

// 11 rows of 80 digits: no picture has more.
pub const MOST_BYTES: usize = 880;

#[tactic(auto, unfolding(crate::specs::Size::most_digits))]
fn most_digits(lines: LineMode) -> u8
    ensures { (result ≡ most_digits lines) × (result ≤ 80) }
{
    match lines {
        LineMode::One => 80,
        LineMode::Two => 40,
    }
}

#[tactic(auto, unfolding(crate::specs::Size::has_digits))]
pub fn has_digits(lines: LineMode, digits: u8) -> bool
    ensures { result ≡ has_digits_on lines digits }
{
    (1 <= digits) & (digits <= most_digits(lines))
}

#[tactic(auto, unfolding(crate::specs::Size::lines_of))]
pub fn line_count(lines: LineMode) -> u8
    ensures { (result ≡ lines_of lines) × (result ≤ 2) }
{
    match lines {
        LineMode::One => 1,
        LineMode::Two => 2,
    }
}

#[tactic(auto, unfolding(crate::specs::Size::rows_in))]
pub fn row_count(mode: Mode) -> usize
    ensures { (result ≡ rows_of mode) × (8 ≤ result) × (result ≤ 11) }
{
    match mode.lines {
        LineMode::One => { if mode.tall { 11 } else { 8 } }
        LineMode::Two => 8,
    }
}

pub fn byte_count(mode: Mode, digits: u8) -> usize
    ensures { result ≡ bytes_of mode digits }
{
    line_count(mode.lines) as usize * row_count(mode) * digits as usize
}
