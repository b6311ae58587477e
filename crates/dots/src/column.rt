// One digit's column of a line: its pattern, row by row.
ghost use Rattle.std.specs.Prelude.{◌*◌, ◌%◌, ◌<◌, length, ◌≡◌};
ghost use Rattle.dots.specs.Dots.{pattern_of};
ghost use Rattle.dots.specs.Promises.{Column};

use super::IMAGE_SIZE;
use super::extent::Size;

// Codes 10 to FF hex take the ROM's byte, codes 00 to 0F character memory's.
#[tactic(auto, unfolding(crate::specs::Dots::pattern_of, crate::specs::Dots::character_at))]
fn pattern(character: &[u8; 64], rom: &[u8; IMAGE_SIZE], size: Size, code: u8, row: usize) -> u8
    requires { row < size.rows }
    ensures { result ≡ pattern_of character.now rom.now size.rows code row }
{
    let code = code as usize;
    if 0x10 <= code {
        return rom[16 * code + row];
    }
    if size.rows == 8 {
        return character[8 * (code % 8) + row];
    }
    character[16 * (code / 2 % 4) + row]
}

// The low five bits of each row's pattern; the other digits' bytes stay. The buffer's length is a clause, here and where else
// dots are drawn: it is a fact of a buffer that is lent.
fn draw_rows(
    character: &[u8; 64],
    rom: &[u8; IMAGE_SIZE],
    size: Size,
    code: u8,
    digit: u8,
    out: &mut [u8],
)
    requires { (digit < size.digits) × (length out.old ≡ size.rows * size.digits) }
    ensures { Column (λ row. pattern_of character.now rom.now size.rows code row % 0x20) size.rows size.digits digit out.old out.new }
{
    // A running place: `row * digits + digit` is slower.
    let mut at = digit as usize;
    for row in 0..size.rows {
        out[at] = pattern(character, rom, size, code, row) % 0x20;
        at += size.digits as usize;
    }
}

// As draw_rows; the compiler unrolls the 11 rows of the tall font only where it sees their number.
pub(crate) fn draw_column(
    character: &[u8; 64],
    rom: &[u8; IMAGE_SIZE],
    size: Size,
    code: u8,
    digit: u8,
    out: &mut [u8],
)
    requires { (digit < size.digits) × (length out.old ≡ size.rows * size.digits) }
    ensures { Column (λ row. pattern_of character.now rom.now size.rows code row % 0x20) size.rows size.digits digit out.old out.new }
{
    if size.rows == 11 {
        let digits = size.digits;
        draw_rows(character, rom, Size { rows: 11, digits }, code, digit, out);
    } else {
        draw_rows(character, rom, size, code, digit, out);
    }
}
