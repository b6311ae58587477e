// The mended record and the line, each at the front of its buffer.
ghost use Rattle.std.specs.Prelude.{◌≡◌, ◌≤◌, length};
ghost use Rattle.lent.specs.Put.{Puts};
ghost use Rattle.record.specs.Record.{most_bytes};
ghost use Rattle.report.specs.Report.{record_for, line_for, most_line};

use super::MOST_INPUT;
use super::line::put_line;
use mending::mend;
use text::{put_refused, put_text};

// How many bytes the mended record and the line have.
#[derive(Clone, Copy)]
pub struct Sizes {
    pub mended: usize,
    pub line: usize,
}

// No record, and a line of so many bytes.
fn line_alone(line: usize) -> Sizes
    ensures { result ≡ record { mended = 0; line = line } }
{
    Sizes { mended: 0, line }
}

// Where the input is too long or refused there is a line alone.
pub(crate) fn put_both(bytes: &[u8], mended: &mut [u8], line: &mut [u8]) -> Sizes
    requires { (most_bytes ≤ length mended.old) × (most_line ≤ length line.old) }
    ensures { Puts (record_for bytes.now) 0 mended.old result.mended mended.new × Puts (line_for bytes.now) 0 line.old result.line line.new }
{
    if MOST_INPUT < bytes.len() {
        return line_alone(put_text(b"too long\n", 0, line));
    }
    match mend(bytes, mended) {
        Ok(told) => Sizes {
            mended: 3 + 3 * told.kept,
            line: put_line(told, line),
        },
        Err(refusal) => line_alone(put_refused(u8::from(refusal), line)),
    }
}
