// The whole text that the bench program prints.
ghost use Rattle.std.specs.Prelude.{◌≤◌, length, ◌≡◌};
ghost use Rattle.lent.specs.Put.{Puts};
ghost use Rattle.record.specs.Record.{most_bytes, check_of};
ghost use Rattle.table.specs.Table.{table_of, printed_of, most_text};

use super::lines::put_lines;
use text::{put_refused, put_text};

pub(crate) const HEADING_BYTES: usize = 36;

fn put_table(bytes: &[u8], out: &mut [u8]) -> usize
    requires { (check_of bytes.now ≡ 0) × (length bytes.now ≤ most_bytes) × (most_text ≤ length out.old) }
    ensures { Puts (table_of bytes.now) 0 out.old result out.new }
{
    let next = put_text(b"event kind value answer result wrap\n", 0, out);
    put_lines(bytes, next, out)
}

#[tactic(auto, using(crate::proofs::Outcomes::printed_long, crate::proofs::Outcomes::printed_refused, crate::proofs::Outcomes::printed_sound))]
pub(crate) fn put_printed(bytes: &[u8], out: &mut [u8]) -> usize
    requires { most_text ≤ length out.old }
    ensures { Puts (printed_of bytes.now) 0 out.old result out.new }
{
    if record::MOST_BYTES < bytes.len() {
        return put_text(b"too long\n", 0, out);
    }
    match record::check(bytes) {
        Ok(()) => put_table(bytes, out),
        Err(refusal) => put_refused(u8::from(refusal), out),
    }
}
