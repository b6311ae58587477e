// The words that `screen` is started with, and what it prints, as bytes in a lent buffer.
#![tactic(auto)]

ghost use Rattle.drawing.specs.Drawing.{most_drawn};
ghost use Rattle.printing.specs.Answers.{Printed};
ghost use Rattle.view.specs.View.{view_of};

mod put;
mod word;
mod words;

use put::put_view;
use refusal::Refusal;
pub use words::{Wanted, asked_by};

// Runs a record from a part switched on; bytes behind what is written stay, and a refusal writes none.
pub fn view(wanted: Wanted, rom: &[u8], bytes: &[u8], out: &mut [u8]) -> Result<usize, Refusal>
    ensures { Printed most_drawn (view_of wanted rom.now bytes.now) out.old result out.new }
{
    if out.len() < drawing::MOST_BYTES {
        return Err(Refusal::ShortBuffer);
    }
    Ok(put_view(wanted, rom, bytes, out))
}
