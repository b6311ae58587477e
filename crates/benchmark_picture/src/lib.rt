// What the benchmark calls from C: the picture of the part that a record leaves.
#![tactic(auto)]

ghost use Rattle.benchmark_picture.specs.Drawn.{Drawn};

use dots::Phase;
use picture::picture;
use refusal::number_of;
use run::{run, started};

// The picture, and the same one `again` times more, which changes nothing. The answer is the picture's number; a refused
// record leaves the part just switched on.
#[tactic(auto, using(crate::proofs::Left::part_left))]
pub fn benchmark_picture(
    bytes: &[u8],
    digits: u8,
    rom: &[u8],
    dark: bool,
    again: u32,
    out: &mut [u8],
) -> u8
    ensures { Drawn bytes.now digits rom.now dark out.old result out.new }
{
    let part = run(bytes).unwrap_or(started());
    let phase = Phase::from(dark);
    let mut answer = picture(part, digits, rom, phase, out);
    for _ in 0..again {
        answer = picture(part, digits, rom, phase, out);
    }
    number_of(&answer)
}
