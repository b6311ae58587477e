// A record that was cut, mended.
ghost use Rattle.refusal.specs.Refusals.{number_of};
ghost use Rattle.trestlecap.specs.Called.{MendingRecord};

use mending::mend;
use refusal::{Refusal, number_of};

#[tactic(auto, using(crate::proofs::Mended::mended_said, crate::proofs::Mended::not_mended))]
fn mended_into(
    bytes: &[u8],
    mended: &mut [u8],
    kept: &mut u16,
    dropped: &mut usize,
    altered: &mut u8,
) -> Result<(), Refusal>
    ensures { MendingRecord bytes.now mended.old kept.old dropped.old altered.old (number_of result) mended.new kept.new dropped.new altered.new }
{
    let said = mend(bytes, mended)?;
    *kept = said.kept as u16;
    *dropped = said.dropped;
    *altered = said.altered as u8;
    Ok(())
}

pub fn trestlecap_mend(
    bytes: &[u8],
    mended: &mut [u8],
    kept: &mut u16,
    dropped: &mut usize,
    altered: &mut u8,
) -> u8
    ensures { MendingRecord bytes.now mended.old kept.old dropped.old altered.old result mended.new kept.new dropped.new altered.new }
{
    number_of(&mended_into(bytes, mended, kept, dropped, altered))
}
