// The picture.
ghost use Rattle.refusal.specs.Refusals.{number_of};
ghost use Rattle.trestlecap.specs.Called.{Picturing};

use dots::Phase;
use picture::picture;
use refusal::{Refusal, number_of};
use state::take;

// A dark of 0 is plain.
fn shown(state: &[u8], digits: u8, rom: &[u8], dark: u8, out: &mut [u8]) -> Result<(), Refusal>
    ensures { Picturing state.now digits rom.now dark out.old (number_of result) out.new }
{
    picture(take(state)?, digits, rom, Phase::from(dark != 0), out)
}

pub fn trestlecap_picture(state: &[u8], digits: u8, rom: &[u8], dark: u8, out: &mut [u8]) -> u8
    ensures { Picturing state.now digits rom.now dark out.old result out.new }
{
    number_of(&shown(state, digits, rom, dark, out))
}
