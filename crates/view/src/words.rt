// The words that the screen program is started with.
ghost use Rattle.std.specs.Prelude.{◌≡◌};
ghost use Rattle.view.specs.Words.{asked_by};

use super::word::{form_in, phase_in};
use arguments::number_in;
use dots::Phase;
use drawing::Form;

// How many digits are shown of each line, in which phase, and how they are written.
#[derive(Clone, Copy)]
pub struct Wanted {
    pub digits: u8,
    pub phase: Phase,
    pub form: Form,
}

// By the words DIGITS, plain or dark, and pbm if there are four; None for any other count or word, where the usage is asked for.
#[tactic(auto, using(arguments::proofs::Numbers::at_most), unfolding(crate::specs::Words::asked_of, crate::specs::Words::asked_by))]
pub fn asked_by(words: usize, digits: &[u8], phase: &[u8], form: &[u8]) -> Option<Wanted>
    ensures { result ≡ asked_by words digits.now phase.now form.now }
{
    let digits = number_in(digits, 255)? as u8;
    let phase = phase_in(phase)?;
    let form = form_in(words, form)?;
    Some(Wanted {
        digits,
        phase,
        form,
    })
}
