// Words that are given letter by letter.
ghost use Rattle.std.specs.Prelude.{◌≡◌};
ghost use Rattle.view.specs.Words.{phase_in, form_in};

use arguments::is_word;
use dots::Phase;
use drawing::Form;

#[tactic(auto, unfolding(crate::specs::Words::phase_in))]
pub(crate) fn phase_in(word: &[u8]) -> Option<Phase>
    ensures { result ≡ phase_in word.now }
{
    if is_word(b"plain", word) {
        return Some(Phase::Plain);
    }
    if is_word(b"dark", word) {
        return Some(Phase::Dark);
    }
    None
}

#[tactic(auto, unfolding(crate::specs::Words::form_in))]
pub(crate) fn form_in(words: usize, word: &[u8]) -> Option<Form>
    ensures { result ≡ form_in words word.now }
{
    if words == 3 {
        return Some(Form::Text);
    }
    if words == 4 && is_word(b"pbm", word) {
        return Some(Form::Image);
    }
    None
}
