// The words that the panel program is started with.
ghost use Rattle.std.specs.Prelude.{◌≡◌};
ghost use Rattle.course.specs.Words.{byte_in, asked_by};

use super::request::Request;
use arguments::{is_word, number_in};
use calls::Call;

const MOST_NUMBER: u16 = 255;

#[tactic(auto, using(arguments::proofs::Numbers::at_most))]
fn byte_in(word: &[u8]) -> Option<u8>
    ensures { result ≡ byte_in word.now }
{
    let number = number_in(word, MOST_NUMBER)?;
    Some(number as u8)
}

// The words `text`, LINE and CHARACTERS, `log`, NIGHT and QUARTERS, or `night` and NIGHT; with any other count or word the usage is asked for.
#[tactic(auto, unfolding(crate::specs::Words::text_asked, crate::specs::Words::log_asked, crate::specs::Words::night_asked, crate::specs::Words::asked_by))]
pub fn asked_by(words: usize, what: &[u8], first: &[u8], second: &[u8]) -> Option<Request>
    ensures { result ≡ asked_by words what.now first.now second.now }
{
    if (words == 3) & is_word(b"text", what) {
        return Some(Request::Make(Call::Text(byte_in(first)?)));
    }
    if (words == 3) & is_word(b"log", what) {
        return Some(Request::Make(Call::Log(byte_in(first)?, byte_in(second)?)));
    }
    if (words == 2) & is_word(b"night", what) {
        return Some(Request::LookUp(byte_in(first)?));
    }
    None
}
