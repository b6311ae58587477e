// A word, letter by letter.
ghost use Rattle.std.specs.Prelude.{◌≡◌};
ghost use Rattle.arguments.specs.Words.{is_word};

#[tactic(auto, using(crate::proofs::Letters::same_bytes))]
pub fn is_word(text: &[u8], word: &[u8]) -> bool
    ensures { result ≡ is_word text.now word.now }
{
    text == word
}
