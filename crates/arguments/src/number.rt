// A number, written in decimal.
ghost use Rattle.std.specs.Prelude.{◌≡◌};
ghost use Rattle.arguments.specs.Words.{number_in};

// Plain digits only, and no more than `most`.
pub fn number_in(word: &[u8], most: u16) -> Option<u16>
    ensures { result ≡ number_in most word.now }
{
    if word.is_empty() {
        return None;
    }
    let mut number = 0;
    for &character in word {
        if !character.is_ascii_digit() {
            return None;
        }
        number = number * 10 + u32::from(character - b'0');
        if u32::from(most) < number {
            return None;
        }
    }
    Some(number as u16)
}
