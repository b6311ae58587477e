// The words that the bias program is started with.
ghost use Rattle.std.specs.Prelude.{◌≡◌};
ghost use Rattle.sheet.specs.Words.{bias_in, asked_by};

use arguments::{is_word, number_in};
use voltages::{Bias, Drive};

#[tactic(auto, unfolding(crate::specs::Words::bias_in))]
fn bias_in(word: &[u8]) -> Option<Bias>
    ensures { result ≡ bias_in word.now }
{
    if is_word(b"quarter", word) {
        return Some(Bias::Quarter);
    }
    if is_word(b"fifth", word) {
        return Some(Bias::Fifth);
    }
    None
}

// By three words; None for any other count or word, where the usage is asked for.
#[tactic(auto, unfolding(crate::specs::Words::asked_of, crate::specs::Words::asked_by))]
pub fn asked_by(words: usize, vdd: &[u8], span: &[u8], bias: &[u8]) -> Option<Drive>
    ensures { result ≡ asked_by words vdd.now span.now bias.now }
{
    if words != 3 {
        return None;
    }
    let vdd = number_in(vdd, u16::MAX)?;
    let span = number_in(span, u16::MAX)?;
    let bias = bias_in(bias)?;
    Some(Drive { vdd, span, bias })
}
