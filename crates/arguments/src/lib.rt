// The words that a program is started with: numbers in decimal, and words given letter by letter.
#![tactic(auto)]

mod number;
mod word;

pub use number::number_in;
pub use word::is_word;
