// Volts with four decimals, and digits of a number in a base, put at a place of a lent buffer.
#![tactic(auto)]

mod digits;
mod volts;

pub use digits::put_digits;
pub use volts::{Formula, MOST_VOLTS, put_volts};
