// The nine instructions: which one a byte is, and what each does to the registers.
#![tactic(auto)]

pub mod instruction;
pub mod obey;
