// The controller for C: every call on numbers and byte slices. A refused call writes nothing.
#![tactic(auto)]

mod board;
mod drive;
mod keeping;
mod nights;
mod records;
mod shown;

pub use board::{trestlecap_restart, trestlecap_run_list, trestlecap_switch_on};
pub use drive::{trestlecap_fifth_bias, trestlecap_quarter_bias};
pub use nights::{trestlecap_log_night, trestlecap_look_up, trestlecap_text};
pub use records::trestlecap_mend;
pub use shown::trestlecap_picture;
