// The dots of one line: the pattern of each digit's code, then the mark of cursor and blink.
#![tactic(auto)]

mod column;
mod digit;
mod drawable;
mod extent;
mod line;
mod mark;
mod phase;
mod place;

pub use drawable::Drawable;
pub use line::draw_line;
pub use phase::Phase;

// 16 bytes for each of 256 codes.
pub const IMAGE_SIZE: usize = 4096;
