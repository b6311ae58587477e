// What the panel program is asked for: these two, so that a match answers.
use calls::Call;

#[derive(Clone, Copy, PartialEq, Eq)]
pub enum Request {
    Make(Call),
    // A night.
    LookUp(u8),
}
