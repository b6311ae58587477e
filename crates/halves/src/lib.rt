// Halves: the lines of the bus, the half of a byte that waits on four, and what a transfer completes.
#![tactic(auto)]

ghost use Rattle.std.specs.Prelude.{◌≤◌, ◌≡◌};
ghost use Rattle.halves.specs.Halves.{is_four, line_count, most_half, half_fits, held_by, is_first, disagrees as disagrees_with, upper_of, completed as completed_by, answered as answered_on};

use event::Kind;

// How many lines of the bus are used.
#[derive(Clone, Copy, PartialEq, Eq)]
pub enum LineCount {
    Eight,
    Four,
}

// The upper four lines of a write wait as a number below 16; the half of a read is always 0.
// No Option: its six methods are the paper's words for it, and an Option has none of them.
#[derive(Clone, Copy, PartialEq, Eq)]
pub enum Half {
    Nothing,
    Waiting(Kind, u8),
}

// Eight lines if the bit is 1, four if it is 0.
impl From<bool> for LineCount {
    ghost from_gives = { λ eight bus. bus ≡ line_count eight };

    fn from(eight: bool) -> LineCount {
        if eight {
            LineCount::Eight
        } else {
            LineCount::Four
        }
    }
}

impl LineCount {
    // A match: with `==` in its place a status read takes two instructions more.
    #[tactic(auto, unfolding(crate::specs::Halves::is_four))]
    fn is_four(self) -> bool
        ensures { result ≡ is_four self }
    {
        match self {
            LineCount::Eight => false,
            LineCount::Four => true,
        }
    }
}

// The largest half of this kind.
fn most_half(kind: Kind) -> u8
    ensures { result ≡ most_half kind }
{
    if kind.is_read() { 0 } else { 15 }
}

impl Half {
    // Whether it can wait on so many lines.
    #[tactic(auto, using(condition::proofs::Tests::met), unfolding(crate::specs::Halves::half_fits))]
    pub fn fits(self, bus: LineCount) -> bool
        ensures { result ≡ half_fits bus self }
    {
        match self {
            Half::Nothing => true,
            Half::Waiting(kind, upper) => bus.is_four() & (upper <= most_half(kind)),
        }
    }

    // The half that waits once the first half of a byte is taken.
    pub fn of(kind: Kind, byte: u8) -> Half
        ensures { result ≡ Half.Waiting kind (held_by kind byte) }
    {
        if kind.is_read() {
            Half::Waiting(kind, 0)
        } else {
            Half::Waiting(kind, byte / 16)
        }
    }

    // Whether a transfer is the first half of a byte.
    #[tactic(auto, using(condition::proofs::Tests::met), unfolding(crate::specs::Halves::is_first))]
    pub fn is_first(self, bus: LineCount) -> bool
        ensures { result ≡ is_first bus self }
    {
        (self == Half::Nothing) & bus.is_four()
    }

    // Whether a transfer of this kind disagrees with the half that waits.
    #[tactic(auto, using(condition::proofs::Tests::met), unfolding(crate::specs::Halves::disagrees))]
    pub fn disagrees(self, bus: LineCount, kind: Kind) -> bool
        ensures { result ≡ disagrees_with bus self kind }
    {
        match self {
            Half::Nothing => false,
            Half::Waiting(first, _) => bus.is_four() & !kind.alike(first),
        }
    }

    fn upper(self) -> u8
        ensures { result ≡ upper_of self }
    {
        match self {
            Half::Nothing => 0,
            Half::Waiting(_, upper) => upper,
        }
    }

    // The byte written; on four lines its upper half is the one that waits.
    #[tactic(auto, using(crate::proofs::Waiting::completed_by_lines))]
    pub fn completed(self, bus: LineCount, byte: u8) -> u8
        requires { upper_of self ≤ 15 }
        ensures { result ≡ completed_by bus self byte }
    {
        if bus.is_four() {
            self.upper() * 16 + byte / 16
        } else {
            byte
        }
    }
}

// What a read answers with the transfer that completes it.
#[tactic(auto, using(crate::proofs::Waiting::answered_by_lines))]
pub fn answered(bus: LineCount, value: u8) -> u8
    ensures { result ≡ answered_on bus value }
{
    if bus.is_four() {
        value % 16 * 16
    } else {
        value
    }
}
