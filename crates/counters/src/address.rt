// Addresses on the bus and cells of storage, kept apart: only the line mode turns one into the other.
ghost use Rattle.std.specs.Prelude.{◌≡◌};
ghost use Rattle.counters.specs.Address.{has_display, has_character, cell_of, step_display, step_character, passes_display, passes_character};

use super::LineMode;
use super::wrap::wrapped;

// An address of display memory, as the bus names it.
#[derive(Clone, Copy, PartialEq, Eq)]
pub struct DisplayAddress(pub u8);

// An address of character memory, as the bus names it.
// A trait over both addresses would hand these methods a line mode that they ignore.
#[derive(Clone, Copy, PartialEq, Eq)]
pub struct CharacterAddress(pub u8);

// A place among the 80 bytes of display storage.
#[derive(Clone, Copy, PartialEq, Eq)]
pub struct Cell(pub u8);

impl DisplayAddress {
    #[tactic(auto, unfolding(crate::specs::Address::has_display))]
    pub fn exists(self, mode: LineMode) -> bool
        ensures { result ≡ has_display mode self }
    {
        let n = self.0;
        match mode {
            LineMode::One => n <= 0x4f,
            LineMode::Two => (n <= 0x27) | ((0x40 <= n) & (n <= 0x67)),
        }
    }

    #[tactic(auto, unfolding(crate::specs::Address::cell_of))]
    pub fn cell(self, mode: LineMode) -> Cell
        ensures { result ≡ cell_of mode self }
    {
        let n = self.0;
        match mode {
            LineMode::One => Cell(n),
            LineMode::Two => { if n < 0x40 { Cell(n) } else { Cell(n - 24) } }
        }
    }

    #[tactic(auto, unfolding(crate::specs::Address::step_display))]
    pub(crate) fn step(self, mode: LineMode, up: bool) -> DisplayAddress
        ensures { result ≡ step_display mode up self }
    {
        let n = self.0;
        match mode {
            LineMode::One => DisplayAddress(wrapped(up, 0x4f, n)),
            // With two lines there is no address between 27 and 40.
            LineMode::Two => match (up, n) {
                (true, 0x27) => DisplayAddress(0x40),
                (false, 0x40) => DisplayAddress(0x27),
                _ => DisplayAddress(wrapped(up, 0x67, n)),
            },
        }
    }

    // Whether the step from here passes an end.
    #[tactic(auto, using(crate::proofs::Ends::passes_up, crate::proofs::Ends::passes_down), unfolding(crate::specs::Address::passes_display, crate::specs::Address::ends_display, crate::specs::Address::step_display, crate::specs::Wrap::next, crate::specs::Wrap::previous))]
    pub(crate) fn passes(self, mode: LineMode, up: bool) -> bool
        ensures { result ≡ passes_display mode up self }
    {
        let n = self.0;
        match mode {
            LineMode::One => { if up { n == 0x4f } else { n == 0x00 } }
            LineMode::Two => {
                if up {
                    (n == 0x27) | (n == 0x67)
                } else {
                    (n == 0x40) | (n == 0x00)
                }
            }
        }
    }
}

impl CharacterAddress {
    #[tactic(auto, unfolding(crate::specs::Address::has_character))]
    pub(crate) fn exists(self) -> bool
        ensures { result ≡ has_character self }
    {
        self.0 <= 0x3f
    }

    #[tactic(auto, unfolding(crate::specs::Address::step_character))]
    pub(crate) fn step(self, up: bool) -> CharacterAddress
        ensures { result ≡ step_character up self }
    {
        CharacterAddress(wrapped(up, 0x3f, self.0))
    }

    // Whether the step from here passes an end.
    #[tactic(auto, using(crate::proofs::Ends::passes_up, crate::proofs::Ends::passes_down), unfolding(crate::specs::Address::passes_character, crate::specs::Address::ends_character, crate::specs::Address::step_character, crate::specs::Wrap::next, crate::specs::Wrap::previous))]
    pub(crate) fn passes(self, up: bool) -> bool
        ensures { result ≡ passes_character up self }
    {
        let n = self.0;
        if up { n == 0x3f } else { n == 0x00 }
    }
}
