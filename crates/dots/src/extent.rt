// How many rows and digits a line has.
ghost use Rattle.std.specs.Prelude.{◌≤◌};

#[derive(Clone, Copy)]
pub(crate) struct Size {
    pub(crate) rows: usize,
    pub(crate) digits: u8,
    ghost low: { rows ≤ 11 },
}
