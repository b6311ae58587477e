// What every part of a drawing is drawn by.
ghost use Rattle.std.specs.Prelude.{◌≤◌};

use super::form::Form;
use controller::registers::Mode;

#[derive(Clone, Copy)]
pub(crate) struct Layout {
    pub(crate) form: Form,
    pub(crate) mode: Mode,
    pub(crate) digits: usize,
    ghost some: { 1 ≤ digits },
    ghost most: { digits ≤ 80 },
}
