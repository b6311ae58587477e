// What a transfer or a wait comes to: the registers afterwards, the answer, and whether the counter passed an end.
// The outcome of a call holds the whole controller; one type for both would name neither.
use super::answer::Answer;
use super::registers::Registers;

#[derive(Clone, Copy, PartialEq, Eq)]
pub struct Effect {
    pub registers: Registers,
    pub answer: Answer,
    pub wrap: bool,
}
