// The standard restart for four lines, as transfers and waits.
#![tactic(auto)]

ghost use Rattle.std.specs.Prelude.{◌≤◌, ◌%◌, true, ◌≡◌};
ghost use Rattle.bus.specs.Transfer.{told};
ghost use Rattle.controller.specs.Part.{in_range};
ghost use Rattle.restart.specs.Writes.{patiently, told_of, lower_lines, restart_of};

use bus::Outcome;
use controller::Controller;
use controller::answer::Reply;
use refusal::Refusal;
use run::run_events;

// One write of the restart, after the busy time: a list of two events.
#[tactic(auto, using(crate::proofs::Two::two_leave, crate::proofs::Two::two_told))]
fn write(controller: Controller, upper: u8, lower: u8) -> Controller
    requires { (upper ≤ 15) × (in_range controller.registers ≡ true) }
    ensures { (result ≡ (told_of upper (patiently (lower % 16)) controller).controller) × (in_range result.registers ≡ true) }
{
    let [high, low] = Controller::LONGEST.to_be_bytes();
    // A wait is kind 4, an instruction write 0.
    let events = [4, high, low, 0, 0, upper * 16 + lower % 16];
    let mut answers = [0u8; 6];
    run_events(controller, &events, &mut answers)
}

// The upper lines: 3, 3, 3, 2, then 28, 08, 02, 06 (hex), each as two halves.
const UPPER: [u8; 12] = [0x3, 0x3, 0x3, 0x2, 0x2, 0x8, 0x0, 0x8, 0x0, 0x2, 0x0, 0x6];

// The lower four lines of each write are the caller's: of each number the low half counts.
#[tactic(auto, unfolding(crate::specs::Writes::restart_of))]
pub fn restart(controller: Controller, lower: [u8; 12]) -> Outcome
    ensures { told result ≡ restart_of controller (lower_lines lower) }
{
    let registers = controller.registers;
    if !registers.in_range() {
        return Outcome {
            controller,
            answer: Err(Refusal::NotInRange),
            wrap: false,
        };
    }
    let mut after = controller;
    for (upper, lower) in UPPER.iter().zip(&lower) {
        after = write(after, *upper, *lower);
    }
    // What its writes say of the wrap is not handed on.
    Outcome {
        controller: after,
        answer: Ok(Reply::Done(0)),
        wrap: false,
    }
}
