// The bus: transfers and waits, the only things that change a controller.
#![tactic(auto)]

ghost use Rattle.std.specs.Prelude.{◌≡◌};
ghost use Rattle.bus.specs.Transfer.{told, transfer_of, wait_of};

pub mod turn;

use controller::Controller;
use controller::answer::Reply;
use event::Kind;
use refusal::Refusal;

// What a transfer or a wait comes to. A refusal leaves a controller too, so it stands beside the answer and not in it.
#[derive(Clone, Copy)]
pub struct Outcome {
    pub controller: Controller,
    pub answer: Result<Reply, Refusal>,
    // Whether the counter passed an end.
    pub wrap: bool,
}

#[tactic(auto, unfolding(crate::specs::Transfer::transfer_of))]
pub fn transfer(controller: Controller, kind: Kind, value: u8) -> Outcome
    ensures { told result ≡ transfer_of controller kind value }
{
    if !controller.registers.in_range() {
        return Outcome {
            controller,
            answer: Err(Refusal::NotInRange),
            wrap: false,
        };
    }
    let mut display = controller.display;
    let mut character = controller.character;
    let effect = turn::transferred(
        &mut display,
        &mut character,
        controller.registers,
        kind,
        value,
    );
    Outcome {
        controller: Controller {
            display,
            character,
            registers: effect.registers,
        },
        answer: effect.answer.result(),
        wrap: effect.wrap,
    }
}

#[tactic(auto, unfolding(crate::specs::Transfer::wait_of))]
pub fn wait(controller: Controller, ticks: u16) -> Outcome
    ensures { told result ≡ wait_of controller ticks }
{
    if !controller.registers.in_range() {
        return Outcome {
            controller,
            answer: Err(Refusal::NotInRange),
            wrap: false,
        };
    }
    Outcome {
        controller: Controller {
            registers: controller.registers.waited(ticks),
            ..controller
        },
        answer: Ok(Reply::Done(0)),
        wrap: false,
    }
}
