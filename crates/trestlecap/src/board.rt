// The part on the board: switched on, given a list, restarted.
ghost use Rattle.refusal.specs.Refusals.{number_of};
ghost use Rattle.trestlecap.specs.Called.{SwitchingOn, RunningList, Restarting};

use super::keeping::keep;
use controller::Controller;
use list::run_list;
use refusal::{Refusal, number_of};
use restart::restart;
use state::{put, take};

pub fn trestlecap_switch_on(state: &mut [u8]) -> u8
    ensures { SwitchingOn state.old result state.new }
{
    number_of(&put(Controller::switched_on(), state))
}

#[tactic(auto, using(crate::proofs::Held::held_length))]
fn list_run(state: &mut [u8], events: &[u8], answers: &mut [u8]) -> Result<(), Refusal>
    ensures { RunningList state.old events.now answers.old (number_of result) state.new answers.new }
{
    let mut controller = take(state)?;
    run_list(&mut controller, events, answers)?;
    keep(controller, state)
}

pub fn trestlecap_run_list(state: &mut [u8], events: &[u8], answers: &mut [u8]) -> u8
    ensures { RunningList state.old events.now answers.old result state.new answers.new }
{
    number_of(&list_run(state, events, answers))
}

// Zeros on the lower lines.
#[tactic(auto, using(crate::proofs::Held::held_length))]
fn restarted(state: &mut [u8]) -> Result<(), Refusal>
    ensures { Restarting state.old (number_of result) state.new }
{
    let outcome = restart(take(state)?, [0; 12]);
    outcome.answer?;
    keep(outcome.controller, state)
}

pub fn trestlecap_restart(state: &mut [u8]) -> u8
    ensures { Restarting state.old result state.new }
{
    number_of(&restarted(state))
}
