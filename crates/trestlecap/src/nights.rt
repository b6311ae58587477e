// The bedside panel: a text, a night logged, a night looked up.
ghost use Rattle.std.specs.Prelude.{[]};
ghost use Rattle.calls.specs.declared.Call.{Call};
ghost use Rattle.refusal.specs.Refusals.{number_of};
ghost use Rattle.trestlecap.specs.Called.{MakingCall, LookingUp};

use super::keeping::keep;
use bedside::{look_up, make};
use calls::Call;
use refusal::{Refusal, number_of};
use state::take;

// A text or a night logged, of the controller that the bytes hold; its wrap is said where it is done.
#[tactic(auto, using(crate::proofs::Held::held_length))]
fn called(state: &mut [u8], call: Call, characters: &[u8], wrap: &mut u8) -> Result<(), Refusal>
    ensures { MakingCall state.old call characters.now wrap.old (number_of result) state.new wrap.new }
{
    let outcome = make(take(state)?, call, characters);
    outcome.answer?;
    *wrap = outcome.wrap as u8;
    keep(outcome.controller, state)
}

pub fn trestlecap_text(state: &mut [u8], line: u8, characters: &[u8], wrap: &mut u8) -> u8
    ensures { MakingCall state.old (Call.Text line) characters.now wrap.old result state.new wrap.new }
{
    number_of(&called(state, Call::Text(line), characters, wrap))
}

pub fn trestlecap_log_night(state: &mut [u8], night: u8, quarters: u8, wrap: &mut u8) -> u8
    ensures { MakingCall state.old (Call.Log night quarters) [] wrap.old result state.new wrap.new }
{
    number_of(&called(state, Call::Log(night, quarters), b"", wrap))
}

fn looked_up(state: &[u8], night: u8, written: &mut u8, quarters: &mut u8) -> Result<(), Refusal>
    ensures { LookingUp state.now night written.old quarters.old (number_of result) written.new quarters.new }
{
    let figure = look_up(take(state)?, night)?;
    *written = figure.is_some() as u8;
    *quarters = figure.unwrap_or(0);
    Ok(())
}

pub fn trestlecap_look_up(state: &[u8], night: u8, written: &mut u8, quarters: &mut u8) -> u8
    ensures { LookingUp state.now night written.old quarters.old result written.new quarters.new }
{
    number_of(&looked_up(state, night, written, quarters))
}
