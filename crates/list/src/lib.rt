// A whole list of events in one call: three bytes each as in the bench record, without its head, and three bytes an answer.
#![tactic(auto)]

ghost use Rattle.refusal.specs.Refusals.{number_of};
ghost use Rattle.list.specs.List.{Listing};

mod refusals;

use controller::Controller;
use refusal::Refusal;
use refusals::answer_to;
use run::run_events;

// The lent controller changes where it stands; a refused list leaves it and the answers.
#[tactic(auto, using(crate::proofs::Taken::list_runnable, crate::proofs::Refused::list_refused))]
pub fn run_list(
    controller: &mut Controller,
    events: &[u8],
    answers: &mut [u8],
) -> Result<(), Refusal>
    ensures { Listing controller.old events.now answers.old (number_of result) controller.new answers.new }
{
    answer_to(controller, events, answers.len())?;
    *controller = run_events(*controller, events, answers);
    Ok(())
}
