// The refusals of a list, in their order.
ghost use Rattle.std.specs.Prelude.{◌≡◌};
ghost use Rattle.refusal.specs.Refusals.{number_of};
ghost use Rattle.list.specs.List.{answer_for};

use controller::Controller;
use record::front_length;
use refusal::Refusal;

// 16, 6, then 9; all events are looked at before the first is run.
#[tactic(auto, using(record::proofs::FrontEvents::count_few, crate::proofs::Tested::refused_range, crate::proofs::Tested::refused_room, crate::proofs::Tested::refused_events, crate::proofs::Tested::none_refused))]
pub(crate) fn answer_to(controller: &Controller, events: &[u8], room: usize) -> Result<(), Refusal>
    ensures { number_of result ≡ answer_for controller.now.registers events.now room }
{
    let registers = controller.registers;
    if !registers.in_range() {
        return Err(Refusal::NotInRange);
    }
    // An odd byte behind the whole events asks for no room.
    if room < events.len() / 3 * 3 {
        return Err(Refusal::ShortBuffer);
    }
    if front_length(events) * 3 != events.len() {
        return Err(Refusal::BadEvents);
    }
    Ok(())
}
