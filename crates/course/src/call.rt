// A request made to a part: the line that is said, and how many bytes the call's own events have.
ghost use Rattle.std.specs.Prelude.{[], ◌≡◌};
ghost use Rattle.course.specs.Course.{call_line};
ghost use Rattle.course.specs.Promises.{said_line, Heard};
ghost use Rattle.course.specs.declared.request.Request.{Request};

use super::request::Request;
use super::verdict::Said;
use bedside::{answer_to, look_up};
use calls::{Call, put_call};
use controller::Controller;

#[tactic(auto, using(bedside::proofs::Called::put_taken))]
fn make(
    part: Controller,
    call: Call,
    characters: &[u8],
    events: &mut [u8; calls::MOST_BYTES],
) -> (Said, usize)
    ensures { Heard part (Request.Make call) characters.now result events.new }
{
    match answer_to(part, call, characters.len()) {
        Err(refusal) => (Said::Refused(refusal), 0),
        Ok(()) => {
            let added = put_call(part.registers.bus, call, characters, 0, events);
            (Said::Done, added)
        }
    }
}

#[tactic(auto, using(crate::proofs::Heard::figure_said, crate::proofs::Heard::refused_said))]
fn look(part: Controller, night: u8) -> Said
    ensures { said_line result ≡ call_line part (Request.LookUp night) [] }
{
    match look_up(part, night) {
        Ok(Some(quarters)) => Said::Figure(quarters),
        Ok(None) => Said::NotYetWritten,
        Err(refusal) => Said::Refused(refusal),
    }
}

// A look-up has no events.
pub(crate) fn ask(
    part: Controller,
    request: Request,
    characters: &[u8],
    events: &mut [u8; calls::MOST_BYTES],
) -> (Said, usize)
    ensures { Heard part request characters.now result events.new }
{
    match request {
        Request::Make(call) => make(part, call, characters, events),
        Request::LookUp(night) => (look(part, night), 0),
    }
}
