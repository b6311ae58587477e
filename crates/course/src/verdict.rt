// What a request comes to, by the record that leads to where it is made.
ghost use Rattle.course.specs.Promises.{Decided};

use super::call::ask;
use super::request::Request;
use refusal::Refusal;

// The line that is said.
#[derive(Clone, Copy, PartialEq, Eq)]
pub enum Said {
    TooLong,
    // The record, more than 4,096 events in all, or the call.
    Refused(Refusal),
    Done,
    // Of a night that is looked up.
    Figure(u8),
    NotYetWritten,
}

#[derive(Clone, Copy, PartialEq, Eq)]
pub struct Verdict {
    pub said: Said,
    // How many bytes the call's own events have; none where no record is written.
    pub added: Option<usize>,
}

// The record is run once; the call's own events are left at the front of a lent buffer.
pub(crate) fn decide(
    request: Request,
    characters: &[u8],
    bytes: &[u8],
    events: &mut [u8; calls::MOST_BYTES],
) -> Verdict
    ensures { Decided request characters.now bytes.now result events.new }
{
    if record::MOST_BYTES < bytes.len() {
        return Verdict {
            said: Said::TooLong,
            added: None,
        };
    }
    match run::run(bytes) {
        Err(refusal) => Verdict {
            said: Said::Refused(refusal),
            added: None,
        },
        Ok(part) => {
            let (said, added) = ask(part, request, characters, events);
            if record::MOST_BYTES - bytes.len() < added {
                return Verdict {
                    said: Said::Refused(Refusal::Full),
                    added: None,
                };
            }
            Verdict {
                said,
                added: Some(added),
            }
        }
    }
}
