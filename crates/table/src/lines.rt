// A line for each event of a record.
ghost use Rattle.std.specs.Prelude.{◌+◌, ◌*◌, ◌≤◌, length, ◌≡◌};
ghost use Rattle.lent.specs.Put.{Puts};
ghost use Rattle.record.specs.Record.{most_events, events_of, check_of};
ghost use Rattle.run.specs.Run.{started_from};
ghost use Rattle.table.specs.Promises.{lines_of, Printable};
ghost use Rattle.table.specs.Table.{event_lines, line_bytes};

use super::line::{Line, put_line};
use record::word;
use run::{run_events, started};

// Of events that have been run, and what each was answered, where its own three bytes stand.
fn put_answered(events: &[u8], answers: &[u8], place: usize, out: &mut [u8]) -> usize
    requires { Printable events.now answers.now × (place + line_bytes * most_events ≤ length out.old) }
    ensures { Puts (lines_of 1 events.now answers.now) place out.old result out.new }
{
    let mut next = place;
    for ((number, event), answer) in (1u16..)
        .zip(events.chunks_exact(3))
        .zip(answers.chunks_exact(3))
    {
        let line = Line {
            number,
            kind: event[0],
            value: word(event[1], event[2]),
            answer: answer[0],
            read: answer[1],
            wrap: answer[2],
        };
        next = put_line(line, next, out);
    }
    next
}

// Of a sound record.
#[tactic(auto, using(record::proofs::Sound::sound))]
pub(crate) fn put_lines(bytes: &[u8], place: usize, out: &mut [u8]) -> usize
    requires { (check_of bytes.now ≡ 0) × (place + line_bytes * most_events ≤ length out.old) }
    ensures { Puts (event_lines 1 (events_of bytes.now) started_from) place out.old result out.new }
{
    // No heap: the longest record has room.
    let mut answers = [0u8; 3 * record::MOST_EVENTS];
    run_events(started(), &bytes[3..], &mut answers);
    put_answered(&bytes[3..], &answers, place, out)
}
