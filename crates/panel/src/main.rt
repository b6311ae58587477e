// The panel program: a call as its words, and a record from standard input that leads to where it is made; the record with the call's own events to standard output, and a line about it to standard error.
#![tactic(auto)]

use course::{Request, play};
use std::env::{Env, FillError};
use std::io;
use std::io::{Read, Write};

// A byte more than the longest record, so that a longer one is seen.
const INPUT: u64 = record::MOST_BYTES as u64 + 1;

// The most bytes of a word, in fixed memory; a longer one is read as an empty one.
const WORD: usize = 4096;

// How many words follow the program's name. Nothing can be promised of what the system hands over, so no library has this.
fn words(rt: &impl Env) -> usize {
    (1..usize::MAX)
        .position(|at| matches!(rt.arg(at, &mut []), Err(FillError::NotPresent)))
        .unwrap_or(0)
}

// One of them; nothing of one that is missing or longer than the buffer.
fn word<'a>(rt: &impl Env, at: usize, buffer: &'a mut [u8]) -> &'a [u8] {
    let size = rt.arg(at, buffer).unwrap_or(0);
    &buffer[..size]
}

fn asked(rt: &impl Env) -> Option<Request> {
    course::asked_by(
        words(rt),
        word(rt, 1, &mut [0; WORD]),
        word(rt, 2, &mut [0; WORD]),
        word(rt, 3, &mut [0; WORD]),
    )
}

#[tactic(auto, using(printing::proofs::Printed::at_the_front))]
fn answer(rt: &HostRuntime, request: Request, characters: &[u8]) -> io::Result<()> {
    let mut input = Vec::new(rt.alloc());
    rt.stdin().take(INPUT).read_to_end(&mut input)?;
    // Fixed memory: the longest record and line have room.
    let mut longer = [0u8; record::MOST_BYTES];
    let mut line = [0u8; course::MOST_LINE];
    let written = play(request, characters, &input, &mut longer, &mut line);
    let longer_size = written.longer.unwrap_or(0);
    let line_size = written.line.unwrap_or(0);
    rt.stdout().write_all(&longer[..longer_size])?;
    rt.stderr().write_all(&line[..line_size])
}

fn main(rt: HostRuntime) -> io::Result<()> {
    let Some(request) = asked(&rt) else {
        return rt.stdout().write_all(
            b"usage: panel text LINE CHARACTERS | log NIGHT QUARTERS | night NIGHT\n",
        );
    };
    // A text's characters are the third word.
    answer(&rt, request, word(&rt, 3, &mut [0; WORD]))
}
