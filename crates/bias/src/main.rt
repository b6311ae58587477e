// The bias program: VDD, span and quarter or fifth as its words, the bias sheet to standard output.
#![tactic(auto)]

use sheet::sheet;
use std::env::{Env, FillError};
use std::io;
use std::io::Write;
use voltages::Drive;

// The most bytes of a word, in fixed memory; a longer one is read as an empty one.
const WORD: usize = 4096;

// How many words follow the program's name. Nothing can be promised of what the system hands over, so no library has this.
fn words(rt: &impl Env) -> usize {
    (1..usize::MAX)
        .position(|at| matches!(rt.arg(at, &mut []), Err(FillError::NotPresent)))
        .unwrap_or(0)
}

// One of them; nothing of one that is missing or longer than the buffer.
fn word<'a>(rt: &impl Env, at: usize, buffer: &'a mut [u8]) -> &'a [u8] {
    let size = rt.arg(at, buffer).unwrap_or(0);
    &buffer[..size]
}

fn asked(rt: &impl Env) -> Option<Drive> {
    sheet::asked_by(
        words(rt),
        word(rt, 1, &mut [0; WORD]),
        word(rt, 2, &mut [0; WORD]),
        word(rt, 3, &mut [0; WORD]),
    )
}

#[tactic(auto, using(printing::proofs::Printed::at_the_front))]
fn print(rt: &HostRuntime, drive: Drive) -> io::Result<()> {
    // Fixed memory: the longest sheet has room.
    let mut text = [0u8; sheet::MOST_BYTES];
    let size = sheet(drive, &mut text).unwrap_or(0);
    rt.stdout().write_all(&text[..size])
}

fn main(rt: HostRuntime) -> io::Result<()> {
    let Some(drive) = asked(&rt) else {
        return rt
            .stderr()
            .write_all(b"usage: bias VDD SPAN quarter|fifth\n");
    };
    print(&rt, drive)
}
