// The screen program: one record from standard input, the picture that it leaves to standard output.
#![tactic(auto)]

use std::env::{Env, FillError};
use std::fs::File;
use std::io;
use std::io::{Read, Write};
use view::{Wanted, view};

// A byte more than the longest record and than a ROM image, so that a longer one is seen.
const INPUT: u64 = record::MOST_BYTES as u64 + 1;

const IMAGE: u64 = dots::IMAGE_SIZE as u64 + 1;

// The most bytes of a word, in fixed memory; a longer one is read as an empty one.
const WORD: usize = 4096;

// How many words follow the program's name. Nothing can be promised of what the system hands over, so no library has this.
fn words(rt: &impl Env) -> usize {
    (1..usize::MAX)
        .position(|at| matches!(rt.arg(at, &mut []), Err(FillError::NotPresent)))
        .unwrap_or(0)
}

// One of them; nothing of one that is missing or longer than the buffer.
fn word<'a>(rt: &impl Env, at: usize, buffer: &'a mut [u8]) -> &'a [u8] {
    let size = rt.arg(at, buffer).unwrap_or(0);
    &buffer[..size]
}

fn asked(rt: &impl Env) -> Option<Wanted> {
    view::asked_by(
        words(rt),
        word(rt, 1, &mut [0; WORD]),
        word(rt, 3, &mut [0; WORD]),
        word(rt, 4, &mut [0; WORD]),
    )
}

// The ROM file, or as much of it as shows that it is too long. A name that is not UTF-8 opens no file.
fn image(rt: &HostRuntime, path: &[u8]) -> io::Result<Vec<u8>> {
    let Ok(path) = std::str::from_utf8(path) else {
        return Err(io::Error::from(io::ErrorKind::InvalidFilename));
    };
    let mut rom = Vec::new(rt.alloc());
    File::open(rt, path)?.take(IMAGE).read_to_end(&mut rom)?;
    Ok(rom)
}

// The system's words for an error, without its number.
fn words_alone(text: &str) -> &str {
    match text.split_once(" (os error ") {
        Some((words, _)) => words,
        None => text,
    }
}

// What failed with the ROM file, as a line.
fn fail(rt: &HostRuntime, path: &[u8], error: io::Error) -> io::Result<()> {
    let text = format!(in rt.alloc(); "{error}")?;
    rt.stderr().write_all(path)?;
    eprintln!(rt; ": {}", words_alone(&text))
}

#[tactic(auto, using(printing::proofs::Printed::at_the_front))]
fn show(rt: &HostRuntime, wanted: Wanted, rom: &[u8]) -> io::Result<()> {
    let mut input = Vec::new(rt.alloc());
    rt.stdin().take(INPUT).read_to_end(&mut input)?;
    // Fixed memory: the largest drawing has room.
    let mut text = [0u8; drawing::MOST_BYTES];
    let size = view(wanted, rom, &input, &mut text).unwrap_or(0);
    rt.stdout().write_all(&text[..size])
}

fn main(rt: HostRuntime) -> io::Result<()> {
    let Some(wanted) = asked(&rt) else {
        return rt
            .stdout()
            .write_all(b"usage: screen DIGITS ROM plain|dark [pbm]\n");
    };
    let mut buffer = [0u8; WORD];
    let path = word(&rt, 2, &mut buffer);
    match image(&rt, path) {
        Ok(rom) => show(&rt, wanted, &rom),
        Err(error) => fail(&rt, path, error),
    }
}
