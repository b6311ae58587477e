// The bench program: one record from standard input, its table to standard output.
#![tactic(auto)]

use std::io;
use std::io::{Read, Write};
use table::table;

// A byte more than the longest record, so that a longer one is seen.
const INPUT: u64 = record::MOST_BYTES as u64 + 1;

#[tactic(auto, using(printing::proofs::Printed::at_the_front))]
fn main(rt: HostRuntime) -> io::Result<()> {
    let mut input = Vec::new(rt.alloc());
    rt.stdin().take(INPUT).read_to_end(&mut input)?;
    // Fixed memory: the longest text has room.
    let mut text = [0u8; table::MOST_BYTES];
    let size = table(&input, &mut text).unwrap_or(0);
    rt.stdout().write_all(&text[..size])
}
