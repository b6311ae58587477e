// The mend program: a record that was cut from standard input, mended to standard output, and a line about it to standard error.
#![tactic(auto)]

use report::report;
use std::io;
use std::io::{Read, Write};

// A byte more than the longest input, so that a longer one is seen.
const INPUT: u64 = report::MOST_INPUT as u64 + 1;

fn main(rt: HostRuntime) -> io::Result<()> {
    let mut input = Vec::new(rt.alloc());
    rt.stdin().take(INPUT).read_to_end(&mut input)?;
    // Fixed memory: the longest record and line have room.
    let mut mended = [0u8; record::MOST_BYTES];
    let mut line = [0u8; report::MOST_LINE];
    if let Ok(sizes) = report(&input, &mut mended, &mut line) {
        rt.stdout().write_all(&mended[..sizes.mended])?;
        rt.stderr().write_all(&line[..sizes.line])?;
    }
    Ok(())
}
