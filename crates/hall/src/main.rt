#![tactic(auto)]

//! Reads a tape from standard input, runs it, and prints the result.

use report::{lines_of, refusal_line};
use std::io;
use std::io::Read;
use tape::play;

/// One byte more than a tape may have: enough to tell that a tape is too long.
const MOST_READ: u64 = 4097;

fn main(rt: HostRuntime) -> io::Result<()> {
    let mut tape = Vec::new(rt.alloc());
    rt.stdin().take(MOST_READ).read_to_end(&mut tape)?;
    let played = play(&tape);
    // by reference: a run is large, and a match by value would copy it
    let text = match &played {
        Ok(played) => lines_of(rt.alloc(), played)?,
        Err(fault) => refusal_line(rt.alloc(), *fault)?,
    };
    print!(rt; "{text}")
}
