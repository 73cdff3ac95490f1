//! Counts the frames of standard input and their bytes: a program to measure the splitter by.
#![tactic(auto)]

mod tally;

use std::io;
use tally::{Outcome, count};

fn main(rt: HostRuntime) -> io::Result<()> {
    match count(rt.alloc(), &mut rt.stdin())? {
        Outcome::Whole(tally) => println!(rt; "frames {} bytes {}", tally.frames, tally.bytes),
        Outcome::TooLong(at) => println!(rt; "too long at {at}"),
    }
}
