//! Has both halves of the lanes meet over sockets on the loopback address, on one thread: a server and a client of hubs, and a door and a dialer.
//! Its input and the output that is wanted are those of `acceptance/loopback_script.py`, which works the answers out by itself. It promises
//! nothing of its own, so no edit of it must fail.
//!
//! A line is one action, and a line that is none is refused. If memory is out, the program prints `no memory` and ends with status 7.
//!
//! ```text
//! note TEXT                  is printed
//! order LINE                 is the next line of the script of the client that starts next
//! session CODEC TURNS        a server of rooms and calculations, and a client of that script, have turns one after the other, so many at
//!                            most; CODEC is `json` or `pack`. Answered by the lines that the client printed, and how it ended
//! cuts SEED COUNT LIVE       a door and a dialer have so many conversations (`plan` has what is drawn of each), so many at once at most.
//!                            Answered by counts of what the dialer heard, and of what either heard wrong
//! ```
#![tactic(auto)]

mod callers;
mod draws;
mod exchange;
mod guests;
mod plan;
mod script;
mod session;
mod sockets;

use script::Bench;
use std::process::ExitCode;

fn main(rt: HostRuntime) -> ExitCode {
    ht_kit::run(&rt, Bench::start(&rt, rt.alloc()))
}
