//! Sends messages to connections in memory as the lines of its input say, and prints what comes of it: a program to test `hub_machine` by.
//! Its input and the output that is wanted are those of `acceptance/machine_script.py`, where each line stands beside what it wants.
//! It implements the trait outside of its crate, with all that the trait asks, and promises nothing else.
//!
//! A line is one action, and a line that is none is refused. If memory is out, the program prints `no memory` and ends with status 7.
//!
//! ```text
//! note TEXT                          is printed
//! room                               a room without members
//! member CONN CODEC ROOM             a connection, new in it, that has room for so many messages; CODEC is `json`, `pack` or `none`
//! spread CONNS TARGET TEXTS          these connections are sent a Notify of this target, with these texts as its arguments: as many
//!                                    spellings as that takes at most. CONNS have a comma between two, and are none if they are `-`
//! got CONN                           its codec, how many more messages it has room for, and the digits of all bytes that it got
//! ```
//!
//! The lines of a machine are in `rooms`.
#![tactic(auto)]

mod notices;
mod room;
mod rooms;
mod script;
mod sending;
mod words;

use script::Bench;
use std::process::ExitCode;

fn main(rt: HostRuntime) -> ExitCode {
    ht_kit::run(&rt, Bench::start(rt.alloc()))
}
