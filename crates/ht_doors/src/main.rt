//! Calls doors, dialers, wires and lots in memory as the lines of its input say, and prints what they answer: a program to test `hw_door` by.
//! Its input and the output that is wanted are those of `acceptance/doors_model.py`, a model over plain lists. It promises nothing of its
//! own, so no edit of it must fail.
//!
//! A line is one action, and a line that is none is refused. A list is numbers with a comma between two, or `-` if it is empty. If memory
//! is out, the program prints `no memory` and ends with status 7.
//!
//! ```text
//! note TEXT                          is printed
//! heard MOMENT lost LANE             is to be heard by the door or dialer that starts next, after what is to be heard already; so are
//!                                    `drained LANE`, `bytes LANE TEXT`, `response LANE STATUS` and `refused LANE STATUS [FIELD]`, whose field may
//!                                    be absent, in place of `lost LANE`
//! door start FAILING FILLING         a door that hears this, fails at the calls of these numbers, and whose lanes are full after the messages of
//!                                    these; its further actions are `next`, `reply LANE`, `send LANE KIND TEXT` (KIND is `text` or
//!                                    `octets`), `shut LANE` and `given`
//! dialer start FAILING FILLING       the same of a dialer, with `ask METHOD TARGET` and `upgrade METHOD TARGET` in place of `reply`
//! wire MOMENT READS WRITES           is given by the wires that start next: the moment from which it may be accepted, what its reads give
//!                                    (words with a comma between two, in which `*` is nothing yet and `!` the end), and the list of how
//!                                    many bytes its writes take
//! wires start MOMENTS FAILING BYTES CALLS    wires that poll these moments, with room for so many bytes and calls; their further actions
//!                                    are `poll`, `accept`, `connect`, `read WIRE ROOM`, `write WIRE TEXT`, `shut WIRE`, `written WIRE`
//! lots start DRAWS FAILING           lots that draw these bytes, each sixteen times; the further action is `draw`
//! system                             two draws of the system's were compared
//! ```
#![tactic(auto)]

mod doors;
mod lots;
mod script;
mod wires;

use script::Bench;
use std::process::ExitCode;

fn main(rt: HostRuntime) -> ExitCode {
    ht_kit::run(&rt, Bench::start(rt.alloc(), lots::of_the_system(&rt)))
}
