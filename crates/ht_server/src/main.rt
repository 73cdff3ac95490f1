//! Has a server of rooms and calculations hear the events of its input, and prints what it says: a program to test `hub_server` by. Its input
//! and the output that is wanted are those of `acceptance/server_script.py`, where each line stands beside what it wants.
//!
//! A line is one action, and a line that is none is refused. If memory is out, the program prints `no memory` and ends with status 7.
//!
//! ```text
//! note TEXT                        is printed
//! server KEEPER LOTS USERS         a server at `/hub`, whose keeper and lots fail at these of their calls; the n-th draw is sixteen times
//!                                  the byte n. Numbers have a comma between two, and are none if they are `-`; so it is of users, whose
//!                                  names are their access tokens
//! resend COUNT BYTES              an end of each server that begins after it holds so much, if that is in range
//! live COUNT                      so many connections of each server that begins after it may live, if that is in range
//! NOW request LANE METHOD TARGET WORDS    a request; its words are `bearer=TOKEN`, `upgrade=KEY`, `shut` and `body=TEXT`
//! NOW text LANE TEXT               a message; each `|` of its text stands for a separator
//! NOW bytes LANE DIGITS            a message of these bytes
//! NOW lost LANE                    the lane was lost
//! NOW drained LANE                 the lane was full, and isn't any more
//! NOW refused LANE STATUS          the door refused a request there
//! NOW quiet                        nothing
//! full LANES NOW EVENT             one of these events: the door answers to messages for these lanes that they are full. To all other
//!                                  messages it answers that their lanes aren't
//! idle                             whether no job is due
//! hear EVENT                       the event is kept for the next `serve`
//! serve TURNS FAILING FILLING      the server serves so many turns through a door that hears these, fails at these of its calls, and whose
//!                                  lanes are full after these of its messages
//! ```
#![tactic(auto)]

mod events;
mod script;
mod show;

use script::Bench;
use std::process::ExitCode;

fn main(rt: HostRuntime) -> ExitCode {
    ht_kit::run(&rt, Bench::start(rt.alloc()))
}
