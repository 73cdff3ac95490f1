//! Calls a door or a dialer over wires in memory as the lines of its input say, and prints what it answers: a program to test `hw_net` by. Its
//! input and the output that is wanted are those of `acceptance/net_model.py`, by models over plain lists. It promises nothing of its own, so
//! no edit of it must fail.
//!
//! A line is one action, and a line that is none is refused. A list is numbers with a comma between two, bytes are hexadecimal digits, and
//! `-` is an empty list and no bytes. If memory is out, the program prints `no memory` and ends with status 7.
//!
//! ```text
//! note TEXT                          is printed
//! wire MOMENT READS WRITES           is given by the wires of what starts next: the moment from which it may be accepted, what
//!                                    its reads give (bytes with a comma between two, in which `*` is nothing yet and `!` the end), and
//!                                    the list of how many bytes its writes take. A dialer is given it whatever its moment
//! names NAMES                        the wires of what starts next name these after its polls: rising numbers each, with a `+`
//!                                    between two, or `*` for none. Asked for one, they tell the next, and after the last the first
//! address HOST PORT BASE TOKEN       is the next of the addresses of the dialer that starts next; `-` is an empty base and no token
//! door MOMENTS FAILING               a door over wires that poll these moments, and fail at the calls of these numbers
//! dialer MOMENTS FAILING             a dialer over such wires. The lines below speak to what started last
//! next WAIT                          what is heard
//! reply LANE STATUS KIND BODY ACCEPT     a reply that can be sent; KIND is `none`, `json` or `octets`
//! ask PLACE METHOD TARGET            an ask, of a dialer, at the address of this place. `KEY SEED` after it, of 16 bytes each, ask for a
//!                                    WebSocket. Answered by its lane
//! ask-long PLACE METHOD COUNT        an ask for a target of so many bytes
//! send LANE KIND BYTES               KIND is `text` or `octets`; answered by `sent, full` if the lane is full after it, and else by `sent`
//! fill LANE COUNT                    so many bytes 0 are sent
//! shut LANE
//! flush                              what waits on live lanes is written
//! written WIRE                       what was written on a wire
//! taken WIRE                         how many bytes were written on it
//! waited                             how long the wires were to wait at most in the last poll
//! shuts                              how often a wire was shut
//! dialed                             the host and the port that were dialed last
//! ```
#![tactic(auto)]

mod named;
mod script;
mod side;
mod telling;
mod words;

use script::Bench;
use std::process::ExitCode;

fn main(rt: HostRuntime) -> ExitCode {
    ht_kit::run(&rt, Bench::start(rt.alloc()))
}
