//! Calls a front as the lines of its input say, and prints what it answers: a program to test `hn_server_front` by. Its input and the
//! output that is wanted are those of `acceptance/front_model.py`, which knows the rules but no code of this repository. It promises
//! nothing of its own, so no edit of it must fail.
//!
//! A line is one action, and a line that is none is refused. NOW is a moment; DRAWN is 32 hexadecimal digits. If memory is out, the
//! program prints `no memory` and ends with status 7.
//!
//! ```text
//! note TEXT                              is printed
//! front LIVE                             a front without connections, of which so many may live; 10,000 if that is absent
//! route METHOD PATH QUERY KIND           where a request leads at the base /hub; METHOD is `get`, `post`, `delete` or `other`, KIND `socket` or
//!                                        `plain`, and a QUERY of `-` is none
//! negotiate ASKED DRAWN NOW              `yes` or `no`: a connection that can be resumed; so is `sockets ASKED DRAWN NOW`
//! open NOW                               a connection without a token
//! many COUNT NOW                         so many of them, or as many as can be made; `used COUNT NOW`: each on a socket
//! busy NOW
//! life TOKEN NOW                         and `conn TOKEN NOW`; by a number `at CONN NOW`, `held CONN` and `resumable CONN`
//! socket CONN LANE NOW                   is noted; so are `poll CONN LANE NOW`, `answered CONN LANE NOW`, `lost CONN LANE NOW`,
//!                                        `ending CONN NOW` and `closed CONN`
//! expired NOW                            all that are handed out
//! ```
#![tactic(auto)]

mod asking;
mod noting;
mod script;
mod words;

use script::Bench;
use std::process::ExitCode;

fn main(rt: HostRuntime) -> ExitCode {
    ht_kit::run(&rt, Bench::start(rt.alloc()))
}
