//! Has wires over the sockets of the system meet plain sockets of std and each other, over the loopback address, as the lines of its input
//! say: the tests of `hw_mio`. Its input and the output that is wanted are those of `acceptance/mio_script.py`, where each line stands beside
//! what it wants. It promises nothing of its own, so no edit of it must fail.
//!
//! A line is answered by one line (`script` has them).
#![tactic(auto)]

mod peers;
mod script;
mod sides;

use script::Bench;
use std::process::ExitCode;

fn main(rt: HostRuntime) -> ExitCode {
    ht_kit::run(&rt, Bench::start(&rt, rt.alloc()))
}
