//! Does with a WebSocket lane what the lines of its input say, and says what the lane answers: the tests of `hw_socket`.
//!
//! `acceptance/sockets_script.py` writes the lines, and what is to be answered, from RFC 6455 and Python's hashlib.
#![tactic(auto)]

mod script;

use script::Bench;
use std::process::ExitCode;

fn main(rt: HostRuntime) -> ExitCode {
    ht_kit::run(&rt, Ok(Bench::start(rt.alloc())))
}
