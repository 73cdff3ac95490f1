//! Carries out a script on a lane of requests and a lane of responses, and prints what they answer: a program to test `hh_http` by. Its
//! input and the output that is wanted are those of `acceptance/http_model.py`, which knows the rules but no code of this repository.
//!
//! A line is one action: a word, and what follows the space after it. `\r`, `\n`, `\\` and `\xHH` in it stand for bytes. A line that is no
//! action is refused. If out of memory, the program ends with the line `no memory` and status 7.
#![tactic(auto)]

mod bytes;
mod report;
mod script;
mod writing;

use script::Bench;
use std::process::ExitCode;

fn main(rt: HostRuntime) -> ExitCode {
    ht_kit::run(&rt, Bench::start(rt.alloc()))
}
