//! Asks hubs, a registry of groups and keepers as the lines of its input say, and prints what they answer: a program to test the layer of
//! hubs by. Its input and the output that is wanted are those of `acceptance/hubs_model.py`, a model over plain lists. It promises nothing
//! of its own, so no edit of it must fail.
//!
//! A line is one action, and a line that is none is refused. A value is a number, `null`, or a text after an apostrophe; a name of a group
//! or a user is a text after an apostrophe, too. If memory is out, the program prints `no memory` and ends with status 7.
//!
//! ```text
//! note TEXT                    is printed
//! calc CALL : TURN / TURN      begins a job of the calculator, gives it these turns, and prints its acts; so do `client`, `counter`
//!                              and `rooms`. A call is KIND TARGET UPLOADS VALUE .. (KIND is `notify`, `call` or `stream`), by `ann`.
//!                              A turn is `go`, `item VALUE`, `uploaded`, `broken TEXT`, `asked ENDING`, `done VALUE` or `failed`; an
//!                              ENDING is `void`, `result VALUE` or `error TEXT`
//! count HUB MOST CALL          gives turns, MOST at most, to a job as long as it gives the numbers from 1 on, and prints how many it
//!                              gave and what it did then
//! groups new NAME ..           a registry without members; the members of these groups, and the connections of users of these names, are
//!                              printed after each of `join NAME CONN`, `remove NAME CONN`, `name NAME CONN` and `gone CONN`
//! groups members NAME          its members, and the connections of the user of this name
//! groups fill CONNS EACH GROUPS USERS     so many connections join so many each of the groups 0, 1, ..., as far as
//!                              they may, and are named
//! groups sizes GROUPS          how many members these groups have, and connections the users of these names
//! groups empty CONNS           so many connections are lost
//! keeper new USERS FAILING     a keeper with these users (TOKEN:NAME with a comma between two), which fails at the calls of these
//!                              numbers (with a comma between two); `-` is none. Its further actions are `log ROOM WHO TEXT`,
//!                              `history ROOM MOST`, `user TOKEN`, `add TOKEN NAME`, `rows`, `copy`, and `each TOKEN NAME ROOM TEXT`,
//!                              which makes each call once, and prints what the last answers
//! database new                 a keeper in a database in memory without users and rows. Its further actions are those of `keeper` but
//!                              `copy`
//! ```
#![tactic(auto)]

mod groups;
mod hubs;
mod keeper;
mod report;
mod script;
mod words;

use script::Bench;
use std::process::ExitCode;

fn main(rt: HostRuntime) -> ExitCode {
    hubs::laws();
    ht_kit::run(&rt, Bench::start(rt.alloc()))
}
