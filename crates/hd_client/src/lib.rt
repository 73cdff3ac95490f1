//! What a client of hubs does, turn by turn, in definitions that the crates above share, over those of dialing (`hd_dialing`). Its functions do
//! nothing: their contracts are laws, and worked sessions that the checker computes.
//!
//! - [`Order`], `Refusals`: what the lines of its script ask for, and why its peer doesn't do it.
//! - `Setups`, `Events`: how it is begun; what it did, as one list, and what is read off it.
//! - `Printed`: what it prints, which is a function of that list.
//! - `Plans`, `Turns`: what it does in one turn, and in any list of turns (`Turns`).
//! - `Telling`: how long it lets its dialer wait, and what it gives, draws, sees and prints (`DialsOn`).
//!
//! Proved (`Laws`): its connection is dialed by the rules of dialing; its peer does what a peer can do, and delivers; a call is printed as ended once;
//! after a turn nothing is due on a lane that isn't full, and a client that is over has no lane up; what is told through a dialer is what turns
//! give and print; why it doesn't send is computed as the rules of peers say it.
#![tactic(auto)]

mod laws;
mod order;
mod sessions;

pub use laws::{
    calls_end_once, clients_are_dialed, clients_are_sides, dialed_is_turns, ends_leave_no_lane,
    nothing_left, reasons_are_computed, refusals_are_right,
};
pub use order::Order;
pub use sessions::{
    a_link_is_lost, adds, dials_end, ends_that_come, lanes_fill, scripts_end, silences,
};
