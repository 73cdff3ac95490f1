//! The lines of a report: of what an end takes, of what a peer tells and refuses, and of how an end stands.
//!
//! ```text
//! push_got(alloc, &mut report, side, number, &got)?;     // what an end took
//! push_did(alloc, &mut report, side, number, &did)?;     // what a peer took
//! push_refused_ask(alloc, &mut report, side, &why)?;     // what a peer didn't do for its user
//! ```
//!
//! `report.rt` has the lines of ends and `telling.rt` those of peers. Each call appends one line. A line begins with the letter of its side, but
//! for that of how an end stands, which begins with its name.
//!
//! Proved: what is appended is the line that `specs/Lines.antt` spells. What is refused is told in the words of the reason that the rules of ends and
//! of peers give it ([`refusals_are_told`], [`asks_are_told`], [`faults_are_told`]). Out of memory a call may have appended a part of its line.
//!
//! The crate doesn't know scripts, links nor when a line is due.
#![tactic(auto)]

mod laws;
mod report;
mod telling;

pub use laws::{asks_are_told, faults_are_told, refusals_are_told};
pub use report::{
    push_fault, push_got, push_refused_attach, push_refused_send, push_sent, push_silent,
    push_standing,
};
pub use telling::{
    Asked, push_asked, push_called, push_did, push_gone, push_peer_fault, push_refused_ask,
};
