//! How connections to hub servers are dialed, in definitions that the crates above share: by a negotiate, a token and a socket, and again after
//! each loss. Its functions do nothing: their contracts are laws, and worked sessions that the checker computes.
//!
//! ```text
//!              token told                  socket up
//!  Negotiates ------------> Upgrades ------------> Stands
//!       ^  |                  ^   |                   |
//!  dial |  | lost        dial |   | lost              | lost, or the link given up
//!       |  v    (no token)    |   v    (a token)      v
//!        Away                  Away                 Away      Over: refused, five lost in a row, a draw that failed, or left
//! ```
//!
//! - `Numbers`: how many lost dials are the most, and the pauses after them.
//! - `Bodies`, `Asks`: what the body of a negotiate tells; what is asked for, at which place of the dialer's addresses.
//! - `Events`: what happened to one connection, as one list, and what is read off it.
//! - `Plans`: what is done as it is dialed and as an event is heard, and what that is to the link over it.
//! - `Dialing`: how one connection is dialed by itself, move by move (`IsDialing`).
//! - `Dialers`: how many connections are dialed over one dialer (`AreDialing`).
//! - `Telling`: what the dialer is told of what happened.
//!
//! Proved (`Laws`): a connection has one lane at most, which is that of its last ask; a token is asked for only until one is told, and what was
//! told stays; what is drawn for a socket is a key and then a seed; a lost link or dial is followed by a dial as soon as its pause is over, until
//! five dials in a row were lost, the last of which came 3,500 ms or more after the first was lost; nothing is done once it is over; what comes on
//! other lanes changes nothing; and of many connections over one dialer each is dialed as by itself, on lanes that are no other's.
//!
//! The crate doesn't know what is said over a socket, scripts, nor how any of this is kept. `hn_dialing` is the code over it.
#![tactic(auto)]

mod laws;
mod sessions;

pub use laws::{
    all_ask_by_token, all_keep_pauses, all_lose_few, away_is_dialed, dialers_are_patient,
    each_dials_alone, events_reach_one, first_losses_are_met_at_once, lanes_are_apart,
    links_count_anew, losses_are_met, moves_add, news_is_of_links, nothing_after_the_end,
    one_lane_at_most, other_lanes_pass_over, phases_suit_asks, tokens_are_kept,
    what_is_new_is_told_last,
};
pub use sessions::{
    bodies, first_dials, links_end, lost_dials_in_a_row, other_lanes, refusals, targets,
    two_connections,
};
