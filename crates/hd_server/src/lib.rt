//! What a server of hubs does at each event, from what it hears to what it says, in definitions that the crates above share. Its functions
//! do nothing: their contracts are laws, and worked rows that the checker computes.
//!
//! - `Lives`: what is noted of connections, and the life of a token at a moment.
//! - `Texts`: tokens, and the body that tells one.
//! - `Table`: what is done about a request, by its first row that applies.
//! - `Machine`: the peers of a server, round by round, and the deeds that their jobs hand up.
//! - `Doings`: what a server did, as one list, and what is read off it.
//! - `Plans`, `Serves`: what a server does at one event (`IsTurn`), and at any list of events (`Serves`).
//! - `Parts`: of which events each part of a turn consists.
//! - `Serving`: how long it lets its door wait, and what it gives it to say (`ServesOn`).
//!
//! Proved (`Laws`): each connection of a server does what a peer can do by itself; after an event nothing is due on a socket
//! whose lane isn't full, or a held poll; at most as many connections live as the server was begun with; each request has at most one reply, and none waits for one but
//! held polls; a deed is told to each member once, by what its end can send; a connection is in 256 groups at most; a socket that names a
//! token is answered by its life; a moment that has come comes once;
//! the body of a poll is bounded if its frames are; an idle tick changes nothing that is said or read then. The rows of the table and
//! whole sessions are computed.
//!
//! The crate doesn't know how a request is spelled, nor how a server keeps any of this.
#![tactic(auto)]

mod laws;
mod lives;
mod sessions;
mod table;
mod vocabulary;

pub use laws::{
    allowed_are_served, bodies_are_bounded, broadcasts_once, connections_in_order,
    each_request_is_answered, fates_are_refusals, few_live, groups_are_few, idle_ticks,
    lives_are_settled, lots_matter_to_tokens, moments_come_once, nothing_left, numbers_are_named,
    outcomes_suit, parts_of_turns, served_is_serves, servers_are_peers, servers_have_few,
    servers_note_in_order, sockets_by_life, tokens_differ, turns_are_tested, turns_go_further,
    what_is_told_grows,
};
pub use lives::{connections, fresh_tokens, known_tokens, polls, sockets, tokens};
pub use sessions::{
    a_room_is_joined, broadcasts, closings, conflicts, ends_of_polls, first_sockets, full_lanes,
    giving_way, held_polls, histories, idle_servers, losses, refusals, refused_lanes, rooms,
    silences, takeovers,
};
pub use table::{by_life, negotiates, without_token};
pub use vocabulary::{
    Caller, HELD_FOR, LIVES_FOR, Life, LiveLimit, MOST_BEFORE_LAST, MOST_CONNECTIONS, MOST_FRAME,
    MOST_HELD, MOST_HELD_BYTES, MOST_LIVE, MOST_POLLED, MOST_WAIT, Outcome, Said,
};
