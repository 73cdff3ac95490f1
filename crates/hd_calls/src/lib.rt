//! Calls between two peers of a hub connection (HubProtocol.md of ASP.NET Core): what a peer did over its end, what it may do
//! next, which job a call begins at the other peer, and what its caller is given for it.
//!
//! The definitions stand in `specs/`, over whole lists of moves, and over the ends, worlds and messages of the crates below. The words of
//! a hub and its jobs (`CallKind`, `Call`, `Input`, `Act`, `Deed`) are types of this crate, so that code and definitions share them.
//!
//! The crate doesn't know how frames are written, nor tables, sockets, servers or any one hub.
#![tactic(auto)]

mod laws;
mod one_peer;
mod vocabulary;
mod worlds;

ghost use Rattle.hd_calls.specs.Ledgers.{PeersKeep};
ghost use Rattle.hd_calls.specs.PeerWorlds.{HoldsInEveryPeerWorld};

pub use laws::{
    bounds_are_named, calls_once_as_sent, frames_are_tested, ids_are_drawn, peers_are_bounded,
    tables_agree, worlds_are_peers,
};
pub use one_peer::{
    an_ask_refused, ids_in_use, marks_and_deeds, own_calls_come_first, too_heavy, too_many_inputs,
    what_closes, what_is_answered, what_is_excluded, what_is_refused, what_jobs_keep,
    what_may_not_come, what_values_weigh,
};
pub use vocabulary::{
    Act, BASE_WEIGHT, Call, CallKind, Deed, Input, MOST_INPUTS, MOST_LIVE, MOST_NUMBERS,
    MOST_UPLOADS, MOST_WEIGHT, REFUSAL_TEXT, UnknownId,
};
pub use worlds::{closed_with_calls, lost_link, three_calls, too_many_calls, too_many_jobs};

/// Whatever is on the other side: the ledgers of a peer's calls, uploads and jobs are legal, what is sent for a job is what the
/// hub's meaning gives for its turns, and each call that is live when the end is closed ends once after that.
pub fn peers_keep<Job>()
    ensures { PeersKeep Job }
{
    hd_delivery::facts_hold();
}

/// In every world of two peers, with any two hubs: each call that is processed begins one job, in order, but for one that waits or
/// that comes while 1,024 jobs are live, which closes the end. Its caller is given a first part of what that job answers, which is
/// all of it once nothing is left to do, if the error for what is too long can be sent.
pub fn calls_once<C, S>()
    ensures { HoldsInEveryPeerWorld C S }
{
    hd_delivery::facts_hold();
    hd_delivery::worlds_are_histories();
    hd_delivery::delivery_over_bytes();
}
