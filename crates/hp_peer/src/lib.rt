//! A peer: one end of a hub connection with the calls that its side makes and the jobs of the calls that come (HubProtocol.md of ASP.NET
//! Core, "Invocations", "Streaming", "Upload streaming").
//!
//! There are five kinds of calls: those of its end ([`Peer::attach`], `detach`, `feed`, `tick`, `close`, `next_out`), what its user asks of it
//! ([`Peer::call`], `cancel`, `upload_item`, `upload_end`, `send_spelled`), what comes ([`Peer::take`] or [`Peer::take_in`]), what its jobs
//! want (`begin_round`, [`Peer::step_job`], `answer`, `due`), and what is lost with a closed end (`lost_call`).
//!
//! ```text
//! peer.attach(now)?;                                     // a link begins
//! let number = peer.call(alloc, kind, target, arguments, uploads)?;
//! while let Some(bytes) = peer.next_out() { .. }         // the link takes the bytes
//! piece = &piece[peer.feed(piece)..];                    // what the link brought
//! while let Some(did) = peer.take(alloc, hub, now)? { .. }
//! peer.begin_round();                                    // each job that is due has a turn
//! while let Some((job, deed)) = peer.step_job(alloc, hub, now)? { .. }
//! while let Some(number) = peer.lost_call() { .. }       // the end is closed: what is live is gone
//! ```
//!
//! A peer stands for the list of its moves, as `hd_calls` has them: each call of this crate adds its own, or leaves the list as it was.
//! Proved: what is sent, taken and refused follows from that list alone, and each move is one that a peer may make. So each call of the other
//! side that is taken begins one job, or closes the end for the reason that is told, and each own call ends at most once
//! ([`peers_keep_their_calls`]), and of two that they carry out each other's calls once ([`peers_call_once`]).
//!
//! The crate doesn't know sockets, clocks, servers, nor what any one hub's methods do.
#![tactic(auto)]

mod did;
mod errors;
mod incoming;
mod job_effects;
mod job_turns;
mod laws;
mod own_calls;
mod peer;

pub use did::Did;
pub use errors::{AskError, PeerError};
pub use laws::{peers_call_once, peers_keep_their_calls};
pub use peer::Peer;
