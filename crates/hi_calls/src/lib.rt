//! The calls that a peer makes (HubProtocol.md of ASP.NET Core, "Invocations", "Streaming", "Upload streaming"): the numbers and ids
//! that they draw, and which of them and of their uploads are live.
//!
//! ```text
//! let (number, message) = calls.begin(alloc, kind, target, arguments, uploads)?;
//! if end.send(alloc, &message).is_err() {
//!     calls.undo();                          // it wasn't made after all
//! }
//! let number = calls.item(&id)?;             // an item came for a Stream
//! let number = calls.settle(&id)?;           // a call's ending came
//! while let Some(number) = calls.lose_next() {
//!     ..                                     // the end is closed: what is live is gone
//! }
//! ```
//!
//! A table stands for the list of what happened to its calls, as `hd_calls` has it: each call of this crate adds its happening.
//! Proved: numbers and ids are drawn in order, each refusal comes for its cause alone, at most 1,024 calls and uploads are live, and the
//! ledger of each call is legal.
//!
//! The crate doesn't know ends, codecs, jobs, nor what is in a message that comes.
#![tactic(auto)]

mod calls;
mod errors;
mod ids;
mod laws;
mod owners;

pub use calls::Calls;
pub use errors::CallError;
pub use laws::{calls_are_made, ids_are_of_a_side, ledgers_are_legal, notices_pass};
