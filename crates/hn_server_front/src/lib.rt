//! The front of a server of hubs: its tokens and the lives of its connections, and which of a server's parts a request is for
//! (TransportProtocols.md of ASP.NET Core, "POST endpoint-base/negotiate", "WebSockets" and "Long Polling").
//!
//! ```text
//! while let Some(conn) = front.expired(now) { .. }        // those whose moment has come, the least number first
//! let route = front.route(alloc, base, &request)?;         // where it leads, before any token is looked at
//! let conn = front.named(&route, now);                    // the connection that it names
//! match front.outcome(&route, &caller, resumable, now) {  // the table of requests: its first row that applies
//!     Outcome::NewToken { reconnect } => front.negotiate(alloc, reconnect, drawn, now)?,  // a connection with a token, and the body that tells it
//!     Outcome::PlainSocket => front.open(now)?,           // a connection without one
//!     Outcome::Refusal(status) => ..
//!     ..
//! }
//! front.socket(conn, lane, now);                          // what becomes of a connection is noted
//! ```
//!
//! A front stands for the list of its notes, as `hd_server` has it: each call that makes or changes a connection adds its note. Proved:
//! each answer but want of memory is what the definitions say of that list, whatever the order of calls and moments; what is done about a
//! request is the table's. Where as many connections live as may, the first that nobody used gives way to a new one; if each was used, none is made.
//!
//! The calls that note something take no memory: `negotiate` and `open` make room for all of a connection's notes. No call goes through
//! connections but those whose moment has come, unless as many live as may: then it goes through all, for the first that nobody used.
//!
//! The crate doesn't know peers, so whether an end may be resumed is handed in; nor lanes, nor what is said.
#![tactic(auto)]

mod bodies;
mod entry;
mod errors;
mod front;
mod moments;
mod outcome;
mod route;
mod token;

pub use entry::Held;
pub use errors::FrontError;
pub use front::{Front, Made, Opened};
pub use moments::Waiting;
pub use route::Route;
pub use token::Token;
