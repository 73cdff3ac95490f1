//! One end of a hub connection: link bytes to messages and back, over links that come and go (HubProtocol.md of ASP.NET Core).
//!
//! ```text
//!            attach, request and response                          detach, silence
//! Opening ---------------------------------> Ready <---------------------------------> Away
//!    |                                         |                 attach                  |
//!    +--------------------+--------------------+--------------------+--------------------+
//!                         v      a fault, a Close that is read, close; on a connection
//!                      Closed    that isn't kept, or before the handshake, a lost link
//! ```
//!
//! There are four kinds of calls: what you tell it ([`End::attach`], `detach`, `feed`, `tick`, `close`), what you ask of it
//! ([`End::send`], [`End::send_shared`] of what [`spell`] gave), what it tells you ([`End::next`] or [`End::next_in`],
//! [`End::next_out`]), and getters.
//!
//! ```text
//! end.attach(now)?;                                  // a link begins
//! loop {
//!     while let Some(bytes) = end.next_out() { .. }  // the link takes the bytes
//!     if end.tick(now) { break; }                    // a silence: the link is lost
//!     let mut piece = ..;                            // what the link brought
//!     while !piece.is_empty() {
//!         let taken = end.feed(piece);
//!         piece = &piece[taken..];
//!         while let Some(got) = end.next(alloc)? { .. }
//!         if taken == 0 { break; }                   // closed
//!     }
//! }
//! end.detach(now);                                   // the link is lost
//! ```
//!
//! Memory is taken by `start`, `next`, `next_in`, `send` and `spell` alone, and by `send_shared` for a further owner of its
//! frame.
//!
//! Proved: an end stands for its history (`specs/Stands.antt`), of which `hd_delivery` speaks. Each call makes the step that is
//! named in its contract, or leaves the history as it was: `next` gives what the next frame makes and `next_out` what is due. So
//! two ends deliver what they send, whatever links do ([`ends_deliver`]).
//!
//! The crate doesn't know sockets, clocks nor hubs: moments are handed in, in milliseconds, and never fall.
#![tactic(auto)]

mod config;
mod end;
mod errors;
mod laws;
mod link;
mod next_frame;
mod session;
mod spelled;
mod taking;

pub use config::Config;
pub use end::End;
pub use errors::{NextError, SendError};
pub use laws::ends_deliver;
pub use session::AttachError;
pub use spelled::{Spelled, Steps, spell};
