//! How connections to hub servers are dialed: by a negotiate, a token and a socket, and again after each loss (TransportProtocols.md of ASP.NET
//! Core, "POST endpoint-base/negotiate" and "WebSockets"). A [`Connection`] says what one of them asks of a dialer, and when.
//!
//! ```text
//! let mut connection = Connection::start(DialSetup::at(0, &address)?);
//! loop {
//!     if connection.dial(alloc, dialer, lots)? {                     // if it is due: a lane is asked for
//!         continue;
//!     }
//!     let heard = dialer.next(connection.wait_left())?;               // while it is away; else as long as one likes
//!     match connection.hear(alloc, heard.now, &heard.event, dialer, lots)? {
//!         News::Begins { lane } => ..                                // the socket is up: a link begins
//!         News::Brings(bytes) => ..
//!         News::Drains => ..                                         // the lane isn't full any more
//!         News::Ends => ..                                           // the link is lost, and the connection is dialed again
//!         News::Nothing => {}
//!     }
//!     if connection.is_over() { break; }                             // refused, five dials in a row lost, or a draw failed
//! }
//! ```
//!
//! Proved: a connection keeps what `hd_dialing` reads off what happened to it; each call adds to that what the definitions say; and the dialer and
//! the lots are told what is new, and no more. After the first failed call of the dialer nothing is asked of it; what it was told before is a first
//! part of what the whole call tells, and the connection is over.
//!
//! `hub_address` reads where a hub stands from its URL.
//!
//! The crate doesn't know what is said over a socket, nor sockets and clocks.
#![tactic(auto)]

mod address;
mod asking;
mod bodies;
mod connection;
mod errors;
mod hearing;
mod news;
mod numbers;
mod phase;
mod setup;
mod targets;

pub use address::{AddressError, addresses_are_one, hub_address};
pub use bodies::Granted;
pub use connection::Connection;
pub use errors::DialFault;
pub use news::News;
pub use numbers::MOST_LOST;
pub use phase::Phase;
pub use setup::DialSetup;
