//! HTTP/1.1 over bytes that are handed in: requests for a server, responses for a client, and what both write (RFC 9110 and 9112, and the
//! handshake of RFC 6455).
//!
//! [`HttpLane`] is fed the bytes of one connection in any pieces and gives its requests; [`ResponseLane`] gives the responses that a server
//! sent. [`write_reply`], [`write_continue`] and [`write_ask`] append what is to be sent.
//!
//! ```text
//! let count = lane.feed(piece);
//! match lane.next_request() {
//!     Ok(Some(request)) => ..,                // if `request.upgrade` is some, what follows is `lane.rest()`
//!     Ok(None) => ..,                         // more bytes are wanted; if `lane.take_continue()`, write a 100 first
//!     Err(HttpError::Refused(refusal)) => .., // the lane is spent
//!     Err(HttpError::NoMemory) => ..,         // the lane is as before
//! }
//! ```
//!
//! Proved for all bytes and all ways to cut them into pieces: the requests and responses that are handed out are those that the bytes
//! begin with, one after the other; each of their fields is what the head says; `None` comes only where more bytes may make one, and each
//! refusal for its reason; a 100 is due once for each request that expects one and whose body didn't come with its head; what is written is
//! the text that `specs/Texts.antt` defines. No more is held than [`MOST_HEAD`] bytes or the request whose head was read.
//!
//! The crate doesn't know sockets, what a target means, nor the frames of a WebSocket.
#![tactic(auto)]

mod body;
mod error;
mod fields;
mod head;
mod key;
mod lane;
mod laws;
mod limits;
mod message;
mod message_lane;
mod response;
mod response_lane;
mod texts;

pub use error::HttpError;
pub use key::accept_key;
pub use lane::HttpLane;
pub use laws::limits_are_named;
pub use limits::{MOST_BODY, MOST_HEAD, MOST_HEADERS};
pub use response::Response;
pub use response_lane::ResponseLane;
pub use texts::{accept_of_ask, write_ask, write_continue, write_reply};
