//! One side of a WebSocket (RFC 6455) whose opening handshake is done, over bytes that are handed in: bytes that came become messages, and
//! messages become bytes to be written.
//!
//! ```text
//! let mut lane = SocketLane::start(alloc, SocketSide::Server);
//! lane.feed(piece)?;                             // bytes came
//! loop {
//!     match lane.read()? {
//!         SocketRead::Payload(message) => ..,    // one message
//!         SocketRead::NotYet => break,           // more bytes are needed
//!         SocketRead::Gone => { lane.shut()?; break }
//!     }
//! }
//! lane.send(bytes, text)?;                       // false: the lane is gone
//! let count = write(lane.out());                 // as many as the socket took
//! lane.drop_out(count);
//! ```
//!
//! Proved: each read takes the frames that the protocol finds in the bytes fed, and says by which its answer came; pings are answered,
//! with masks that a seed determines; a lane writes one close frame at most, with the status that belongs to its end, and nothing after
//! it; what one side sends is what the other reads, in whatever pieces its bytes leave and come, and whatever else is done with both
//! lanes; a lane that holds nothing gives back what long messages made it reserve.
//!
//! The crate doesn't know sockets, clocks, the opening handshake, nor what a message says. It stands on the kit's `websocket`, the protocol
//! without IO.
#![tactic(auto)]

mod front;
mod inbox;
mod lane;
mod laws;
mod outbox;
mod vocabulary;

pub use front::{MOST_RESERVED, empty};
pub use lane::SocketLane;
pub use laws::{
    clients_are_heard, lanes_end_once, lanes_write_frames, limits_are_named, servers_are_heard,
    sessions_are_heard,
};
pub use vocabulary::{Ending, MOST_FRAME, MOST_MESSAGE, SocketRead, SocketSide};
