//! The door of a server and the dialer of a client over any wires: bytes that are read become requests, responses and messages, and replies, asks and
//! messages become bytes that are written. [`NetDoor`] is a [`hw_door::Door`] over any [`hw_door::Wires`]; each connection is a lane, with the number of its wire.
//!
//! ```text
//! accepted
//!    |
//!    v          its head is whole             its body is: `Request`             a reply with 101
//! waits for a head ------------> reads a body -----------------> owes a reply ------------------> is a WebSocket
//!    ^                                                                |
//!    +----------------------------------------------------------------+
//!                                any other reply
//!
//! These four are live. A live lane ends in one of three ways:
//!
//!       bytes that are no request: `Refused`            all is written, a write fails,
//!       the WebSocket is gone: `Lost`                   more than 1 MiB waits, or 30 s are over
//! live -------------------------------------> closing ---------------------------------> over
//!       the call `shut`
//!
//!       a write fails,
//!       or more than 1 MiB would wait                   its turn: `Lost`
//! live -------------------------------------> lost ------------------------------------> over
//!
//!       the wire ended or a read failed, no whole request came in 30 s, nothing could be
//!       written in 30 s while it was full, or memory was out for bytes that a WebSocket
//!       had read: `Lost`
//! live --------------------------------------------------------------------------------> over
//!
//! A live WebSocket whose wire takes less than is sent becomes full:
//!
//!           more than 256 KiB wait after a message: `send` answers true
//! not full -------------------------------------------------------------> full
//!    ^                                                                     |
//!    +---------------------------------------------------------------------+
//!       at most 64 KiB wait: in its turn `Drained`, or after a further
//!       message, to which `send` answers false
//! ```
//!
//! A lane that is closing isn't read any more, but writes what waits. The wire is shut where a lane becomes lost, and else where it is
//! over. The next call of `next` forgets a lane that is over.
//!
//! On a full lane the caller sends nothing more until it hears `Drained`. It may, but the lane is lost once more than 1 MiB would wait. A full
//! lane is read and heard as any other.
//!
//! ```text
//! let mut door = NetDoor::start(alloc, wires);
//! loop {
//!     let heard = door.next(wait)?;                        // waits for at most so many milliseconds
//!     match heard.event {
//!         Event::Request { lane, request } => door.reply(lane, reply_to(request))?,
//!         Event::Bytes { lane, bytes } => {
//!             if door.send(lane, answer_to(bytes), true)? {
//!                 pause(lane);                             // it is full: send no more there
//!             }
//!         }
//!         Event::Drained { lane } => resume(lane),
//!         Event::Refused { lane, .. } => forget(lane),     // it was answered, and nothing more is heard of it
//!         Event::Lost { lane } => forget(lane),
//!         _ => {}                                          // `Quiet`: nothing came in that time
//!     }
//! }
//! ```
//!
//! Proved, of each call, by the answers that the wires gave in it:
//!
//! - `start` takes no memory, and has no lanes.
//! - `next` begins with a flush, or goes on gathering and doesn't wait, for less than 32 calls in a row. It polls once, accepts one connection at
//!   most, and gives the lanes their turns until one hears something, which is what all bytes of that lane say. It is `Quiet` only if each lane
//!   was listened to, or rests, and the wires told in the end that none of them has anything to give. It loses no lane, and fails only where `poll`
//!   or `accept` did. Before it answers an error it flushes.
//!   A request whose head expects a 100 (RFC 9110, section 10.1.1) gets one, once, before all else, if its body isn't whole then.
//!   The wire of a WebSocket is read only once each message that is whole was heard, so its end takes none of them along.
//! - `reply` puts the text of the reply behind what waits, if a request waits for it, and writes.
//! - `send` puts the frame of a message behind what waits, if the lane is a live WebSocket that isn't gone. The message is gathered: it is written
//!   by the next flush, or here once 65,536 bytes wait. The answer is whether the lane is full then, and over whole sessions that stays so until
//!   `Drained` or another answer ([`fullness_is_told`]).
//! - `flush` writes what waits on live lanes.
//! - `shut` puts a close frame behind what waits, if the lane is a live WebSocket, and writes. The wire is shut once all is written, or in the
//!   first `next` from 30,000 ms on, which drops what waits then ([`closing_ends`]).
//!
//! What is written is so as far as the wire takes it. `reply`, `send` and `shut` leave all other lanes as they are, and change nothing when memory
//! is out. A `next` that is out of memory cuts one lane's turn short, which holds what was read, or is to be heard as lost; the others stand as
//! they were, listened or wrote. Over whole sessions, in which no call was out of memory, what is heard is what was read, what was written and
//! waits is what was replied, in order, and a wire is shut once, for a cause: [`requests_are_asked`], [`replies_are_written`] and the laws beside
//! them; a flush counts there as writes of one lane each ([`flushes_are_calls`]). The calls of a door that was just started are such a session if
//! none of `next` failed ([`calls_are_a_session`]). In any calls each lane listens sooner or later, or rests,
//! whatever the wires name ([`lanes_are_reached`]).
//!
//! [`NetDialer`] is a [`hw_door::Dialer`] over any wires. Its lanes ask once each, and await a response, or become a WebSocket; their numbers are its own.
//!
//! ```text
//! let mut dialer = NetDialer::start(alloc, wires, addresses);
//! let lane = dialer.ask(0, Method::Get, target, Some(upgrade))?;
//! loop {
//!     let heard = dialer.next(wait)?;
//!     match heard.event {
//!         Event::Upgraded { lane } => begin(lane),         // it is a WebSocket
//!         Event::Response { lane, status, body } => dialer.shut(lane)?,
//!         Event::Lost { lane } => forget(lane),            // also where the ask went nowhere
//!         _ => {}
//!     }
//! }
//! ```
//!
//! Proved of each call of a dialer: an `ask` begins at most one connection, and its text waits on the lane; `next` hears the losses of asks that went nowhere
//! first, and then polls and searches as a door does, without accepting; `send`, `shut` and `flush` do on a lane's wire what a door's do. No lane comes twice
//! ([`asks_rise`]). Over whole sessions, which its calls are if none of `next` failed ([`dialer_calls_are_a_session`]), what is written is the ask and then frames
//! ([`asks_are_written`]), what is heard is the response that the bytes read begin with ([`responses_are_given`]), after its upgrade a lane is one WebSocket
//! ([`dialed_sockets_are_carried`]), and a lane is lost and a wire shut for a cause
//! ([`dialed_losses_have_causes`], [`dialed_wires_are_shut_for_a_cause`]). `has_unwritten` tells whether something waits to be written on a lane whose wire wasn't shut.
//!
//! The crate doesn't know what a request means, what a message says, sockets, nor clocks: moments are those that the wires polled.
#![tactic(auto)]

mod asking;
mod dialer;
mod door;
mod finding;
mod first_read;
mod full;
mod http_state;
mod input;
mod lane;
mod lanes;
mod laws;
mod limits;
mod numbers;
mod protocol;
mod reactor;
mod reading;
mod refusing;
mod response_state;
mod tally;
mod turns;
mod websocket_state;
mod writers;
mod writing;

pub use dialer::NetDialer;
pub use door::NetDoor;
pub use laws::{
    asks_are_written, asks_rise, calls_are_a_session, closing_ends, dialed_fullness_is_told,
    dialed_lanes_are_bounded, dialed_losses_have_causes, dialed_sockets_are_carried,
    dialed_wires_are_shut_for_a_cause, dialer_calls_are_a_session, flushes_are_calls,
    fullness_is_told, lanes_are_bounded, lanes_are_reached, limits_are_named, losses_have_causes,
    numbers_rise, replies_are_said, replies_are_written, requests_are_asked, requests_are_free,
    requests_wait_for_replies, responses_are_given, sockets_are_carried,
    wires_are_shut_for_a_cause,
};
pub use limits::{
    MOST_BEFORE_FULL, MOST_CLOSING, MOST_DRAINED, MOST_GATHERED, MOST_GATHERED_BYTES, MOST_NAMED,
    MOST_STALLED, MOST_UNWRITTEN, MOST_WAIT,
};
