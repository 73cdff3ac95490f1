//! What the bytes of a link say: this project's codecs, framing and handshake as one wire (HubProtocol.md of ASP.NET Core).
//!
//! An end reads with [`read_handshake`], once on its first link, and with [`read_wire_message`]; both leave what they read in the
//! splitter. What it says of itself it writes on a [`ControlBuffer`], which takes no memory after its start.
//!
//! ```text
//! match read_handshake(alloc, side, &splitter)? {  // once, on the first link
//!     None => { .. }                              // feed the splitter more
//!     Some(handshake) => { ..; splitter.pass(); splitter.reframe(hm_codec::framing(codec)); }
//! }
//! let mut scratch = Scratch::new(alloc);          // of `json`: one for all links of a thread
//! match read_wire_message(alloc, codec, &mut scratch, &splitter) {
//!     Ok(None) => { .. }                          // feed the splitter more
//!     Ok(Some(read)) => { ..; splitter.pass(); }
//!     Err(LinkFault::Refused { at, why }) => { .. }
//!     Err(LinkFault::NoMemory) => { .. }          // the frame still stands there
//! }
//! control_buffer.write(codec, Control::Ack { upto });
//! // control_buffer.bytes() is what to put on the link
//! ```
//!
//! The theorem on two ends over bytes (`hd_delivery`) speaks of any wire: functions that spell frames and read them.
//! Codecs, framing and handshake are relations (a frame says a message, bytes begin with a frame). Here a wire is this
//! project's if it agrees with these relations.
//!
//! Proved: bytes are read in one way ([`reads_once`], [`bytes_are_read`]), such a wire exists for each limit of a frame
//! ([`has_wire`]), it never waits on a full buffer ([`wire_is_sound`]), and what two ends say is read as itself
//! ([`wire_is_faithful`], [`answers_are_read`]). What the readers answer is what this wire reads, and what is written is
//! what it spells. The crate does not know ends, nor when a frame is due.
#![tactic(auto)]

mod control_buffer;
mod json_control;
mod laws;
mod pack_control;
mod reading;
mod request;
mod room;
mod size;

pub use control_buffer::{Control, ControlBuffer, MOST_CONTROL};
pub use laws::{
    answers_are_read, answers_are_spelled, bytes_are_read, has_wire, numbers_are_named, reads_once,
    says_no_more, wire_is_faithful, wire_is_sound,
};
pub use reading::{Handshake, HandshakeFault, LinkFault, read_handshake, read_wire_message};
pub use size::unframed_size;
