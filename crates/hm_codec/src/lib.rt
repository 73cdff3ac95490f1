//! The hub's messages as frames in either codec, JSON or MessagePack (HubProtocol.md of ASP.NET Core), and as they
//! stand on a stream of bytes.
//!
//! [`read_message`] says what one frame is: a message, something of a type that no message has, or refused for one
//! reason, a [`FrameWhy`]. [`write_message`] appends a message with its framing, as it stands on a stream. Cutting a
//! stream into frames is `hf_split`'s, in the framing that [`framing`] gives:
//!
//! ```text
//! let mut splitter = Splitter::start(alloc, framing(codec), most)?;
//! // after each splitter.feed(..):
//! while let Some((at, frame)) = splitter.frame()? {
//!     match read_message(alloc, codec, frame)? { .. }
//!     splitter.pass();
//! }
//! ```
//!
//! Proved: what is read is what the frame says, the reason of a refusal is the frame's, each frame has exactly one of
//! the three ([`one_meaning`]), and what is written says the message again. It does not know handshakes, connections,
//! nor what a message is answered with.
#![tactic(auto)]

mod laws;
mod reading;
mod why;
mod writing;

pub use laws::{
    controls_are_said, controls_are_short, errors_are_short, frame_is_of_image, one_meaning,
};
pub use reading::{read_message, read_message_in};
pub use why::{FrameError, FrameWhy};
pub use writing::{framing, write_message, write_message_in};
