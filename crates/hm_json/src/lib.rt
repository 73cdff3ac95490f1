//! The hub's messages as JSON frames: HubProtocol.md of ASP.NET Core, "JSON Encoding". A frame is
//! without the separator that ends it.
//!
//! ```text
//! let mut scratch = Scratch::new(alloc);             // of `json`: one for all frames
//! for frame in frames {
//!     match read_message_in(alloc, &mut scratch, frame) {
//!         Ok(Read::Message(message)) => ..,
//!         Ok(Read::Unknown(number)) => ..,           // no message has this type
//!         Err(Refusal::NoMemory) => ..,              // the frame may be a message
//!         Err(refusal) => ..,                        // it is none, each time for this reason
//!     }
//! }
//! if message.fits() { write_message(alloc, &message, &mut out)?; }   // appends a frame to `out`
//! ```
//!
//! Proved: what is read is what the frame says, and a refusal is the first of the reasons that hold;
//! each frame says one message, is of an unknown type or is refused, and no two of these
//! ([`one_meaning`]). What is written says the message again, with bytes as the text of their base64
//! ([`written_is_said`]), and after want of memory `out` is as it was.
//!
//! The crate doesn't know MessagePack, separators, handshakes, nor what a message is answered with.
#![tactic(auto)]

mod calls;
mod laws;
mod properties;
mod reading;
mod refusal;
mod short_frames;
mod writing;

pub use laws::{frame_is_of_image, one_meaning, written_is_said};
pub use reading::{read_message, read_message_in};
pub use refusal::Refusal;
pub use writing::write_message;
