//! The hub's messages as MessagePack frames: HubProtocol.md of ASP.NET Core, "MessagePack (MsgPack)
//! encoding". A frame is without the length before it.
//!
//! ```text
//! match read_message(alloc, frame) {
//!     Ok(Read::Message(message)) => ..,
//!     Ok(Read::Unknown(number)) => ..,               // no message has this type
//!     Err(PackRefusal::NoMemory) => ..,              // the frame may be a message
//!     Err(refusal) => ..,                            // it is none, each time for this reason
//! }
//! if message.fits() { write_message(alloc, &message, &mut out)?; }   // appends a frame to `out`
//! ```
//!
//! Proved: what is read is what the frame says in any spelling of its values, and a refusal is the
//! first of the reasons that hold; each frame says one message, is of an unknown type or is refused,
//! and no two of these ([`one_meaning`]). What is written is the shortest spelling and says the
//! message itself ([`written_is_said`]); after an error `out` is as it was.
//!
//! The crate doesn't know JSON, length prefixes, handshakes, nor what a message is answered with.
#![tactic(auto)]

mod elements;
mod laws;
mod places;
mod reading;
mod refusal;
mod writing;

pub use laws::{one_meaning, written_is_said};
pub use reading::read_message;
pub use refusal::PackRefusal;
pub use writing::write_message;
