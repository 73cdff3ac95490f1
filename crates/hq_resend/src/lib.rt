//! What an end keeps of the messages that it sends, and how it counts those that come (HubProtocol.md of ASP.NET Core,
//! "Stateful reconnect").
//!
//! [`Resend`] holds frames until the other end has them, so that a later link can carry them again. There are three kinds of
//! methods: what it is told (`push`, `ack`, `rewind`), what it gives (`next_unwritten`), and what it tells of itself.
//!
//! ```text
//! let number = resend.push(frame)?;                     // a message is sent
//! while let Some((number, bytes)) = resend.next_unwritten() {
//!     ..                                                // the link takes the bytes
//! }
//! resend.written_is_done();                             // a plain buffer lets go of what was written
//! resend.ack(upto)?;                                    // the other end has all up to this number
//! resend.rewind();                                      // a new link begins: what is held is written again
//! ```
//!
//! [`Intake`] counts: each message that comes is the next one, one that was there already, or too early.
//!
//! Proved: after any calls a buffer holds the frames pushed past the greatest Ack, or, if it doesn't keep, those that
//! aren't written; they are lent in the order in which they were pushed, with numbers from 1; and each refusal comes for
//! its cause alone and changes nothing.
//!
//! The crate doesn't know ends, codecs, how frames are written, nor links.
#![tactic(auto)]

mod frame;
mod intake;
mod laws;
mod refusals;
mod resend;
mod ring;

pub use frame::Frame;
pub use hd_delivery::{LEAST_FRAME, Limits, MOST_BYTES, MOST_COUNT, MOST_FRAME};
pub use intake::{Counted, Intake};
pub use laws::{buffer_is_within, intake_is_numbering, next_is_in_order};
pub use refusals::{Beyond, Gap, PushError};
pub use resend::Resend;
