//! Whole requests and replies, and the connections that carry them, as a server and a client see them: doors, dialers and lots.
//!
//! A [`Door`] is what a server hears through, and says through: each call of `next` gives one [`Heard`], and a reply or the bytes of a
//! WebSocket go out on a lane, which is a connection by its number. A [`Dialer`] is the same for a client, which asks first. [`Lots`]
//! are random draws. [`Wires`] are connections as streams of bytes, which doors stand on outside. [`MemoryDoor`], [`MemoryDialer`],
//! [`MemoryLots`] and [`MemoryWires`] are forms of them in memory that fail at chosen calls, for tests; [`RandLots`] draws from the
//! system.
//!
//! ```text
//! let heard = door.next(wait)?;                     // waits for at most so many milliseconds
//! match heard.event {
//!     Event::Request { lane, request } => door.reply(lane, reply_to(request))?,
//!     Event::Bytes { lane, bytes } => {
//!         let full = door.send(lane, answer_to(bytes), true)?;     // if it is, send no more until `Event::Drained { lane }`
//!     }
//!     ..
//! }
//! ```
//!
//! Proved: a call fails only if the count of faults rose in it, moments never fall, a lane is answered once, and the forms in memory
//! give exactly what they were made with and keep exactly what they were given. Each call of a door leads from its state before to its state
//! after, as it was answered. Wires tell what each call answered, in order.
//!
//! The crate doesn't know how a request is spelled, what is done with one, sockets, nor clocks.
#![tactic(auto)]

mod copies;
mod error;
mod heard;
mod ledger;
mod line;
mod lines;
mod listed;
mod memory_dialer;
mod memory_door;
mod memory_lots;
mod memory_wire;
mod memory_wires;
mod moments;
mod rand_lots;
mod scripted;
mod traits;
mod wires;

pub use error::DoorError;
pub use heard::{Address, Event, Given, Heard, Upgrade};
pub use memory_dialer::MemoryDialer;
pub use memory_door::MemoryDoor;
pub use memory_lots::MemoryLots;
pub use memory_wire::{MemoryWire, WireGiven};
pub use memory_wires::MemoryWires;
pub use rand_lots::RandLots;
pub use traits::{Dialer, Door, Lots};
pub use wires::{WireRead, Wires};
