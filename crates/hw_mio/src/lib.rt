//! Wires over the sockets of the system, without a thread: [`MioWires`] listens on a port and dials others.
//!
//! It is the thin edge between a door and the system. A socket is read only after an event told that it may give something, and
//! written after one that it may take something, or at each 64th try; so a wire that sleeps costs no call. A wire that is shut lets its last bytes arrive: see [`MioWires`].
//!
//! ```text
//! let mut wires = MioWires::listen(&rt, alloc, address, 8080)?;
//! if let Some(error) = wires.start_error() {
//!     return say(error);                            // the port is taken, say: each poll would fail
//! }
//! loop {
//!     wires.poll(wait)?;                            // only this waits
//!     while let Some(wire) = wires.accept()? {
//!         wires.read(wire, &mut buf)?;              // answers at once, as write does
//!     }
//! }
//! ```
//!
//! Proved: what every form of [`hw_door::Wires`] keeps. No number is answered twice, moments never fall, a count is within its buffer,
//! and a call fails only if the count of faults rose in it. No call panics, and each ends, if those of the system do.
//!
//! Trusted: what a socket carries, and that it is the wire's. What was read or written is told to nobody, so no clause says that it is
//! what the peer sent or gets. Nor does one say when an event comes, that the count of faults rises only at errors, or that no wire has
//! anything to give where `none_ready` says so.
#![tactic(auto)]

mod endings;
mod incoming;
mod limits;
mod mio_wires;
mod opened;
mod ready_set;
mod refusal;
mod slot;
mod table;

pub use limits::SLOTS;
pub use mio_wires::MioWires;
