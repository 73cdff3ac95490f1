//! The hub that `sr` serves: the methods of the calculator and those of rooms in one.
//!
//! ```text
//! let hub = ServeHub::new();
//! let mut job = hub.begin(alloc, &call, now)?;
//! let act = hub.step(alloc, &mut job, &Input::Go, now)?;
//! ```
//!
//! Proved: a call of a target that names a room's method begins the job of the rooms hub, and every other call that of the calculator,
//! which refuses what it doesn't know; and each job does what its own hub means ([`rooms_are_served`], [`calculations_are_served`]).
//!
//! The crate doesn't know what either hub's methods do.
#![tactic(auto)]

mod hub;
mod laws;

pub use hub::{ServeHub, ServeJob};
pub use laws::{calculations_are_served, rooms_are_served};
