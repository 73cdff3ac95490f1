//! The command `serve`: it asks its keeper how many rows there are, writes that, and lets a server of the calculator and of rooms hear
//! through its door.
//!
//! ```text
//! serve_hub(alloc, base, resend, live, turns, &mut out, &mut door, &mut keeper, &mut lots)?
//! ```
//!
//! Proved ([`serve_hub`]): what it writes, how many events it hears, and that what it gives the door for them is what a server of
//! this base says whose ends hold so much and of whose connections so many live (`hd_server`), over any door, keeper, lots and sink. What each connection did
//! there is what a peer can do, and in every world of which it is the server's side each message comes once and in order (`specs/Sides`).
//!
//! Over a `NetDoor` it is so to the byte, on each wire ([`wires_are_served`], `specs/Wires`).
//!
//! The crate doesn't know sockets, clocks or the words of a command line.
#![tactic(auto)]

mod laws;
mod serving;

pub use laws::wires_are_served;
pub use serving::{ServeError, serve_hub};
