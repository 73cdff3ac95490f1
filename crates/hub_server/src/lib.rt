//! A server of hubs: what it does and says at each event that it hears, through any door.
//!
//! ```text
//! let mut server = Server::start(alloc, base, ResendLimits::usual())?;     // no connections yet; `base` is a path, such as `/hub`
//! let said = server.step(alloc, heard, &hub, &mut keeper, &mut lots)?;     // an event is heard, and this is said of it
//! server.note_sent(lane, door.send(lane, bytes, text)?);                   // of each message of it: whether its lane is full now
//! serve(alloc, &mut server, &hub, &mut door, &mut keeper, &mut lots, 1000)?;   // the same for a thousand events of a door
//! ```
//!
//! A [`Server`] answers requests by their table, keeps connections while their tokens live, lets each end of a connection read, tick and
//! write, and has a machine (`hub_machine`) do what their jobs want.
//!
//! Proved: a server stands for the list of all that it did, as `hd_server` defines it, and each event adds a turn of the definitions, which
//! asks the keeper and the lots no more and no less than that; through a door each event is answered whole before the next is heard, and a door
//! that failed is asked nothing more but to flush. That no function but `step` opens a ledger of spellings is read off the code.
//!
//! The crate doesn't know what a hub's methods do, what a machine does with what they hand up, how a keeper keeps, nor sockets and clocks.
#![tactic(auto)]

mod connections;
mod events;
mod flush;
mod lane;
mod laws;
mod requests;
mod resend;
mod server;
mod serving;
mod words;

pub use laws::polls_are_bounded;
pub use resend::{MOST_RESEND_BYTES, ResendLimits};
pub use server::Server;
pub use serving::{ServeFault, serve};
