//! What a server keeps beyond its connections: the users that it knows by their access tokens, and the texts that were said in rooms.
//!
//! [`Keeper`] is the trait, whose calls may fail as the outside does. [`MemoryKeeper`] keeps all in memory, tells what it keeps, and
//! fails at chosen calls.
//!
//! ```text
//! let name = keeper.user_of(alloc, &token)?;        // who calls
//! keeper.log(alloc, &room, &who, &text)?;           // a row more
//! let texts = keeper.history(alloc, &room, 10)?;    // the room's last ten texts, oldest first
//! ```
//!
//! Proved: the first user with a token is the one, a row is added last, a room's last texts come oldest first, and a failed call
//! changes neither users nor rows and raises the count of faults.
//!
//! The crate doesn't know hubs, connections, nor files.
#![tactic(auto)]

mod copies;
mod keeper;
mod laws;
mod memory_keeper;
mod reading;

pub use keeper::{KeepError, Keeper};
pub use laws::ask_all;
pub use memory_keeper::MemoryKeeper;
