//! The keeper of a server that has no store: it keeps the latest rows alone, in memory, and so takes no more of it however long it is
//! asked.
//!
//! ```text
//! let mut keeper = LatestKeeper::start(alloc);
//! keeper.log(alloc, &room, &who, &text)?;           // a row more, and the oldest go if it was one too many
//! let texts = keeper.history(alloc, &room, 10)?;    // the room's last ten texts among the rows held, oldest first
//! let count = keeper.rows()?;                       // how many were logged, held or not
//! ```
//!
//! It holds the longest end of the list of all rows logged that has at most [`MOST_ROWS`] rows and, in their rooms, names and texts
//! together, at most [`MOST_ROW_BYTES`] bytes.
//!
//! Proved: after any rows were logged, it holds the longest end of them that may be held and no other, and counts them all; a history is
//! that of the rows held; no call fails but for want of memory, and then all is as before.
//!
//! The crate doesn't know users, connections, nor files.
#![tactic(auto)]

mod latest_keeper;
mod laws;
mod rooms;
mod shared_row;

pub use latest_keeper::{LatestKeeper, MOST_ROW_BYTES, MOST_ROWS};
pub use laws::{held_is_bounded, latest_is_longest, latest_of_latest, none_after_too_great};
