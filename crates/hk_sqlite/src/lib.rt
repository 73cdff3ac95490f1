//! A keeper whose users and rows are in a database of SQLite, in memory or in a file.
//!
//! ```text
//! let mut keeper = SqlKeeper::open(connection)?;    // makes the two tables where they are absent
//! keeper.log(alloc, &room, &who, &text)?;           // a row more, committed before it answers
//! let texts = keeper.history(alloc, &room, 10)?;    // the room's last ten texts, oldest first
//! let connection = keeper.close();                  // for its own `close`
//! ```
//!
//! Proved, over any store of `sqlite`: where the tables are those that [`SqlKeeper::open`] makes, each call answers as the users and rows in
//! them say, an Ok call leaves in them what it says, and one that failed leaves them as they were, unless the disk has shut the connection.
//! It is so as long as the disk returns what was written. The count of faults rises at a refusal of `sqlite` other than for want of memory,
//! and at nothing else.
//!
//! The crate doesn't know rooms, connections of clients, paths of files, nor why a database can't be opened.
#![tactic(auto)]

mod faults;
mod opening;
mod sql_keeper;
mod statements;

pub use opening::SqlOpenError;
pub use sql_keeper::SqlKeeper;
