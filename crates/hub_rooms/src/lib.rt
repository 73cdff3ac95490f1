//! The rooms hub: connections join and leave rooms, and what is posted to a room is kept and said to all in it.
//!
//! | call | what it does | how it ends |
//! |---|---|---|
//! | `Join(room)`, `Leave(room)` | the caller's connection joins or leaves the room | with no result |
//! | `Post(room, text)` | the text is kept, and then said to the room: `Posted(room, who, text)` | with no result |
//! | `Tell(user, text)` | the text is said to all connections of the user: `Told(who, text)` | with no result |
//! | `History(room, most)` | the last texts of the room, 100 at most, oldest first | with their list |
//!
//! Each deed is one turn of the call's job, and the ending one more. What can't be done ends with an error: `Unknown method.`,
//! `Not a stream.` for a Stream of any of them, `Wrong arguments.`, also for a room whose name has more than 256 bytes, and, if a deed
//! failed, `Too many groups.` of a `Join` and `The store failed.` of the others.
//!
//! Proved: a job is what `Rooms` of `hd_rooms` says of its call, and each of its acts is the one that it says.
//!
//! The crate doesn't know what a connection is, nor how anything is kept or said: it hands up deeds.
#![tactic(auto)]

mod arguments;
mod deeds;
mod hub;
mod job;

pub use hub::RoomsHub;
pub use job::RoomsJob;
