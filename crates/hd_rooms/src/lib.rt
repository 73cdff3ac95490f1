//! What a server of hubs means, in definitions that the crates above share. Its functions do nothing: their contracts are laws.
//!
//! - `Registry`: who is in which group and who is which user, as two lists of pairs in order of joining, in which a
//!   connection has 256 groups at most.
//! - `Kept`: what a keeper keeps, what it answers, and what several answers in order lead to.
//! - `Rooms`: the methods of the rooms hub, deed by deed.
//!
//! The crate doesn't know how anything is kept, nor lanes, sockets or the bytes of a connection.
#![tactic(auto)]

mod keeper_laws;
mod registry_laws;
mod registry_worked;
mod rooms_laws;
mod vocabulary;

pub use keeper_laws::{answers_add, answers_join};
pub use registry_laws::{counts_agree, groups_are_bounded, members_follow, pairs_stay_distinct};
pub use registry_worked::{some_join, some_leave};
pub use rooms_laws::{names_are_bounded, recalls_are_bounded, rooms_do_their_deeds, rooms_refuse};
pub use vocabulary::{Asked, MOST_GROUPS, MOST_NAME, MOST_RECALLED, RoomsMethod, Row};
