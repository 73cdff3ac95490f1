//! Who is in which group, and which connections a user has.
//!
//! A [`Registry`] stands for two lists of distinct pairs of a name and a connection, in order of joining, which `hd_rooms` defines. It
//! is indexed both ways, so that no call goes through all of it. A connection is in `MOST_GROUPS` of `hd_rooms` at most.
//!
//! ```text
//! let mut registry = Registry::start(alloc)?;
//! registry.name(alloc, &user, conn)?;                    // a connection is found to be a user's
//! let may = registry.join(alloc, &group, conn)?;         // it joins a group, if it may
//! for member in registry.members(alloc, &group)? { .. }  // in order of joining, each once
//! let left = registry.remove(&group, conn);              // it leaves the group
//! registry.gone(conn);                                   // it is lost, and leaves everything
//! ```
//!
//! Proved: each call leaves a registry that stands for the lists with that one change, and each answer is what the definitions say
//! of the lists. Out of memory a call changes nothing.
//!
//! The crate doesn't know what a connection is, nor who sends to members.
#![tactic(auto)]

mod index;
mod members;
mod names;
mod registry;

pub use registry::Registry;
