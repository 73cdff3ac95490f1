//! A machine of hubs: the peers of all connections of a server, what their jobs hand up, and who is in which group.
//!
//! ```text
//! let mut machine = Machine::start(alloc)?;                        // no connections yet
//! machine.connect(alloc, conn, config, who, user)?;                // a connection gets its peer, before its first link
//! machine.attach(conn, now)?;
//! machine.feed_all(alloc, &hub, conn, now, bytes)?;                // what comes on the link
//! machine.round(alloc, &hub, &mut keeper, &mut steps, now)?;       // each job that is due has a turn, at all connections
//! while machine.say(conn, &mut out)? { .. }                        // what is due on the link
//! machine.remove_conn(conn);
//! ```
//!
//! A [`Machine`] carries out what jobs hand up: who joins and leaves groups, what a group or a user is told, what the keeper keeps and
//! recalls. A message goes to many connections by [`spread`], whoever these [`Members`] are. A connection at which nothing can happen but that
//! time passes may be parked: it sleeps, and costs nothing, until it is called or its deadline has come.
//!
//! Proved: a machine stands for the list of all that happened, and each call adds its own. A round gives each job that is due one turn,
//! connection by connection in the order of their numbers, and carries out what a job hands up before the next turn; a message to many goes to
//! each member once, in order of joining, and closes those that have no room for it; a connection that is closed is in no group. What one that
//! sleeps left out is made up for when it wakes. No more spellings are counted than there are codecs among the members of each message. What
//! is counted are the spellings of the caller's ledger: that no function of this crate opens one of its own is read off the code.
//!
//! The crate doesn't know what a hub's methods do, how a keeper keeps, nor requests, lanes and clocks.
#![tactic(auto)]

mod broadcast;
mod effects;
mod idle_set;
mod laws;
mod machine;
mod members;
mod members_of_machine;
mod peer_traffic;
mod rounds;
mod sleeping;
mod traffic;

pub use broadcast::spread;
pub use laws::{connections_are_found, connections_are_numbered, moves_come_first};
pub use machine::Machine;
pub use members::Members;
pub use traffic::Spoken;
