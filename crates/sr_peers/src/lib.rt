//! The two peers of a replay: a client's and a server's peer (`hp_peer`) do what a script's actions say, over links that come and go, and what
//! they do is reported.
//!
//! ```text
//! let mut peers = Peers::start(alloc, config)?;
//! peers.act(alloc, action, &mut report)?;            // for each action of a script with peers
//! peers.finish(alloc, &mut report)?;                 // the two last lines
//! ```
//!
//! `party.rt` is one peer on its link, `peers.rt` both and the links between them, `lane.rt` one link.
//!
//! `specs/Doings.antt` says what a peer makes of an action: the moves that follow from one another, each the one that comes next, and the calls
//! that are gone once its end is closed. `specs/Told.antt` has the lines of these moves, `specs/Runs.antt` the runs of two peers,
//! `specs/Works.antt` which actions write, read or step anything, and `specs/Report.antt` what is promised of a report. What a peer can do by itself goes on as a world of two ([`worlds_grow`],
//! `specs/Grows.antt`) if what it reads is what the other side lent ([`reads_are_said`]); all else keeps to its side ([`others_join`],
//! [`doings_keep`]).
//!
//! Proved: the moves of two peers are those of a run of the actions that they did, and a world of two peers, so calls are carried out once in it
//! ([`Peers::act`], [`Peers::finish`]; without a report [`Peers::calls_once`]).
//!
//! The crate doesn't know how scripts are written.
#![tactic(auto)]

mod lane;
mod laws;
mod party;
mod peers;

pub use laws::{
    doings_keep, one_side_grows, others_join, reads_are_said, what_is_lent_goes_on, worlds_grow,
    writes_lend,
};
pub use party::Party;
pub use peers::Peers;
