//! A client of hubs: its peer, the lines of its script, and its turns over any dialer.
//!
//! - `running.rt`: a run of a client ([`run_client`]), turn by turn (`turn.rt`), over a dialer, lots and an output; `client.rt`: what it keeps, and how
//!   it ends.
//! - `peer.rt`: the client's peer on its link ([`ClientPeer`]), with the lines of what it does (`printing.rt`).
//! - `script.rt`: the reader of its script ([`parse`]), and `orders.rt`: one line of it, carried out on the peer.
//!
//! `specs/Running.antt` says what a turn and a run promise, `specs/Clients.antt` how a client stands for what it did, `specs/Peers.antt` how its peer
//! does, and `specs/Lines.antt` has the texts that it prints. The crate doesn't know sockets and clocks, words and files.
#![tactic(auto)]

mod client;
mod laws;
mod orders;
mod peer;
mod printing;
mod running;
mod script;
mod turn;

pub use client::{Client, ClientError};
pub use laws::long_scripts_are_refused_by_their_front;
pub use peer::ClientPeer;
pub use running::run_client;
pub use script::{ClientScript, MOST_SCRIPT, parse};
pub use sr_script::ScriptError;
