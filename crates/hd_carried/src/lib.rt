//! A server over wires, in definitions: what it does through a door that speaks HTTP and WebSockets, from the bytes that are read to those that are
//! written. Its functions do nothing: their contracts are laws.
//!
//! - `Told`: what was heard and said on lanes, as the server's history has it and as its door's session does.
//! - `Answered`: over a door that was just started no request comes that may not come, so all that is heard is answered.
//! - `Wires`: what passes on each wire, from the bytes that are read to those that are written.
//!
//! The crate doesn't know how any of it is kept, hubs, sockets and clocks.
#![tactic(auto)]

mod laws;

pub use laws::{bytes_are_served, lanes_are_known, requests_come_free};
