//! What `client` is asked for, and which options it has.

use crate::choice::Choice;
use hm_message::Codec;
use hub_server::ResendLimits;
use hw_door::Address;

/// The options of `client`.
pub(crate) const CLIENT_OPTIONS: &[Choice] = &[
    Choice {
        name: "codec",
        values: 1,
    },
    Choice {
        name: "token",
        values: 1,
    },
    Choice {
        name: "turns",
        values: 1,
    },
    Choice {
        name: "resend",
        values: 2,
    },
];

/// What `client` is asked for.
#[derive(Drop, PartialEq, Eq)]
pub struct Dialing {
    /// Where the hub stands, with the access token for each ask, if one is given.
    pub address: Address,
    /// The codec of what is said.
    pub codec: Codec,
    /// The client makes at most this many turns.
    pub turns: u64,
    /// How much the client's end holds.
    pub resend: ResendLimits,
}
