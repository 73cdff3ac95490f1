//! What doors and dialers speak of: what is heard on lanes, what is given to be said on them, and where a dialer dials.
//!
//! A lane is one connection, by its number. A moment is in milliseconds since a start of the door's own.

use hv_value::Text;
use hw_lanes::{Method, Refusal, Reply, Request, Text8, Vec8};

/// The random bytes of one ask for a WebSocket.
#[derive(Clone, Copy, Debug, Drop, PartialEq, Eq)]
pub struct Upgrade {
    /// The key of `Sec-WebSocket-Key` (RFC 6455, section 4.1).
    pub key: [u8; 16],
    /// The seed of the masks of all frames that are sent (RFC 6455, section 5.3).
    pub seed: [u8; 16],
}

/// What happened on the lanes.
#[derive(Drop, PartialEq, Eq)]
pub enum Event {
    /// A whole request came.
    Request { lane: u64, request: Request },
    /// What came is no request, which was answered with this refusal.
    Refused { lane: u64, refusal: Refusal },
    /// A whole message came, on a lane that is a WebSocket.
    Bytes { lane: u64, bytes: Vec8 },
    /// The response to what was asked came.
    Response { lane: u64, status: u16, body: Vec8 },
    /// The lane that asked for a WebSocket is one.
    Upgraded { lane: u64 },
    /// The lane ended, and nothing more comes from it.
    Lost { lane: u64 },
    /// The lane, which is a WebSocket, was full by the answer to the last message sent there, and isn't any more.
    Drained { lane: u64 },
    /// Nothing came while there was time to wait.
    Quiet,
}

/// What happened, and at what moment.
#[derive(Drop, PartialEq, Eq)]
pub struct Heard {
    pub now: u64,
    pub event: Event,
}

/// What a door or a dialer was given to say.
#[derive(Drop, PartialEq, Eq)]
pub enum Given {
    Reply {
        lane: u64,
        reply: Reply,
    },
    /// One message, for a lane that is a WebSocket.
    Bytes {
        lane: u64,
        bytes: Vec8,
        text: bool,
    },
    /// The lane is to end.
    Shut {
        lane: u64,
    },
    /// A request with no body, on a new lane, at the address that stands at this place of the dialer's list, from 0.
    Ask {
        lane: u64,
        place: u64,
        method: Method,
        target: Text8,
        upgrade: Option<Upgrade>,
    },
}

/// Where a dialer dials.
#[derive(Drop, PartialEq, Eq)]
pub struct Address {
    pub host: Text,
    pub port: u16,
    /// What stands before each target.
    pub base: Text,
    /// The access token that each ask has.
    pub token: Option<Text>,
}
