//! The words that the definitions of this crate share with the code above: the life of a token, who asks for something and what is done
//! about it, and what a server says at an event. The numbers in the rules of a server stand here too.

ghost use Rattle.std.specs.Prelude.{◌≡◌, ◌↔◌, IsSome, IfSome};
ghost use Rattle.hd_server.specs.Numbers.{IsLiveLimit, most_live};

use hv_value::Text;
use hw_lanes::{Reply, Vec8};
use std::marker::Model;

/// The most connections that live at one moment, of any server.
pub const MOST_LIVE: u64 = 10_000;

/// The most connections that a server ever makes.
pub const MOST_CONNECTIONS: u64 = 1 << 62;

/// For how many milliseconds a token lives that is not used: until its first request, after its lane was lost, without a poll, and after
/// its connection was closed.
pub const LIVES_FOR: u64 = 30_000;

/// For how many milliseconds a poll is held at most.
pub const HELD_FOR: u64 = 90_000;

/// The most bytes of the body of a poll's reply.
pub const MOST_POLLED: usize = 65_536;

/// A poll's reply has a further frame as long as its body has at most this many bytes.
pub const MOST_BEFORE_LAST: usize = 32_763;

/// The most bytes of a frame without its framing.
pub const MOST_FRAME: usize = 32_768;

/// The most messages that the end of a connection holds.
pub const MOST_HELD: usize = 1_024;

/// The most framed bytes of these.
pub const MOST_HELD_BYTES: usize = 100_000;

/// For how many milliseconds a server lets its door wait at most.
pub const MOST_WAIT: u64 = 100;

/// The most connections of one server that live at one moment: from 1 to [`MOST_LIVE`].
#[derive(Clone, Copy, Debug, PartialEq, Eq)]
pub struct LiveLimit {
    most: u64,
}

impl Model for LiveLimit {
    ghost use Rattle.std.specs.Prelude.{ℕ};
    ghost use Rattle.hd_server.specs.Numbers.{IsLiveLimit};

    ghost Value = { ℕ };

    ghost view = { λ live. live.most };

    ghost invariant = { λ live. IsLiveLimit live.most };

    ghost inverse = { λ most. record { most = most } };
}

impl LiveLimit {
    /// 10,000.
    pub fn usual() -> LiveLimit
        ensures { result ≡ most_live }
    {
        LiveLimit { most: MOST_LIVE }
    }

    /// This limit, if it is from 1 to [`MOST_LIVE`].
    pub fn of(most: u64) -> Option<LiveLimit>
        ensures in_range { IsSome result ↔ IsLiveLimit most }
        ensures value { IfSome result (λ live. live ≡ most) }
    {
        if most < 1 || MOST_LIVE < most {
            return None;
        }
        Some(LiveLimit { most })
    }

    /// As a number.
    pub fn most(self) -> u64
        ensures value { result ≡ self }
        ensures in_range { IsLiveLimit result }
    {
        self.most
    }
}

/// The life of a token at a moment.
#[derive(Clone, Copy, Debug, PartialEq, Eq)]
pub enum Life {
    /// No connection has it, or not any more.
    Unknown,
    /// It was told, and not used.
    Fresh,
    /// Its connection stands on this lane, which is a WebSocket.
    Socket { lane: u64 },
    /// Its connection lost its lane, and can be resumed.
    Lost,
    /// Its connection polls.
    Polling,
    /// Its connection polled, and is closed. What is due can still be polled.
    Ending,
}

/// Who asks.
#[derive(Drop)]
pub enum Caller {
    /// One without an access token.
    Anonymous,
    /// The user who has the access token.
    Named(Text),
    /// No user has the access token.
    Unauthorized,
    /// The keeper, which would know, failed.
    KeeperFailed,
}

/// What is done about a request.
#[derive(Clone, Copy, Debug, PartialEq, Eq)]
pub enum Outcome {
    /// A reply of this status, and nothing else.
    Refusal(u16),
    /// A reply of status 200 that tells a new token; `reconnect`: its connection can be resumed.
    NewToken { reconnect: bool },
    /// 101, for a connection without a token.
    PlainSocket,
    /// 101, for the token's connection. An older lane is shut.
    TokenSocket,
    /// 200 at once.
    FirstPoll,
    /// An older poll ends with 204. 200 with what is due after the round, or held.
    NextPoll,
    /// 200 with what is due after the round. If nothing is, 204, and the token is unknown.
    LastPoll,
    /// 200, and the bytes of the body are read.
    Posting,
    /// 202. The connection is closed, and a held poll ends with 204.
    Deletion,
}

/// What a server says.
#[derive(Drop, PartialEq, Eq)]
pub enum Said {
    /// The reply to the request that the lane waits for.
    Reply { lane: u64, reply: Reply },
    /// One message, for a lane that is a WebSocket.
    Bytes { lane: u64, bytes: Vec8, text: bool },
    /// The lane is to end, once what was said before is written.
    Shut { lane: u64 },
}
