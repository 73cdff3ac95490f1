//! The words in which an end speaks of itself: its side, its state, what a frame gave, and why it is closed. The
//! definitions in `specs/` are over these types, so the code of an end has no others.

ghost use Rattle.std.specs.Prelude.{◌≡◌, option_map};
ghost use Rattle.hd_delivery.specs.Frames.{error_of};

use hm_message::{Codec, Message};
use hv_value::Text;

/// The most messages that an end sends, and so the greatest number of a message.
pub const MOST_MESSAGES: u64 = 1 << 62;

/// An end that said nothing on its link for this many milliseconds owes a Ping.
pub const PING_AFTER: u64 = 15_000;

/// An end that was fed nothing on its link for this many milliseconds counts it as lost.
pub const SILENCE_AFTER: u64 = 30_000;

/// The most bytes that the framing of one frame has.
pub const MOST_FRAMING: usize = 5;

/// Which end of a connection it is.
#[derive(Clone, Copy, Debug, PartialEq, Eq)]
pub enum Side {
    Client,
    Server,
}

/// What an end can do.
#[derive(Clone, Copy, Debug, PartialEq, Eq)]
pub enum State {
    /// The handshake isn't complete, so nothing can be sent.
    Opening,
    /// The end stands on a link, and can send.
    Ready,
    /// The end has lost its link and waits for the next one. It can send.
    Away,
    /// The end is closed for good: by its own side, by a fault, by the other end's Close, or by the loss of a link that
    /// it doesn't survive.
    Closed,
}

/// Why an end is closed by its own side.
#[derive(Clone, Copy, Debug, PartialEq, Eq)]
pub enum Reason {
    /// Nothing is left to do.
    Done,
    /// The other end broke the protocol.
    Protocol,
    /// The other end used an id again that is still in use.
    InUse,
    /// The other end made more calls than may be live.
    TooMany,
    /// The other end sent jobs more than they may keep.
    Flood,
    /// The other end read too slowly.
    Slow,
    /// The connection's time is over.
    Expired,
}

/// Why a frame is passed over.
#[derive(Clone, Copy, Debug, PartialEq, Eq)]
pub enum Why {
    /// The message's number is not above the count of those handed out.
    Duplicate(u64),
    /// No message has this type.
    Unknown(i128),
    /// On a later link a message came before the Sequence that tells its number, or, at version 3, before this end said
    /// its own.
    BeforeSequence,
    /// An Ack or a Sequence on a connection that isn't kept across links.
    NotUsed,
}

/// What a frame gives to the end that reads it.
#[derive(Drop, PartialEq, Eq)]
pub enum Got {
    /// The handshake is complete, in this codec and version.
    Shaken {
        codec: Codec,
        version: u8,
    },
    /// The next message of the other end.
    Message(Message),
    /// The other end has handed out all messages up to this number.
    Acked(u64),
    /// The next message has this number.
    Sequenced(u64),
    /// At version 3, the other end's opening of a later link: the number of the first message that it still held, and how
    /// many messages it has handed out.
    Resumed {
        first: u64,
        received: u64,
    },
    Ping,
    /// The frame changes nothing.
    Skipped(Why),
    /// The other end said Close, so this end is closed.
    Closed {
        error: Option<Text>,
        /// Whether this end may connect again.
        allow: bool,
    },
}

impl Reason {
    /// The error of the Close that tells the reason: none if nothing is left to do.
    pub fn text(self) -> Option<&'static str>
        ensures { option_map (λ text. text.now) result ≡ error_of self }
    {
        match self {
            Reason::Done => None,
            Reason::Protocol => Some("Protocol error."),
            Reason::InUse => Some("Id in use."),
            Reason::TooMany => Some("Too many calls."),
            Reason::Flood => Some("Too many inputs."),
            Reason::Slow => Some("Too slow."),
            Reason::Expired => Some("Connection expired."),
        }
    }
}
