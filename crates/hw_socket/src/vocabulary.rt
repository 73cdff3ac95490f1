//! The words of a lane: its side, what a read answers, why a lane is gone, and its bounds.

use hw_lanes::Vec8;

/// The most bytes in a frame that comes, and in a message that comes, in however many frames.
pub const MOST_MESSAGE: usize = 1_048_576;

/// No frame that comes is longer, with its header of at most 14 bytes (RFC 6455, 5.2).
pub const MOST_FRAME: usize = MOST_MESSAGE + 14;

/// Which side of a WebSocket a lane is.
#[derive(Clone, Copy, Debug, PartialEq, Eq)]
pub enum SocketSide {
    /// It masks none of its frames, and takes masked ones alone.
    Server,
    /// It masks each of its frames, and takes none that is masked.
    Client {
        /// What the masks are made from. Nobody on the way may guess it (RFC 6455, 10.3).
        seed: [u8; 16],
    },
}

/// What one read answers.
#[derive(Drop)]
pub enum SocketRead {
    /// The bytes of a text or binary message, at most [`MOST_MESSAGE`] of them.
    Payload(Vec8),
    /// What was fed holds no whole frame any more.
    NotYet,
    /// Nothing is read or sent any more.
    Gone,
}

/// Why a lane is gone. This decides the status of its close frame (RFC 6455, 7.4.1).
#[derive(Clone, Copy, Debug, PartialEq, Eq)]
pub enum Ending {
    /// It was shut, and nothing was wrong.
    Shut,
    /// The other side's close frame came, and was answered.
    Answered,
    /// A frame or a message of more than [`MOST_MESSAGE`] bytes came.
    TooLong,
    /// A text that isn't UTF-8 came, as a message or as the reason of a close frame.
    NotText,
    /// The other side broke the protocol otherwise.
    Breach,
    /// A text that isn't UTF-8 was to be sent.
    BadText,
    /// A read was out of memory, and what it read is lost.
    NoMemory,
}
