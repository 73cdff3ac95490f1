//! Why an end refuses what it reads or what it is to send. `Display` is the words of a report.

use hm_codec::FrameWhy;
use hs_shake::ShakeError;
use std::alloc::AllocError;
use std::error::Error;
use std::fmt;

/// Why the next frame of the link isn't taken. The end is closed then, but for `NoMemory`.
#[derive(Drop, Debug, PartialEq)]
pub enum NextError {
    /// On the end's link of this number, from 0, no frame can be read at this place: `link` and `at` are 2^64-1 if they are more.
    /// The end is closed for `Reason::Protocol`.
    Frame { link: u64, at: u64, why: FrameWhy },
    /// The first frame of the first link is no handshake. A server owes its answer, and nothing else.
    Shake(ShakeError),
    /// A message would be left out: the next one has at most the number `most`. The end is closed for `Reason::Protocol`.
    Gap { got: u64, most: u64 },
    /// The other end acknowledges messages past `most`, the last that was ever said. The end is closed for `Reason::Protocol`.
    AckBeyond { got: u64, most: u64 },
    /// Out of memory: the end is as it was, and the frame is still to be read.
    NoMemory,
}

/// Why a message isn't sent: the first of these that holds. The end is as it was.
#[derive(Clone, Copy, Debug, PartialEq, Eq)]
pub enum SendError {
    /// The handshake isn't complete, and the end isn't closed.
    Opening,
    Closed,
    /// The message's frame has `size` bytes without its framing, which are too many.
    TooLong {
        size: usize,
    },
    /// So many messages and framed bytes are held that the framed frame of `size` bytes has no room.
    Full {
        held: usize,
        bytes: usize,
        size: usize,
    },
    /// `hd_delivery::MOST_MESSAGES` were sent.
    Exhausted,
    /// Out of memory. It may come in place of the three before it.
    NoMemory,
}

impl From<AllocError> for SendError {
    ghost use Rattle.std.specs.Prelude.{◌≡◌};
    ghost use Rattle.he_end.specs.declared.errors.SendError.TheVariants.{NoMemory};

    ghost from_gives = { λ _ e. e ≡ NoMemory };

    fn from(_e: AllocError) -> SendError {
        SendError::NoMemory
    }
}

impl fmt::Display for NextError {
    ghost use Rattle.std.specs.Prelude.{Some};
    ghost use Rattle.he_end.specs.Words.{next_words};

    ghost output = { λ error. Some (next_words error) };

    fn fmt<W: fmt::Write>(&self, f: &mut fmt::Formatter<W>) -> fmt::Result {
        match self {
            NextError::Frame { link, at, why } => write!(f, "frame {link} {at} {why}"),
            NextError::Shake(e) => write!(f, "shake {e}"),
            NextError::Gap { got, most } => write!(f, "gap {got} {most}"),
            NextError::AckBeyond { got, most } => write!(f, "ack {got} {most}"),
            NextError::NoMemory => f.write_str("out of memory"),
        }
    }
}

impl Error for NextError {}

impl fmt::Display for SendError {
    ghost use Rattle.std.specs.Prelude.{Some};
    ghost use Rattle.he_end.specs.Words.{send_words};

    ghost output = { λ error. Some (send_words error) };

    fn fmt<W: fmt::Write>(&self, f: &mut fmt::Formatter<W>) -> fmt::Result {
        match self {
            SendError::Opening => f.write_str("Opening"),
            SendError::Closed => f.write_str("Closed"),
            SendError::TooLong { size } => write!(f, "TooLong {size}"),
            SendError::Full { held, bytes, size } => write!(f, "Full {held} {bytes} {size}"),
            SendError::Exhausted => f.write_str("Exhausted"),
            SendError::NoMemory => f.write_str("out of memory"),
        }
    }
}

impl Error for SendError {}
