//! Why a frame isn't taken, an Ack isn't believed, or a number isn't counted. `Display` gives the name and the numbers.

use std::error::Error;
use std::fmt;

/// Why a frame isn't pushed.
#[derive(Clone, Copy, Debug, PartialEq, Eq)]
pub enum PushError {
    /// There is no room: as many frames are held as may be, or the bytes would pass their limit. `held` frames of `bytes`
    /// bytes are held and this one has `size`, all with their framing.
    Full {
        held: usize,
        bytes: usize,
        size: usize,
    },
    /// `hd_delivery::MOST_MESSAGES` were pushed.
    Exhausted,
}

impl fmt::Display for PushError {
    ghost use Rattle.std.specs.Prelude.{Some};
    ghost use Rattle.hq_resend.specs.Words.{push_words};

    ghost output = { λ error. Some (push_words error) };

    fn fmt<W: fmt::Write>(&self, f: &mut fmt::Formatter<W>) -> fmt::Result {
        match self {
            PushError::Full { held, bytes, size } => write!(f, "Full {held} {bytes} {size}"),
            PushError::Exhausted => f.write_str("Exhausted"),
        }
    }
}

impl Error for PushError {}

/// The other end acknowledges `got`, but no number past `most` was ever written.
#[derive(Clone, Copy, Debug, PartialEq, Eq)]
pub struct Beyond {
    pub got: u64,
    pub most: u64,
}

impl fmt::Display for Beyond {
    ghost use Rattle.std.specs.Prelude.{Some};
    ghost use Rattle.hq_resend.specs.Words.{beyond_words};

    ghost output = { λ beyond. Some (beyond_words beyond) };

    fn fmt<W: fmt::Write>(&self, f: &mut fmt::Formatter<W>) -> fmt::Result {
        write!(f, "Beyond {} {}", self.got, self.most)
    }
}

impl Error for Beyond {}

/// The number `got` can't be that of the next message, which is `most` at most.
#[derive(Clone, Copy, Debug, PartialEq, Eq)]
pub struct Gap {
    pub got: u64,
    pub most: u64,
}

impl fmt::Display for Gap {
    ghost use Rattle.std.specs.Prelude.{Some};
    ghost use Rattle.hq_resend.specs.Words.{gap_words};

    ghost output = { λ gap. Some (gap_words gap) };

    fn fmt<W: fmt::Write>(&self, f: &mut fmt::Formatter<W>) -> fmt::Result {
        write!(f, "Gap {} {}", self.got, self.most)
    }
}

impl Error for Gap {}
