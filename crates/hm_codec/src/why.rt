//! Why a frame, or what should be one, is no message.
ghost use Rattle.std.specs.Prelude.{◌≡◌};
ghost use Rattle.hm_codec.specs.Words.{why_words, error_words};
ghost use Rattle.hm_codec.specs.Refusals.{of_json, of_pack};

use hf_split::SplitFault;
use hm_json::Refusal;
use hm_pack::PackRefusal;
use std::alloc::AllocError;
use std::error::Error;
use std::fmt;

/// Why bytes of a stream are no message: no frame can begin with them, or the frame is refused. It is never want of
/// memory. `Display` is the words of a report.
#[derive(Clone, Copy, Debug, PartialEq, Eq)]
pub enum FrameWhy {
    /// No frame can begin at this place of the stream.
    Split(SplitFault),
    /// The frame is no message in JSON.
    Json(Refusal),
    /// The frame is no message in MessagePack. Its places count from the frame's first byte.
    Pack(PackRefusal),
}

/// Why a frame was not read.
#[derive(Clone, Copy, Debug, PartialEq, Eq)]
pub enum FrameError {
    /// It is refused: the same frame is refused for this reason each time.
    Refused(FrameWhy),
    /// Out of memory. What the frame says is not known.
    NoMemory,
}

impl fmt::Display for FrameWhy {
    ghost use Rattle.std.specs.Prelude.{Some};
    ghost use Rattle.hm_codec.specs.Words.{why_words};

    ghost output = { λ why. Some (why_words why) };

    fn fmt<W: fmt::Write>(&self, f: &mut fmt::Formatter<W>) -> fmt::Result {
        match self {
            FrameWhy::Split(fault) => write!(f, "{fault}"),
            FrameWhy::Json(refusal) => write!(f, "{refusal}"),
            FrameWhy::Pack(refusal) => write!(f, "{refusal}"),
        }
    }
}

impl Error for FrameWhy {}

impl fmt::Display for FrameError {
    ghost use Rattle.std.specs.Prelude.{Some};
    ghost use Rattle.hm_codec.specs.Words.{error_words};

    ghost output = { λ error. Some (error_words error) };

    fn fmt<W: fmt::Write>(&self, f: &mut fmt::Formatter<W>) -> fmt::Result {
        match self {
            FrameError::Refused(why) => write!(f, "{why}"),
            FrameError::NoMemory => f.write_str("out of memory"),
        }
    }
}

impl Error for FrameError {}

impl From<AllocError> for FrameError {
    ghost use Rattle.std.specs.Prelude.{◌≡◌};
    ghost use Rattle.hm_codec.specs.declared.why.FrameError.TheVariants.{NoMemory};

    ghost from_gives = { λ _ e. e ≡ NoMemory };

    fn from(_e: AllocError) -> FrameError {
        FrameError::NoMemory
    }
}

impl From<Refusal> for FrameError {
    ghost use Rattle.std.specs.Prelude.{◌≡◌};
    ghost use Rattle.hm_codec.specs.Refusals.{of_json};

    ghost from_gives = { λ e r. r ≡ of_json e };

    fn from(e: Refusal) -> FrameError {
        match e {
            Refusal::NoMemory => FrameError::NoMemory,
            e => FrameError::Refused(FrameWhy::Json(e)),
        }
    }
}

impl From<PackRefusal> for FrameError {
    ghost use Rattle.std.specs.Prelude.{◌≡◌};
    ghost use Rattle.hm_codec.specs.Refusals.{of_pack};

    ghost from_gives = { λ e r. r ≡ of_pack e };

    fn from(e: PackRefusal) -> FrameError {
        match e {
            PackRefusal::NoMemory => FrameError::NoMemory,
            e => FrameError::Refused(FrameWhy::Pack(e)),
        }
    }
}
