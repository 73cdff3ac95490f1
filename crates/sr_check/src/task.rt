//! What can be done with a stream of frames, and why it may stop.
ghost use Rattle.std.specs.Prelude.{◌≡◌};
ghost use Rattle.sr_check.specs.Output.{codec_of};
ghost use Rattle.sr_check.specs.Words.{stop_words};

use hm_message::Codec;
use std::alloc::AllocError;
use std::error::Error;
use std::fmt;

/// What is done with a stream of frames.
#[derive(Clone, Copy, Debug, PartialEq, Eq)]
pub enum Task {
    /// A line of each frame is written: its place, which is the number of bytes before it, and what it is.
    Check { codec: Codec },
    /// Each message is written as a frame of another codec. What is of an unknown type is dropped.
    Convert { from: Codec, to: Codec },
}

impl Task {
    /// The codec of the stream that is read.
    pub(crate) fn codec(self) -> Codec
        ensures { result ≡ codec_of self }
    {
        match self {
            Task::Check { codec } => codec,
            Task::Convert { from, .. } => from,
        }
    }
}

/// Why a task was not done.
#[derive(Clone, Copy, Debug, PartialEq, Eq)]
pub enum Stop {
    /// A frame is refused, or the input ends in the middle of one, or it is longer than 2^40 bytes.
    Refused,
    /// The input failed.
    ReadFault,
    /// The output failed.
    WriteFault,
    NoMemory,
}

impl From<AllocError> for Stop {
    ghost use Rattle.std.specs.Prelude.{◌≡◌};
    ghost use Rattle.sr_check.specs.declared.task.Stop.TheVariants.{NoMemory};

    ghost from_gives = { λ _ e. e ≡ NoMemory };

    fn from(_e: AllocError) -> Stop {
        Stop::NoMemory
    }
}

impl fmt::Display for Stop {
    ghost use Rattle.std.specs.Prelude.{Some};
    ghost use Rattle.sr_check.specs.Words.{stop_words};

    ghost output = { λ stop. Some (stop_words stop) };

    fn fmt<W: fmt::Write>(&self, f: &mut fmt::Formatter<W>) -> fmt::Result {
        f.write_str(match self {
            Stop::Refused => "the input is refused",
            Stop::ReadFault => "the input failed",
            Stop::WriteFault => "the output failed",
            Stop::NoMemory => "out of memory",
        })
    }
}

impl Error for Stop {}
