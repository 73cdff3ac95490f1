//! Why a call begins no job, or an input isn't taken. The table is as it was.

use hv_value::Text;
use std::alloc::AllocError;
use std::error::Error;
use std::fmt;

/// Why a call begins no job: the first of these that holds.
#[derive(Drop, PartialEq, Eq)]
pub enum AcceptError {
    /// A live job has this id, or this stream is open, or the call names it twice.
    InUse(Text),
    /// `hd_calls::MOST_LIVE` jobs are live.
    TooMany,
    /// Out of memory, which is answered too to a call of 2^32 streams or more, and after 2^64-1 jobs.
    NoMemory,
}

/// Why an input isn't taken: the first of these that holds.
#[derive(Clone, Copy, Debug, PartialEq, Eq)]
pub enum InputError {
    /// No live job has the stream open.
    UnknownId,
    /// `hd_calls::MOST_INPUTS` inputs wait at the job, over all its streams, or with this one what jobs keep would weigh more than
    /// `hd_calls::MOST_WEIGHT`.
    Flood,
    NoMemory,
}

impl From<AllocError> for AcceptError {
    ghost use Rattle.std.specs.Prelude.{◌≡◌};
    ghost use Rattle.hj_jobs.specs.declared.errors.AcceptError.TheVariants.{NoMemory};

    ghost from_gives = { λ _ e. e ≡ NoMemory };

    fn from(_e: AllocError) -> AcceptError {
        AcceptError::NoMemory
    }
}

impl From<AllocError> for InputError {
    ghost use Rattle.std.specs.Prelude.{◌≡◌};
    ghost use Rattle.hj_jobs.specs.declared.errors.InputError.TheVariants.{NoMemory};

    ghost from_gives = { λ _ e. e ≡ NoMemory };

    fn from(_e: AllocError) -> InputError {
        InputError::NoMemory
    }
}

impl fmt::Display for AcceptError {
    ghost use Rattle.std.specs.Prelude.{Some};
    ghost use Rattle.hj_jobs.specs.Words.{accept_words};

    ghost output = { λ error. Some (accept_words error) };

    fn fmt<W: fmt::Write>(&self, f: &mut fmt::Formatter<W>) -> fmt::Result {
        match self {
            AcceptError::InUse(id) => write!(f, "InUse {}", id.as_str()),
            AcceptError::TooMany => f.write_str("TooMany"),
            AcceptError::NoMemory => f.write_str("out of memory"),
        }
    }
}

/// The words of `Display`: `Text` has no `Debug`.
impl fmt::Debug for AcceptError {
    fn fmt<W: fmt::Write>(&self, f: &mut fmt::Formatter<W>) -> fmt::Result {
        write!(f, "{self}")
    }
}

impl Error for AcceptError {}

impl fmt::Display for InputError {
    ghost use Rattle.std.specs.Prelude.{Some};
    ghost use Rattle.hj_jobs.specs.Words.{input_words};

    ghost output = { λ error. Some (input_words error) };

    fn fmt<W: fmt::Write>(&self, f: &mut fmt::Formatter<W>) -> fmt::Result {
        match self {
            InputError::UnknownId => f.write_str("UnknownId"),
            InputError::Flood => f.write_str("Flood"),
            InputError::NoMemory => f.write_str("out of memory"),
        }
    }
}

impl Error for InputError {}
