//! Why a call isn't begun, or nothing is said of one. `Display` gives the name.

use std::alloc::AllocError;
use std::error::Error;
use std::fmt;

/// The first of these that holds. The table is as it was.
#[derive(Clone, Copy, Debug, PartialEq, Eq)]
pub enum CallError {
    /// With the new ones more than `hd_calls::MOST_LIVE` calls and uploads would be live.
    TooMany,
    /// The numbers would pass `hd_calls::MOST_NUMBERS`.
    Spent,
    /// No live call or upload has this number.
    UnknownId,
    NoMemory,
}

impl From<AllocError> for CallError {
    ghost use Rattle.std.specs.Prelude.{◌≡◌};
    ghost use Rattle.hi_calls.specs.declared.errors.CallError.TheVariants.{NoMemory};

    ghost from_gives = { λ _ e. e ≡ NoMemory };

    fn from(_e: AllocError) -> CallError {
        CallError::NoMemory
    }
}

impl fmt::Display for CallError {
    ghost use Rattle.std.specs.Prelude.{Some};
    ghost use Rattle.hi_calls.specs.Words.{call_words};

    ghost output = { λ error. Some (call_words error) };

    fn fmt<W: fmt::Write>(&self, f: &mut fmt::Formatter<W>) -> fmt::Result {
        match self {
            CallError::TooMany => f.write_str("TooMany"),
            CallError::Spent => f.write_str("Spent"),
            CallError::UnknownId => f.write_str("UnknownId"),
            CallError::NoMemory => f.write_str("out of memory"),
        }
    }
}

impl Error for CallError {}
