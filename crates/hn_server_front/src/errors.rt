//! Why no connection is made.

use std::alloc::AllocError;
use std::error::Error;
use std::fmt;

/// The first of these that holds. The front is as it was.
#[derive(Clone, Copy, Debug, Drop, PartialEq, Eq)]
pub enum FrontError {
    /// As many connections live as may and each was used, or 2^62 were made.
    Busy,
    NoMemory,
}

impl From<AllocError> for FrontError {
    ghost use Rattle.std.specs.Prelude.{◌≡◌};
    ghost use Rattle.hn_server_front.specs.declared.errors.FrontError.TheVariants.{NoMemory};

    ghost from_gives = { λ _ e. e ≡ NoMemory };

    fn from(_: AllocError) -> FrontError {
        FrontError::NoMemory
    }
}

impl fmt::Display for FrontError {
    ghost use Rattle.std.specs.Prelude.{Some};
    ghost use Rattle.hn_server_front.specs.Words.{front_words};

    ghost output = { λ error. Some (front_words error) };

    fn fmt<W: fmt::Write>(&self, f: &mut fmt::Formatter<W>) -> fmt::Result {
        match self {
            FrontError::Busy => f.write_str("Busy"),
            FrontError::NoMemory => f.write_str("out of memory"),
        }
    }
}

impl Error for FrontError {}
