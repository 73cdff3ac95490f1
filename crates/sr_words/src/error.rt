//! Why words are no command, and which of clap's errors say so.

ghost use Rattle.std.specs.Prelude.{◌≡◌};
ghost use Rattle.sr_words.specs.Errors.{of_kind};
ghost use Rattle.sr_words.specs.declared.error.WordsError.TheVariants.{NoMemory};
ghost use Rattle.clap.specs.Words.{kind_of};

use clap::Error;
use clap::error::ErrorKind;
use std::alloc::AllocError;
use std::fmt;

/// Why no command was read from the words.
#[derive(Clone, Copy, Debug, PartialEq, Eq)]
pub enum WordsError {
    /// The words are no command.
    NoCommand,
    /// Memory ran out, which says nothing of the words.
    NoMemory,
}

impl fmt::Display for WordsError {
    fn fmt<W: fmt::Write>(&self, f: &mut fmt::Formatter<W>) -> fmt::Result {
        match self {
            WordsError::NoCommand => write!(f, "the words are no command"),
            WordsError::NoMemory => write!(f, "out of memory"),
        }
    }
}

impl std::error::Error for WordsError {}

impl From<AllocError> for WordsError {
    ghost from_gives = { λ _ e. e ≡ NoMemory };

    fn from(_e: AllocError) -> WordsError {
        WordsError::NoMemory
    }
}

impl From<Error> for WordsError {
    ghost from_gives = { λ e r. r ≡ of_kind (kind_of e) };

    fn from(e: Error) -> WordsError {
        match e.kind() {
            ErrorKind::OutOfMemory => WordsError::NoMemory,
            _ => WordsError::NoCommand,
        }
    }
}
