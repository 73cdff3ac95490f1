//! Why no value was read, and its words.
use std::alloc::{AllocError, AllocFailed};
use std::error::Error;
use std::fmt;

/// Why no value was read: the first refusal in reading order, or `NoMemory`.
///
/// `at` counts from the start of the whole slice and is the place of the marker concerned. At one marker `TooDeep` and `Key`
/// come before `Short`, and `Short` before `NotUtf8`. Its words are the reason's name and the place, as `Short 12`.
#[derive(Clone, Copy, Debug, PartialEq, Eq)]
pub enum PackError {
    /// The bytes of this marker's number, count, text or bytes run past the end. Where a marker is
    /// due at the end, as where a list lacks values, `at` is the length of the slice.
    Short { at: usize },
    /// c1, which the MessagePack specification leaves unused.
    Never { at: usize },
    /// ca or cb, a float.
    Fraction { at: usize },
    /// c7 to c9 or d4 to d8, an extension.
    Ext { at: usize },
    /// A map's key that is no text.
    Key { at: usize },
    /// A text that is not UTF-8.
    NotUtf8 { at: usize },
    /// A list or map with 64 others round it.
    TooDeep { at: usize },
    /// Out of memory. This says nothing of the bytes.
    NoMemory,
}

impl From<AllocError> for PackError {
    ghost use Rattle.std.specs.Prelude.{◌≡◌};
    ghost use Rattle.hv_pack.specs.declared.error.PackError.TheVariants.{NoMemory};

    ghost from_gives = { λ _ e. e ≡ NoMemory };

    fn from(_e: AllocError) -> PackError {
        PackError::NoMemory
    }
}

impl<T: Drop> From<AllocFailed<T>> for PackError {
    ghost use Rattle.std.specs.Prelude.{◌≡◌};
    ghost use Rattle.hv_pack.specs.declared.error.PackError.TheVariants.{NoMemory};

    ghost from_gives = { λ _ e. e ≡ NoMemory };

    fn from(_e: AllocFailed<T>) -> PackError {
        PackError::NoMemory
    }
}

impl fmt::Display for PackError {
    ghost use Rattle.std.specs.Prelude.{Some};
    ghost use Rattle.hv_pack.specs.Words.{error_words};

    ghost output = { λ error. Some (error_words error) };

    fn fmt<W: fmt::Write>(&self, f: &mut fmt::Formatter<W>) -> fmt::Result {
        match self {
            PackError::Short { at } => write!(f, "Short {at}"),
            PackError::Never { at } => write!(f, "Never {at}"),
            PackError::Fraction { at } => write!(f, "Fraction {at}"),
            PackError::Ext { at } => write!(f, "Ext {at}"),
            PackError::Key { at } => write!(f, "Key {at}"),
            PackError::NotUtf8 { at } => write!(f, "NotUtf8 {at}"),
            PackError::TooDeep { at } => write!(f, "TooDeep {at}"),
            PackError::NoMemory => f.write_str("NoMemory"),
        }
    }
}

impl Error for PackError {}
