//! Why a frame is no message, and its words.
ghost use Rattle.std.specs.Prelude.{◌≡◌};
ghost use Rattle.hm_pack.specs.Words.{refusal_words};
ghost use Rattle.hm_pack.specs.Refusals.{of_value};

use hm_message::Field;
use hv_pack::PackError;
use std::alloc::AllocError;
use std::error::Error;
use std::fmt;

/// Why a frame is no message: the first of the reasons that holds, or `NoMemory`. Places count from
/// the frame's first byte.
#[derive(Clone, Copy, Debug, PartialEq, Eq)]
pub enum PackRefusal {
    /// It begins with no value (the MessagePack specification). `PackError::NoMemory` is never in
    /// here.
    Value(PackError),
    /// Its first value ends at this place, and bytes stand after it.
    Trailing { at: usize },
    /// Its value is no array.
    NotArray,
    /// The array ends before an element that must be there.
    Missing(Field),
    /// An element is of another kind than its place wants.
    Wrong(Field),
    /// A Completion's kind of result is a number that means nothing.
    ResultKind(i128),
    /// Out of memory. The frame may be a message.
    NoMemory,
}

impl From<AllocError> for PackRefusal {
    ghost use Rattle.std.specs.Prelude.{◌≡◌};
    ghost use Rattle.hm_pack.specs.declared.refusal.PackRefusal.TheVariants.{NoMemory};

    ghost from_gives = { λ _ e. e ≡ NoMemory };

    fn from(_e: AllocError) -> PackRefusal {
        PackRefusal::NoMemory
    }
}

impl From<PackError> for PackRefusal {
    ghost use Rattle.std.specs.Prelude.{◌≡◌};
    ghost use Rattle.hm_pack.specs.Refusals.{of_value};

    ghost from_gives = { λ e r. r ≡ of_value e };

    fn from(e: PackError) -> PackRefusal {
        match e {
            PackError::NoMemory => PackRefusal::NoMemory,
            e => PackRefusal::Value(e),
        }
    }
}

impl fmt::Display for PackRefusal {
    ghost use Rattle.std.specs.Prelude.{Some};
    ghost use Rattle.hm_pack.specs.Words.{refusal_words};

    ghost output = { λ refusal. Some (refusal_words refusal) };

    fn fmt<W: fmt::Write>(&self, f: &mut fmt::Formatter<W>) -> fmt::Result {
        match self {
            PackRefusal::Value(e) => write!(f, "{e}"),
            PackRefusal::Trailing { at } => write!(f, "Trailing {at}"),
            PackRefusal::NotArray => f.write_str("NotArray"),
            PackRefusal::Missing(field) => write!(f, "Missing {field}"),
            PackRefusal::Wrong(field) => write!(f, "Wrong {field}"),
            PackRefusal::ResultKind(n) => write!(f, "ResultKind {n}"),
            PackRefusal::NoMemory => f.write_str("NoMemory"),
        }
    }
}

impl Error for PackRefusal {}
