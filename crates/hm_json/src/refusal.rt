//! Why a frame is no message, and its words.
ghost use Rattle.std.specs.Prelude.{◌≡◌};
ghost use Rattle.hm_json.specs.Words.{refusal_words};
ghost use Rattle.hm_json.specs.Refusals.{of_text};

use hm_message::Field;
use hv_json::JsonError;
use std::alloc::AllocError;
use std::error::Error;
use std::fmt;

/// Why a frame is no message: the first of the reasons that holds, or `NoMemory`.
#[derive(Clone, Copy, Debug, PartialEq, Eq)]
pub enum Refusal {
    /// It isn't JSON text (RFC 8259).
    NotJson,
    /// A number in it isn't whole, or is outside -2^63 to 2^64 - 1.
    Fraction,
    /// Its arrays and objects nest deeper than 64.
    TooDeep,
    /// Its value is no object.
    NotObject,
    /// A property that must be there is absent.
    Missing(Field),
    /// A property is of another kind than its name wants.
    Wrong(Field),
    /// A Completion has an error and a result.
    Both,
    /// Out of memory. The frame may be a message.
    NoMemory,
}

impl From<AllocError> for Refusal {
    ghost use Rattle.std.specs.Prelude.{◌≡◌};
    ghost use Rattle.hm_json.specs.declared.refusal.Refusal.TheVariants.{NoMemory};

    ghost from_gives = { λ _ e. e ≡ NoMemory };

    fn from(_e: AllocError) -> Refusal {
        Refusal::NoMemory
    }
}

impl From<JsonError> for Refusal {
    ghost use Rattle.std.specs.Prelude.{◌≡◌};
    ghost use Rattle.hm_json.specs.Refusals.{of_text};

    ghost from_gives = { λ e r. r ≡ of_text e };

    fn from(e: JsonError) -> Refusal {
        match e {
            JsonError::NotJson => Refusal::NotJson,
            JsonError::Fraction => Refusal::Fraction,
            JsonError::TooDeep => Refusal::TooDeep,
            JsonError::NoMemory => Refusal::NoMemory,
        }
    }
}

impl fmt::Display for Refusal {
    ghost use Rattle.std.specs.Prelude.{Some};
    ghost use Rattle.hm_json.specs.Words.{refusal_words};

    ghost output = { λ refusal. Some (refusal_words refusal) };

    fn fmt<W: fmt::Write>(&self, f: &mut fmt::Formatter<W>) -> fmt::Result {
        match self {
            Refusal::NotJson => f.write_str("NotJson"),
            Refusal::Fraction => f.write_str("Fraction"),
            Refusal::TooDeep => f.write_str("TooDeep"),
            Refusal::NotObject => f.write_str("NotObject"),
            Refusal::Missing(field) => write!(f, "Missing {field}"),
            Refusal::Wrong(field) => write!(f, "Wrong {field}"),
            Refusal::Both => f.write_str("Both"),
            Refusal::NoMemory => f.write_str("NoMemory"),
        }
    }
}

impl Error for Refusal {}
