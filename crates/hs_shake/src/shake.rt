//! What a handshake asks for, why it is refused, and the words for that.
ghost use Rattle.std.specs.Prelude.{◌≡◌};
ghost use Rattle.hs_shake.specs.Words.{shake_words};
ghost use Rattle.hs_shake.specs.Refusals.{of_text};

use hm_message::{Codec, Field};
use hv_json::JsonError;
use hv_value::Text;
use std::alloc::AllocError;
use std::error::Error;
use std::fmt;

/// Versions from 1 to this are spoken. Versions 1 and 2 are those of HubProtocol.md, and 2 adds stateful reconnect. Version 3 is
/// this project's own.
pub const HIGHEST_VERSION: u8 = 3;

/// What a request asks for.
#[derive(Clone, Copy, Debug, PartialEq, Eq)]
pub struct Shake {
    pub codec: Codec,
    pub version: u8,
}

/// Why a handshake fails: the first of the reasons that holds, or `NoMemory`. `Display` is the words of a report.
#[derive(Drop, PartialEq, Eq)]
pub enum ShakeError {
    /// It isn't the JSON text (RFC 8259) of an object, or `hv_json` refuses it.
    NotJson,
    /// A property that must be there is absent: the protocol or the version of a request.
    Missing(Field),
    /// A property is of another kind than its name wants: the protocol or the version of a request, the error of a response.
    Wrong(Field),
    /// The request's protocol is neither `json` nor `messagepack`.
    Unspoken,
    /// The request's version, which is not from 1 to [`HIGHEST_VERSION`].
    Version(i128),
    /// The response refuses the request, with this text.
    Refused(Text),
    /// Out of memory, which says nothing of the handshake.
    NoMemory,
}

impl From<AllocError> for ShakeError {
    ghost use Rattle.std.specs.Prelude.{◌≡◌};
    ghost use Rattle.hs_shake.specs.declared.shake.ShakeError.TheVariants.{NoMemory};

    ghost from_gives = { λ _ e. e ≡ NoMemory };

    fn from(_e: AllocError) -> ShakeError {
        ShakeError::NoMemory
    }
}

impl From<JsonError> for ShakeError {
    ghost use Rattle.std.specs.Prelude.{◌≡◌};
    ghost use Rattle.hs_shake.specs.Refusals.{of_text};

    ghost from_gives = { λ e r. r ≡ of_text e };

    fn from(e: JsonError) -> ShakeError {
        match e {
            JsonError::NotJson => ShakeError::NotJson,
            JsonError::Fraction => ShakeError::NotJson,
            JsonError::TooDeep => ShakeError::NotJson,
            JsonError::NoMemory => ShakeError::NoMemory,
        }
    }
}

impl fmt::Display for ShakeError {
    ghost use Rattle.std.specs.Prelude.{Some};
    ghost use Rattle.hs_shake.specs.Words.{shake_words};

    ghost output = { λ error. Some (shake_words error) };

    fn fmt<W: fmt::Write>(&self, f: &mut fmt::Formatter<W>) -> fmt::Result {
        match self {
            ShakeError::NotJson => f.write_str("NotJson"),
            ShakeError::Missing(field) => write!(f, "Missing {field}"),
            ShakeError::Wrong(field) => write!(f, "Wrong {field}"),
            ShakeError::Unspoken => f.write_str("Unspoken"),
            ShakeError::Version(n) => write!(f, "Version {n}"),
            ShakeError::Refused(_) => f.write_str("Refused"),
            ShakeError::NoMemory => f.write_str("out of memory"),
        }
    }
}

/// The words of a report too: `Text` has no `Debug`.
impl fmt::Debug for ShakeError {
    fn fmt<W: fmt::Write>(&self, f: &mut fmt::Formatter<W>) -> fmt::Result {
        write!(f, "{self}")
    }
}

impl Error for ShakeError {}
