//! Why there is no request.

ghost use Rattle.std.specs.Prelude.{◌≡◌};
ghost use Rattle.hh_http.specs.Refusals.{only_status, other_version};

use hw_lanes::{Refusal, ReplyField};
use std::alloc::AllocError;
use std::error::Error;
use std::fmt;

/// Why a lane gives no request.
#[derive(Clone, Copy, Debug, PartialEq, Eq)]
pub enum HttpError {
    /// The bytes are no request that is taken. This says so to the peer: the status is 400, 411, 413 or 431 (RFC 9110, section 15.5; RFC
    /// 6585, section 5), and the field is the version of WebSockets that would be taken, where another one was asked for.
    Refused(Refusal),
    /// Out of memory. The lane is as before.
    NoMemory,
}

/// This status, and no field.
pub(crate) fn only_status(status: u16) -> Refusal
    ensures { result ≡ only_status status }
{
    Refusal {
        status,
        field: None,
    }
}

/// The refusal of another version of WebSockets (RFC 6455, section 4.4).
pub(crate) fn other_version() -> Refusal
    ensures { result ≡ other_version }
{
    Refusal {
        status: 400,
        field: Some(ReplyField::WebSocketVersion),
    }
}

impl From<AllocError> for HttpError {
    ghost use Rattle.std.specs.Prelude.{◌≡◌};
    ghost use Rattle.hh_http.specs.declared.error.HttpError.TheVariants.{NoMemory};

    ghost from_gives = { λ _ e. e ≡ NoMemory };

    fn from(_: AllocError) -> HttpError {
        HttpError::NoMemory
    }
}

impl fmt::Display for HttpError {
    ghost use Rattle.std.specs.Prelude.{Some};
    ghost use Rattle.hh_http.specs.Words.{error_words};

    ghost output = { λ error. Some (error_words error) };

    fn fmt<W: fmt::Write>(&self, f: &mut fmt::Formatter<W>) -> fmt::Result {
        match self {
            HttpError::Refused(refusal) => {
                let status = refusal.status;
                write!(f, "Refused {status}")
            }
            HttpError::NoMemory => f.write_str("out of memory"),
        }
    }
}

impl Error for HttpError {}
