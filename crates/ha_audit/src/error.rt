//! Why a text is no trace.

ghost use Rattle.std.specs.Prelude.{◌≡◌};
ghost use Rattle.ha_audit.specs.declared.error.TraceError.TheVariants.{NoMemory};

use std::alloc::AllocError;
use thiserror::Error;

/// Why no trace was read from a text.
#[derive(Clone, Copy, Debug, Drop, PartialEq, Eq, Error)]
pub enum TraceError {
    /// The text is no trace: the number of its first line, counted from 1, with which no trace goes on.
    #[error("line {0} is none of a trace")]
    Line(u64),
    /// Memory ran out, which says nothing of the text.
    #[error("out of memory")]
    NoMemory,
}

impl From<AllocError> for TraceError {
    ghost from_gives = { λ _ e. e ≡ NoMemory };

    fn from(_e: AllocError) -> TraceError {
        TraceError::NoMemory
    }
}
