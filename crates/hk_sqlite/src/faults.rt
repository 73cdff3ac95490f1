//! What a refusal of `sqlite` comes to: the one place that tells want of memory from a fault.

ghost use Rattle.hk_sqlite.specs.Faults.{IsWhy};

use hk_keeper::KeepError;
use sqlite::{Error, ErrorCode};

/// Why a call fails at this refusal: `NoMemory` for want of memory, and `Failed` for all others.
pub(crate) fn why(error: Error) -> KeepError
    ensures { IsWhy error result }
{
    match error {
        Error::SqliteFailure(ErrorCode::OutOfMemory) => KeepError::NoMemory,
        _ => KeepError::Failed,
    }
}
