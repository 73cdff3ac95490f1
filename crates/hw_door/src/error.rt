//! Why a call of a door or a dialer fails.

ghost use Rattle.std.specs.Prelude.{◌≡◌};
ghost use Rattle.hw_door.specs.declared.error.DoorError.TheVariants.{NoMemory};

use std::alloc::{AllocError, AllocFailed};
use thiserror::Error;

/// Why a door or a dialer did not do what it was asked. What it tells is as before.
#[derive(Clone, Copy, Debug, Drop, PartialEq, Eq, Error)]
pub enum DoorError {
    /// The outside failed in this call, and the count of faults rose.
    #[error("the outside failed")]
    Failed,
    #[error("out of memory")]
    NoMemory,
}

impl From<AllocError> for DoorError {
    ghost from_gives = { λ _ e. e ≡ NoMemory };

    fn from(_e: AllocError) -> DoorError {
        DoorError::NoMemory
    }
}

impl<T: Drop> From<AllocFailed<T>> for DoorError {
    ghost from_gives = { λ _ e. e ≡ NoMemory };

    fn from(_e: AllocFailed<T>) -> DoorError {
        DoorError::NoMemory
    }
}
