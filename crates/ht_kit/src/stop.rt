//! Why a line isn't carried out.

use hex::FromHexError;
use std::alloc::{AllocError, AllocFailed};

#[derive(Clone, Copy, Debug, Drop, PartialEq, Eq)]
pub enum Stop {
    /// The line is no action.
    Refused,
    /// What the line asks failed.
    Failed,
    /// There is no room for what the line asks.
    Busy,
    /// The line may not be asked of what is there.
    NotAsked,
    NoMemory,
}

impl From<AllocError> for Stop {
    fn from(_e: AllocError) -> Stop {
        Stop::NoMemory
    }
}

impl<T: Drop> From<AllocFailed<T>> for Stop {
    fn from(_e: AllocFailed<T>) -> Stop {
        Stop::NoMemory
    }
}

impl From<FromHexError> for Stop {
    fn from(error: FromHexError) -> Stop {
        match error {
            FromHexError::OutOfMemory => Stop::NoMemory,
            _ => Stop::Refused,
        }
    }
}
