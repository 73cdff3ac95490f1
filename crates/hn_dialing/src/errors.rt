//! Why a call on a connection fails.

ghost use Rattle.std.specs.Prelude.{◌≡◌};
ghost use Rattle.hn_dialing.specs.Calls.{fault_by};
ghost use Rattle.hn_dialing.specs.declared.errors.DialFault.TheVariants.{NoMemory};

use hw_door::DoorError;
use std::alloc::AllocError;
use thiserror::Error;

/// Why a call on a connection was broken off. The connection is over then.
#[derive(Clone, Copy, Debug, Drop, PartialEq, Eq, Error)]
pub enum DialFault {
    /// The dialer failed, and its count of faults rose.
    #[error("the dialer failed")]
    Dialer,
    #[error("out of memory")]
    NoMemory,
}

impl From<AllocError> for DialFault {
    ghost from_gives = { λ _ e. e ≡ NoMemory };

    fn from(_e: AllocError) -> DialFault {
        DialFault::NoMemory
    }
}

impl From<DoorError> for DialFault {
    ghost from_gives = { λ door e. e ≡ fault_by door };

    fn from(e: DoorError) -> DialFault {
        match e {
            DoorError::Failed => DialFault::Dialer,
            DoorError::NoMemory => DialFault::NoMemory,
        }
    }
}
