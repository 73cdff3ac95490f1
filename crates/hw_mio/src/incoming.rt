//! Whether the listener may give a connection.

ghost use Rattle.std.specs.Prelude.{◌≤◌};

use crate::limits::MOST_CROWDED;
use crate::refusal::Refusal;

/// Whether the listener may give a connection.
#[derive(Clone, Copy, PartialEq, Eq)]
pub enum Incoming {
    /// None waits, until an event tells of one.
    Quiet,
    /// One may wait.
    Waiting,
    /// One may wait, but the system has no room for it: until a wire of ours is closed, or until this moment.
    Crowded(u64),
}

impl Incoming {
    /// The listener gave no connection at this moment. One that failed isn't asked again at once either.
    pub fn after_refusal(self, refusal: Refusal, now: u64) -> Incoming {
        match refusal {
            Refusal::NoneWaits => Incoming::Quiet,
            Refusal::GaveUp => self,
            Refusal::NoRoom | Refusal::Broken => {
                Incoming::Crowded(now.saturating_add(MOST_CROWDED))
            }
        }
    }

    /// A wire of ours was closed, so there may be room again.
    pub fn after_close(self) -> Incoming {
        match self {
            Incoming::Quiet => Incoming::Quiet,
            Incoming::Waiting => Incoming::Waiting,
            Incoming::Crowded(_) => Incoming::Waiting,
        }
    }

    /// It is this moment now.
    pub fn at(self, now: u64) -> Incoming {
        match self {
            Incoming::Quiet => Incoming::Quiet,
            Incoming::Waiting => Incoming::Waiting,
            Incoming::Crowded(until) if until <= now => Incoming::Waiting,
            Incoming::Crowded(until) => Incoming::Crowded(until),
        }
    }

    /// How many of `wait` milliseconds may be waited at this moment.
    pub fn wait_for(self, wait: u64, now: u64) -> u64
        ensures { result ≤ wait }
    {
        match self {
            Incoming::Quiet => wait,
            Incoming::Waiting => 0,
            Incoming::Crowded(until) => wait.min(until.saturating_sub(now)),
        }
    }
}
