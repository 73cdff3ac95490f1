//! How long a lane is full: so much waits there to be written that its caller sends nothing more until it hears that the lane has drained.

ghost use Rattle.std.specs.Prelude.{◌≡◌};
ghost use Rattle.hw_net.specs.Lane.{has_stalled, full_after_write, full_after_turn, full_after_message};

use crate::limits::{MOST_BEFORE_FULL, MOST_DRAINED, MOST_STALLED};

/// How long a lane is full.
#[derive(Clone, Copy)]
pub struct Fullness {
    // The moment of the turn that found last that something had been written.
    since: u64,
    // Something was written since then, or the lane has had no turn yet.
    has_written: bool,
    // The last turn found that nothing had been written for too long.
    is_late: bool,
}

/// Whether nothing was written for too long, nor since the turn that found so.
pub fn has_stalled(full: Option<Fullness>) -> bool
    ensures { result ≡ has_stalled full }
{
    match full {
        None => false,
        Some(full) => full.is_late && !full.has_written,
    }
}

/// After a write that took something, or nothing.
pub fn full_after_write(full: Option<Fullness>, has_written: bool) -> Option<Fullness>
    ensures { result ≡ full_after_write has_written full }
{
    match full {
        None => None,
        Some(full) => Some(Fullness {
            since: full.since,
            has_written: full.has_written || has_written,
            is_late: full.is_late,
        }),
    }
}

/// After a turn: what was written till then counts from now, and if nothing was, it may have been so for too long.
pub fn full_after_turn(full: Option<Fullness>, now: u64) -> Option<Fullness>
    ensures { result ≡ full_after_turn now full }
{
    match full {
        None => None,
        Some(full) if full.has_written => Some(Fullness {
            since: now,
            has_written: false,
            is_late: false,
        }),
        Some(full) => Some(Fullness {
            since: full.since,
            has_written: full.has_written,
            is_late: now.saturating_sub(full.since) >= MOST_STALLED,
        }),
    }
}

/// After a message that leaves this many bytes unwritten.
pub fn full_after_message(full: Option<Fullness>, unwritten: usize, now: u64) -> Option<Fullness>
    ensures { result ≡ full_after_message now unwritten full }
{
    match full {
        None if unwritten > MOST_BEFORE_FULL => Some(Fullness {
            since: now,
            has_written: true,
            is_late: false,
        }),
        None => None,
        Some(_) if unwritten <= MOST_DRAINED => None,
        Some(full) => Some(full),
    }
}
