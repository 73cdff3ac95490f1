//! Why a call on a socket gave nothing.

use std::io::{Error, ErrorKind};

/// Why the listener gave no connection.
#[derive(Clone, Copy, PartialEq, Eq)]
pub enum Refusal {
    /// None waits.
    NoneWaits,
    /// A peer gave up before its connection was taken, so the next may be asked for.
    GaveUp,
    /// One waits, but the system has no descriptor or no memory for it.
    NoRoom,
    /// The listener failed.
    Broken,
}

// Linux's numbers, on x86-64 and aarch64: ENOMEM, ENFILE, EMFILE, ENOBUFS.
const NO_ROOM: [i32; 4] = [12, 23, 24, 105];

// EINTR, and those of a connection that failed while it waited: ENONET, EPROTO, ENOPROTOOPT, ENETDOWN, ENETUNREACH, ECONNABORTED,
// ECONNRESET, ETIMEDOUT, EHOSTDOWN, EHOSTUNREACH. Each is of one connection, which is gone from the queue then.
const GAVE_UP: [i32; 11] = [4, 64, 71, 92, 100, 101, 103, 104, 110, 112, 113];

/// Why the listener gave no connection, by its error.
pub fn refusal_of(error: &Error) -> Refusal {
    if would_wait(error) {
        return Refusal::NoneWaits;
    }
    match error.raw_os_error() {
        Some(code) if NO_ROOM.contains(&code) => Refusal::NoRoom,
        Some(code) if GAVE_UP.contains(&code) => Refusal::GaveUp,
        _ => Refusal::Broken,
    }
}

/// Whether the call would have waited, so that an event tells when it may be made again.
pub fn would_wait(error: &Error) -> bool {
    error.kind() == ErrorKind::WouldBlock
}

/// Whether a signal came before the call did anything, so that it may be made again at once.
pub fn was_interrupted(error: &Error) -> bool {
    error.kind() == ErrorKind::Interrupted
}
