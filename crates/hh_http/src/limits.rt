//! How much a lane reads.

/// The longest head, in bytes: 16 KiB.
pub const MOST_HEAD: usize = 16_384;

/// The longest body, in bytes: 1 MiB.
pub const MOST_BODY: usize = 1_048_576;

/// The most headers of a head.
pub const MOST_HEADERS: usize = 100;
