//! The bounds of a door.

/// The most bytes that are read at once on a wire.
pub const PIECE: usize = 4_096;

/// The most bytes that may wait on a lane to be written: 1 MiB.
pub const MOST_UNWRITTEN: usize = 1_048_576;

/// A WebSocket lane is full after a message if more bytes than this wait there to be written: 256 KiB.
pub const MOST_BEFORE_FULL: usize = 262_144;

/// With so many bytes that wait a WebSocket lane isn't gathered any longer: what waits there is written at once. 64 KiB.
pub const MOST_GATHERED_BYTES: usize = 65_536;

/// What waits is written before so many events are heard after it was said.
pub const MOST_GATHERED: u64 = 32;

/// A lane that is full isn't any more once at most this many bytes wait there: 64 KiB.
pub const MOST_DRAINED: usize = 65_536;

/// How many milliseconds a lane that is full may stay without anything being written on its wire.
pub const MOST_STALLED: u64 = 30_000;

/// How many milliseconds a lane may wait for a whole request, since it was accepted or since its last reply.
pub const MOST_WAIT: u64 = 30_000;

/// How many milliseconds a lane that is heard no more may take to write what waits, since the caller shut it, or its refusal or loss was heard.
pub const MOST_CLOSING: u64 = 30_000;

/// The status of the reply that makes a lane a WebSocket (RFC 9110, section 15.2.2).
pub const SWITCHING: u16 = 101;

/// How many calls of `next` that hear something, one after the other, may begin with a wire that was named, before one begins with the lane whose turn it is.
pub const MOST_NAMED: u64 = 64;
