//! The bounds of the wires.

/// How many wires may be up at once. Those that were shut and whose peers may still send are counted.
pub const SLOTS: usize = 16_384;

/// How many wires are numbered in all, so that a number is below 2^62.
pub const MOST_WIRES: u64 = 1 << 48;

/// How many polls in a row that don't wait may leave the system unasked.
pub const MOST_UNASKED: u64 = 32;

/// How many writes in a row on a wire aren't made, as they would wait by what the system told last.
pub const MOST_UNMADE: u32 = 63;

/// How many events one poll takes at most.
pub const EVENTS: usize = 1_024;

/// How many milliseconds a wire that was shut waits at most for its peer's end.
pub const MOST_ENDING: u64 = 2_000;

/// How many bytes are dropped at most of what comes on a wire that was shut: 1 MiB.
pub const MOST_DROPPED: usize = 1_048_576;

/// How many bytes are dropped at once.
pub const PIECE: usize = 8_192;

/// How many wires that were shut stand in the queue at most. Those that ended early stay in it for a while.
pub const ENDINGS: usize = 32_768;

/// After how many milliseconds a connection is asked for again for which the system had no room.
pub const MOST_CROWDED: u64 = 1_000;

/// How many polls in a row that might wait don't, while some wire is readable, after there was something.
pub const EAGER_POLLS: u8 = 2;
