//! What wires in memory are made of.

use hw_lanes::Vec8;

/// What a read on a wire in memory gives.
#[derive(Drop, PartialEq, Eq)]
pub enum WireGiven {
    /// These bytes, with as many reads as they need.
    Bytes(Vec8),
    NotYet,
    Ended,
}

/// A wire in memory: the moment from which `accept` may give it, what its reads give, and how many bytes its writes take at most, each
/// in order.
#[derive(Drop)]
pub struct MemoryWire {
    pub from: u64,
    pub reads: Vec<WireGiven>,
    pub writes: Vec<usize>,
}
