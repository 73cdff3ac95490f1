//! What a soak came to.

/// The counts that a soak's line tells.
#[derive(Clone, Copy, Debug, PartialEq, Eq)]
pub struct Totals {
    /// The calls of both sides that were accepted and have an id.
    pub calls: u64,
    /// Those of them that ended, also those that were handed out as gone.
    pub endings: u64,
    /// Those of them that are live.
    pub live: u64,
    /// The links that were opened, refused ones among them.
    pub links: u64,
}
