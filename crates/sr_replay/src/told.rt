//! What is told of a replay, before it is put.

/// The report of a script, and how many links the script opened.
#[derive(Drop)]
pub(crate) struct Told {
    pub(crate) report: Vec<u8>,
    pub(crate) links: u64,
}
