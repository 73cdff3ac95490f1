//! What an option of a command is.

/// An option `--NAME VALUE ..`.
pub(crate) struct Choice {
    pub(crate) name: &'static str,
    /// How many values it takes.
    pub(crate) values: usize,
}
