//! What the lines of a script are carried out on.

use crate::stop::Stop;

/// A bench: what is tested, and what the lines of a script need beside it.
pub trait Play {
    /// Carries out the action of a line, and answers what comes of it: lines with a line feed between two.
    fn carry_out(&mut self, line: &str) -> Result<String, Stop>;
}
