//! What the lines of a trace come to: numbers of what they tell, or the line at which they break off.

use crate::trace::Rule;

/// How many messages an end was handed to send, and how many of the other end's it handed out.
#[derive(Clone, Copy, Debug, PartialEq, Eq)]
pub struct Counts {
    pub sent: u64,
    pub processed: u64,
}

/// What the lines of two ends come to.
#[derive(Clone, Copy, Debug, PartialEq, Eq)]
pub enum Verdict {
    /// They tell what two ends can do.
    World {
        client: Counts,
        server: Counts,
        /// Whether both stand on one link, Ready, and nothing is left to say, to read or to process.
        still: bool,
    },
    /// The line of this number, where the trace's first one is 1, tells what can't come next, by this rule.
    Breaks {
        line: u64,
        rule: Rule,
    },
}

/// What the lines of one end alone come to.
#[derive(Clone, Copy, Debug, PartialEq, Eq)]
pub enum VerdictAlone {
    /// They tell what this end can do.
    History(Counts),
    /// The line of this number, where the trace's first one is 1, tells what can't come next, by this rule.
    Breaks { line: u64, rule: Rule },
}
