//! Which option `audit` has.

use crate::choice::Choice;

/// The option of `audit`, which may be absent.
pub(crate) const AUDIT_OPTIONS: &[Choice] = &[Choice {
    name: "side",
    values: 1,
}];
