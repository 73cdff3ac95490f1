//! What `user` is asked for, and which option it has.

use crate::choice::Choice;
use hv_value::Text;

/// The option of `user`, which must be there.
pub(crate) const USER_OPTIONS: &[Choice] = &[Choice {
    name: "store",
    values: 1,
}];

/// What `user` is asked for: to add a user to a store.
#[derive(Drop, PartialEq, Eq)]
pub struct Adding {
    /// The access token by which the user is known. Any text, also an empty one.
    pub token: Text,
    /// The user's name. Any text, also an empty one.
    pub name: Text,
    /// The path of the store's file.
    pub store: Text,
}
