//! What a first look at a lane gives.

/// What a first look at a lane gives, before its turn.
#[derive(Clone, Copy, PartialEq, Eq)]
pub enum FirstRead {
    /// Its wire wasn't read: there may be more to do.
    Unread,
    /// Nothing was to be done before more bytes come, and none came. That was its turn.
    NothingRead,
    /// Nothing was to be done before more bytes come, and these came: so many, or `None` if the wire broke.
    Read(Option<usize>),
}
