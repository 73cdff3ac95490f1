//! What an end said on a link, as the lines of a trace tell it: each line is one frame.

ghost use Rattle.std.specs.Prelude.{◌≡◌, Some, IfSome, OnOk, option_map, slice_get};
ghost use Rattle.ha_audit.specs.AuditState.{bytes_of, frames_of, size_of_first, whole_frame};

use hd_trace::Owed;
use std::alloc::{AllocError, Global};

/// A frame that an end said.
#[derive(Clone, Copy, Debug, PartialEq, Eq)]
pub struct SaidFrame {
    pub(crate) owed: Owed,
    /// Which of the messages that the end sent it carries, from 0, if it carries one.
    pub(crate) place: usize,
    /// How many bytes of the link there are up to its last one.
    pub(crate) end: usize,
}

/// What an end said on a link, in order.
#[derive(Drop)]
pub struct SaidOnLink {
    pub(crate) bytes: Vec<u8>,
    pub(crate) frames: Vec<SaidFrame>,
}
