//! The names of byte strings in requests, replies and messages.

use hv_value::ByteString;

/// A text of a head, such as a path or a token. It need not be UTF-8.
pub type Text8 = ByteString;

/// The bytes of a body or of a message.
pub type Vec8 = ByteString;
