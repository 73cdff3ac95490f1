//! Where the elements of a message's array stand, and the numbers of the kinds of result
//! (HubProtocol.md, "MessagePack (MsgPack) encoding"). It knows no element's value.

/// The type stands first in each message.
pub(crate) const KIND: usize = 0;

/// Headers stand second in each message that belongs to an invocation.
pub(crate) const HEADERS: usize = 1;

/// The invocation's id stands after the headers.
pub(crate) const ID: usize = 2;

/// The target of an Invocation or a StreamInvocation.
pub(crate) const TARGET: usize = 3;

/// The arguments of an Invocation or a StreamInvocation.
pub(crate) const ARGUMENTS: usize = 4;

/// The ids of the streams of an Invocation or a StreamInvocation. The array may end before them.
pub(crate) const STREAMS: usize = 5;

/// A StreamItem's item.
pub(crate) const ITEM: usize = 3;

/// A Completion's kind of result, one of the three below.
pub(crate) const RESULT_KIND: usize = 3;

/// What a Completion's kind of result announces: the error, or the result.
pub(crate) const OUTCOME: usize = 4;

/// A Close's error.
pub(crate) const CLOSE_ERROR: usize = 1;

/// Whether the other end of a Close may connect again. The array may end before it.
pub(crate) const ALLOW: usize = 2;

/// The number that an Ack or a Sequence tells.
pub(crate) const SEQUENCE_ID: usize = 1;

/// A Sequence's received count. The array may end before it.
pub(crate) const RECEIVED: usize = 2;

/// The kind of result of an invocation that failed: an error stands after it.
pub(crate) const ERROR_RESULT: i128 = 1;

/// The kind of result of an invocation that ends with no result.
pub(crate) const VOID_RESULT: i128 = 2;

/// The kind of result of an invocation that ends with a result, which stands after it.
pub(crate) const VALUE_RESULT: i128 = 3;
