//! The nine messages, their copies, and the names of their parts.
ghost use Rattle.std.specs.Prelude.{◌≡◌, ◌↔◌, IfOk, IsTrue};
ghost use Rattle.std.specs.Prelude.{◌≤◌};
ghost use Rattle.hv_value.specs.Tree.{depth, list, trees};
ghost use Rattle.hm_message.specs.Message.{Fits, is_sequenced};
ghost use Rattle.hm_message.specs.Name.{field_name};

use crate::headers::Headers;
use hv_value::{Items, Text, Texts, Value, no_item_is_deeper};
use std::alloc::AllocError;
use std::fmt;

/// How messages are written: as JSON text or as MessagePack (HubProtocol.md, "JSON Encoding" and
/// "MessagePack (MsgPack) encoding").
#[derive(Clone, Copy, Debug, PartialEq, Eq)]
pub enum Codec {
    Json,
    Pack,
}

/// How an invocation ends.
#[derive(Drop, PartialEq, Eq)]
pub enum Ending {
    /// With no result.
    Void,
    Result(Value),
    Error(Text),
}

/// A message of HubProtocol.md, which gives each of them a section of its name.
#[derive(Drop, PartialEq, Eq)]
pub enum Message {
    /// Of no id where no answer is wanted.
    Invocation {
        headers: Headers,
        id: Option<Text>,
        target: Text,
        arguments: Items,
        /// The ids of the streams that the caller sends.
        streams: Texts,
    },
    StreamItem {
        headers: Headers,
        id: Text,
        item: Value,
    },
    Completion {
        headers: Headers,
        id: Text,
        ending: Ending,
    },
    StreamInvocation {
        headers: Headers,
        id: Text,
        target: Text,
        arguments: Items,
        streams: Texts,
    },
    CancelInvocation {
        headers: Headers,
        id: Text,
    },
    Ping,
    Close {
        error: Option<Text>,
        /// Whether the other end may connect again.
        allow: bool,
    },
    /// Every message up to this number has been received.
    Ack {
        upto: u64,
    },
    /// The number of the next message that is sent.
    Sequence {
        first: u64,
        /// The number of the last message that was received, where the other end says it.
        received: Option<u64>,
    },
}

/// What a part of a message's frame is, in whatever encoding.
#[derive(Clone, Copy, Debug, PartialEq, Eq)]
pub enum Field {
    Kind,
    Headers,
    InvocationId,
    Target,
    Arguments,
    StreamIds,
    Item,
    Ending,
    Error,
    AllowReconnect,
    SequenceId,
    Protocol,
    Version,
}

/// What a frame says: a message, or something of a type that no message has.
#[derive(Drop, PartialEq, Eq)]
pub enum Read {
    Message(Message),
    Unknown(i128),
}

impl Ending {
    /// A copy, in the memory that the ending's own parts came from.
    pub fn copy(&self) -> Result<Ending, AllocError>
        ensures { IfOk result (λ e. e ≡ self.now) }
    {
        match self {
            Ending::Void => Ok(Ending::Void),
            Ending::Result(value) => Ok(Ending::Result(value.copy()?)),
            Ending::Error(text) => Ok(Ending::Error(text.copy()?)),
        }
    }
}

fn copy_text(text: &Option<Text>) -> Result<Option<Text>, AllocError>
    ensures { IfOk result (λ t. t ≡ text.now) }
{
    match text {
        Some(text) => Ok(Some(text.copy()?)),
        None => Ok(None),
    }
}

impl Message {
    /// Whether the message counts in the numbering that Ack and Sequence speak of (HubProtocol.md,
    /// "Sequence").
    pub fn is_sequenced(&self) -> bool
        ensures { result ≡ is_sequenced self.now }
    {
        match self {
            Message::Invocation { .. }
            | Message::StreamItem { .. }
            | Message::Completion { .. }
            | Message::StreamInvocation { .. }
            | Message::CancelInvocation { .. } => true,
            _ => false,
        }
    }

    /// Whether the frame of the message nests at most 64 deep, whatever encoding it is in.
    pub fn fits(&self) -> bool
        ensures { IsTrue result ↔ Fits self.now }
    {
        match self {
            Message::Invocation { arguments, .. } | Message::StreamInvocation { arguments, .. } =>
                are_shallow(arguments),
            Message::StreamItem { item, .. } => item.depth() <= 63,
            Message::Completion {
                ending: Ending::Result(result),
                ..
            } => result.depth() <= 63,
            _ => true,
        }
    }

    /// A copy, in the memory that the message's own parts came from.
    pub fn copy(&self) -> Result<Message, AllocError>
        ensures { IfOk result (λ m. m ≡ self.now) }
    {
        match self {
            Message::Invocation {
                headers,
                id,
                target,
                arguments,
                streams,
            } => Ok(Message::Invocation {
                headers: headers.copy()?,
                id: copy_text(id)?,
                target: target.copy()?,
                arguments: arguments.copy()?,
                streams: streams.copy()?,
            }),
            Message::StreamItem { headers, id, item } => Ok(Message::StreamItem {
                headers: headers.copy()?,
                id: id.copy()?,
                item: item.copy()?,
            }),
            Message::Completion {
                headers,
                id,
                ending,
            } => Ok(Message::Completion {
                headers: headers.copy()?,
                id: id.copy()?,
                ending: ending.copy()?,
            }),
            Message::StreamInvocation {
                headers,
                id,
                target,
                arguments,
                streams,
            } => Ok(Message::StreamInvocation {
                headers: headers.copy()?,
                id: id.copy()?,
                target: target.copy()?,
                arguments: arguments.copy()?,
                streams: streams.copy()?,
            }),
            Message::CancelInvocation { headers, id } => Ok(Message::CancelInvocation {
                headers: headers.copy()?,
                id: id.copy()?,
            }),
            Message::Ping => Ok(Message::Ping),
            Message::Close { error, allow } => Ok(Message::Close {
                error: copy_text(error)?,
                allow: *allow,
            }),
            Message::Ack { upto } => Ok(Message::Ack { upto: *upto }),
            Message::Sequence { first, received } => Ok(Message::Sequence {
                first: *first,
                received: *received,
            }),
        }
    }
}

fn are_shallow(arguments: &Items) -> bool
    ensures { IsTrue result ↔ depth (list (trees arguments.now)) ≤ 63 }
{
    no_item_is_deeper();
    arguments.values().iter().all(|value| value.depth() < 63)
}

impl Field {
    /// The name that the part has in JSON, where what ends an invocation is a `result`.
    pub fn name(&self) -> &'static str
        ensures { result.now ≡ field_name self.now }
    {
        match self {
            Field::Kind => "type",
            Field::Headers => "headers",
            Field::InvocationId => "invocationId",
            Field::Target => "target",
            Field::Arguments => "arguments",
            Field::StreamIds => "streamIds",
            Field::Item => "item",
            Field::Ending => "result",
            Field::Error => "error",
            Field::AllowReconnect => "allowReconnect",
            Field::SequenceId => "sequenceId",
            Field::Protocol => "protocol",
            Field::Version => "version",
        }
    }
}

impl fmt::Display for Field {
    ghost use Rattle.std.specs.Prelude.{Some};
    ghost use Rattle.hm_message.specs.Name.{field_name};

    ghost output = { λ field. Some (field_name field) };

    fn fmt<W: fmt::Write>(&self, f: &mut fmt::Formatter<W>) -> fmt::Result {
        f.write_str(self.name())
    }
}
