//! The types of messages and their numbers.
ghost use Rattle.std.specs.Prelude.{◌≡◌, pos, IfSome, IfNone};
ghost use Rattle.hm_message.specs.Kind.{number, kind_of, IsOfNoKind};

use crate::message::Message;

/// The types of messages. Both encodings give each of them the same number.
#[derive(Clone, Copy, Debug, PartialEq, Eq)]
pub enum Kind {
    Invocation,
    StreamItem,
    Completion,
    StreamInvocation,
    CancelInvocation,
    Ping,
    Close,
    Ack,
    Sequence,
}

impl Kind {
    /// The type of this number, where it is from 1 to 9.
    pub fn numbered(n: i128) -> Option<Kind>
        ensures some { IfSome result (λ kind. n ≡ number kind) }
        ensures none { IfNone result (IsOfNoKind n) }
    {
        match n {
            1 => Some(Kind::Invocation),
            2 => Some(Kind::StreamItem),
            3 => Some(Kind::Completion),
            4 => Some(Kind::StreamInvocation),
            5 => Some(Kind::CancelInvocation),
            6 => Some(Kind::Ping),
            7 => Some(Kind::Close),
            8 => Some(Kind::Ack),
            9 => Some(Kind::Sequence),
            _ => None,
        }
    }

    /// The number of the type.
    pub fn number(self) -> u8
        ensures { pos result ≡ number self }
    {
        match self {
            Kind::Invocation => 1,
            Kind::StreamItem => 2,
            Kind::Completion => 3,
            Kind::StreamInvocation => 4,
            Kind::CancelInvocation => 5,
            Kind::Ping => 6,
            Kind::Close => 7,
            Kind::Ack => 8,
            Kind::Sequence => 9,
        }
    }
}

impl Message {
    pub fn kind(&self) -> Kind
        ensures { result ≡ kind_of self.now }
    {
        match self {
            Message::Invocation { .. } => Kind::Invocation,
            Message::StreamItem { .. } => Kind::StreamItem,
            Message::Completion { .. } => Kind::Completion,
            Message::StreamInvocation { .. } => Kind::StreamInvocation,
            Message::CancelInvocation { .. } => Kind::CancelInvocation,
            Message::Ping => Kind::Ping,
            Message::Close { .. } => Kind::Close,
            Message::Ack { .. } => Kind::Ack,
            Message::Sequence { .. } => Kind::Sequence,
        }
    }
}
