//! Why a peer doesn't do what its user asks of it.

ghost use Rattle.std.specs.Prelude.{◌≡◌};
ghost use Rattle.hp_peer.specs.Asking.{is_refusal};

use he_end::{NextError, SendError};
use hi_calls::CallError;
use hv_value::Text;
use std::alloc::AllocError;
use std::error::Error;
use std::fmt;

/// Why nothing is said: the first of these that holds. The peer is as it was.
#[derive(Clone, Copy, Debug, PartialEq, Eq)]
pub enum AskError {
    /// The table of own calls has no room, or no such call. It isn't `CallError::NoMemory`.
    Calls(CallError),
    /// The message nests deeper than a frame may.
    TooDeep,
    /// The end doesn't send it. It isn't `SendError::NoMemory`.
    Send(SendError),
    NoMemory,
}

impl AskError {
    /// Whether what was asked is refused: it would be again, if there were more memory.
    pub(crate) fn is_refusal(self) -> bool
        ensures { result ≡ is_refusal self }
    {
        match self {
            AskError::NoMemory => false,
            AskError::Calls(_) => true,
            AskError::TooDeep => true,
            AskError::Send(_) => true,
        }
    }
}

impl From<AllocError> for AskError {
    ghost use Rattle.std.specs.Prelude.{◌≡◌};
    ghost use Rattle.hp_peer.specs.declared.errors.AskError.TheVariants.{NoMemory};

    ghost from_gives = { λ _ e. e ≡ NoMemory };

    fn from(_e: AllocError) -> AskError {
        AskError::NoMemory
    }
}

impl From<CallError> for AskError {
    ghost use Rattle.std.specs.Prelude.{◌≡◌};
    ghost use Rattle.hp_peer.specs.Asking.{of_table};

    ghost from_gives = { λ e asked. asked ≡ of_table e };

    fn from(e: CallError) -> AskError {
        match e {
            CallError::NoMemory => AskError::NoMemory,
            CallError::TooMany => AskError::Calls(CallError::TooMany),
            CallError::Spent => AskError::Calls(CallError::Spent),
            CallError::UnknownId => AskError::Calls(CallError::UnknownId),
        }
    }
}

impl From<SendError> for AskError {
    ghost use Rattle.std.specs.Prelude.{◌≡◌};
    ghost use Rattle.hp_peer.specs.Asking.{of_end};

    ghost from_gives = { λ e asked. asked ≡ of_end e };

    fn from(e: SendError) -> AskError {
        match e {
            SendError::NoMemory => AskError::NoMemory,
            SendError::Opening => AskError::Send(SendError::Opening),
            SendError::Closed => AskError::Send(SendError::Closed),
            SendError::TooLong { size } => AskError::Send(SendError::TooLong { size }),
            SendError::Full { held, bytes, size } => {
                AskError::Send(SendError::Full { held, bytes, size })
            }
            SendError::Exhausted => AskError::Send(SendError::Exhausted),
        }
    }
}

/// Why a take took nothing, or ended the connection.
#[derive(Drop)]
pub enum PeerError {
    /// The end is closed, since it can't take what came. It isn't `NextError::NoMemory`.
    Next(NextError),
    /// A call came with this id, which a live job or an open stream has, or which the call names twice. The end is closed for that reason.
    InUse(Text),
    /// A call came while `hd_calls::MOST_LIVE` jobs were live. The end is closed for that reason.
    TooMany,
    /// An input came to a job at which `hd_calls::MOST_INPUTS` wait, or with which jobs would keep more than `hd_calls::MOST_WEIGHT`. It isn't
    /// given, and the end is closed for that reason.
    Flood,
    /// The peer is as it was, or a message was read that waits: the next `take` handles it.
    NoMemory,
}

impl fmt::Display for AskError {
    ghost use Rattle.std.specs.Prelude.{Some};
    ghost use Rattle.hp_peer.specs.Words.{ask_words};

    ghost output = { λ error. Some (ask_words error) };

    fn fmt<W: fmt::Write>(&self, f: &mut fmt::Formatter<W>) -> fmt::Result {
        match self {
            AskError::Calls(e) => write!(f, "{e}"),
            AskError::TooDeep => f.write_str("TooDeep"),
            AskError::Send(e) => write!(f, "{e}"),
            AskError::NoMemory => f.write_str("out of memory"),
        }
    }
}

impl Error for AskError {}

impl fmt::Display for PeerError {
    ghost use Rattle.std.specs.Prelude.{Some};
    ghost use Rattle.hp_peer.specs.Words.{peer_words};

    ghost output = { λ error. Some (peer_words error) };

    fn fmt<W: fmt::Write>(&self, f: &mut fmt::Formatter<W>) -> fmt::Result {
        match self {
            PeerError::Next(e) => write!(f, "{e}"),
            PeerError::InUse(id) => write!(f, "in-use {}", id.as_str()),
            PeerError::TooMany => f.write_str("too-many"),
            PeerError::Flood => f.write_str("flood"),
            PeerError::NoMemory => f.write_str("out of memory"),
        }
    }
}

/// The words of `Display`: `Text` has no `Debug`.
impl fmt::Debug for PeerError {
    fn fmt<W: fmt::Write>(&self, f: &mut fmt::Formatter<W>) -> fmt::Result {
        write!(f, "{self}")
    }
}

impl Error for PeerError {}
