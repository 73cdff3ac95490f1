//! What the lines of a script ask for.

use hd_calls::CallKind;
use hd_delivery::Side;
use hm_message::Message;
use hv_value::{Items, Text, Value};

/// How much is written or read.
#[derive(Clone, Copy, Debug, PartialEq, Eq)]
pub enum Count {
    /// This much, or all there is if that is less.
    UpTo(u64),
    /// All there is.
    Everything,
}

/// A call, as a line asks for it.
#[derive(Drop, PartialEq)]
pub struct Asking {
    /// How it is called.
    pub kind: CallKind,
    /// How many uploads come with it: none or one, and one with a `Call` alone.
    pub uploads: u32,
    /// The method's name, of one character at least and without a space.
    pub target: Text,
    pub arguments: Items,
}

/// An action of a script.
#[derive(Drop, PartialEq)]
pub enum Action {
    /// The client attaches to a new link. Links are numbered from 0 by the lines that open them.
    Open,
    /// The server attaches to the link of this number, if the client did.
    Accept(u64),
    /// The end loses its link.
    Lose(Side),
    /// The end puts this many of the frames that are due on its link.
    Write(Side, Count),
    /// The end reads this many bytes of its link.
    Read(Side, Count),
    /// The end is closed for `Reason::Done`. What it holds may still be written.
    Close(Side),
    /// The end sends a message, where there are no peers.
    Send(Side, Message),
    /// This moment, in milliseconds, comes at both ends, the client first.
    Tick(u64),
    /// The peer calls the other one. A peer's calls have numbers, of which the later lines name one.
    Call(Side, Asking),
    /// The peer sends an item of the upload of this call.
    Item(Side, u64, Value),
    /// The peer ends the upload of this call.
    Done(Side, u64),
    /// The peer wants this call ended early.
    Cancel(Side, u64),
    /// The peer's jobs have their turns.
    Round(Side),
}
