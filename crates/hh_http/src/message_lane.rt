//! A lane of messages of one kind: the bytes of one connection come in, in any pieces, and its messages go out.
ghost use Rattle.std.specs.Prelude.{◌≡◌, ◌≤◌, ◌<◌, ◌+◌, ◌++◌, ◌∷◌, [], Bool, false, None, Some, ℕ, List, min, length, take, IfSome, IfOk, Err};
ghost use Rattle.hh_http.specs.Lane.{at_start, room, IsWithin};
ghost use Rattle.hh_http.specs.Messages.{Answers, IsHeadAt, Repeats, Rests, Series};

use crate::body::take_body;
use crate::error::HttpError;
use crate::limits::MOST_HEAD;
use crate::message::{Head, Message, read_head};
use hw_lanes::Refusal;
use std::alloc::{AllocError, Global};
use std::marker::Model;

/// The messages of one connection.
#[derive(Drop)]
pub(crate) struct MessageLane<M: Message> {
    alloc: Global,
    held: Vec<u8>,
    // The head that the bytes held begin with, if its body was not whole when it was last looked at.
    head: Option<Head<M>>,
    spent: Option<Refusal>,
    ended: bool,
    // A 100 is to be written for the message whose head is kept.
    due: bool,
}

impl<M: Message> Model for MessageLane<M> {
    ghost use Rattle.std.specs.Prelude.{vec_capacity};
    ghost use Rattle.hh_http.specs.Messages.{IsLane, want_of};
    ghost use Rattle.hh_http.specs.Lane.{Lane, lane_code};

    ghost Value = { Lane };

    ghost coded = { lane_code };

    ghost view = { λ a. record { held = a.held.items; want = want_of a.head; spent = a.spent; ended = a.ended; due = a.due } };

    ghost invariant = { λ a. IsLane M.grammar a.held.items (vec_capacity a.held) a.head };
}

impl<M: Message> MessageLane<M> {
    /// A lane that was fed nothing.
    pub(crate) fn start(alloc: Global) -> Result<MessageLane<M>, AllocError>
        ensures { IfOk result (λ lane. lane ≡ at_start) }
    {
        Ok(MessageLane {
            alloc,
            held: Vec::with_capacity(alloc, MOST_HEAD)?,
            head: None,
            spent: None,
            ended: false,
            due: false,
        })
    }

    /// How many bytes more it takes.
    pub(crate) fn room(&self) -> usize
        ensures { result ≡ room self.now }
    {
        if self.spent.is_some() {
            return 0;
        }
        let want = match &self.head {
            Some(head) => head.end,
            None => 0,
        };
        MOST_HEAD.max(want).saturating_sub(self.held.len())
    }

    fn hold(&mut self, piece: &[u8]) -> usize
        ensures count { result ≡ min (length piece.now) (room self.old) }
        ensures held { self.new ≡ record self.old { held = self.old.held ++ take result piece.now } }
        ensures within { IsWithin self.new }
    {
        if self.spent.is_some() {
            return 0;
        }
        let want = match &self.head {
            Some(head) => head.end,
            None => 0,
        };
        let room = MOST_HEAD.max(want).saturating_sub(self.held.len());
        let count = piece.len().min(room);
        let _ = self.held.extend_from_slice(&piece[..count]);
        count
    }

    /// Takes the first bytes of the piece and answers how many: the lesser of its length and the room. It takes no memory.
    pub(crate) fn feed(&mut self, piece: &[u8]) -> usize
        ensures count { result ≡ min (length piece.now) (room self.old) }
        ensures held { self.new ≡ record self.old { held = self.old.held ++ take result piece.now } }
        ensures within { IsWithin self.new }
        ensures series { (bytes : List ℕ) (messages : List M) → Series M.grammar bytes messages self.old.held
            → Series M.grammar (bytes ++ take result piece.now) messages self.new.held }
    {
        self.hold(piece)
    }

    /// The next message, or `None` if the bytes held are the beginning of one, or the lane is at its end. After `Refused` the lane is
    /// spent: it takes no more bytes and answers the same again.
    /// Once a message was handed out the lane holds no more memory than for [`MOST_HEAD`] bytes, what came after the message among them,
    /// unless there is none to move these to.
    pub(crate) fn next(&mut self) -> Result<Option<M>, HttpError>
        ensures answers { self.old.spent ≡ None → self.old.ended ≡ false → Answers M.grammar self.old self.new result }
        ensures repeats { Repeats self.old self.new result }
        ensures rests { Rests self.old self.new result }
        ensures within { IsWithin self.new }
        ensures series { IfOk result (λ o. IfSome o (λ message. (bytes : List ℕ) (messages : List M)
            → Series M.grammar bytes messages self.old.held → Series M.grammar bytes (messages ++ message ∷ []) self.new.held)) }
    {
        self.answer()
    }

    /// Messages follow the last one all the same. It takes no memory.
    pub(crate) fn go_on(&mut self)
        ensures { self.new ≡ record self.old { ended = false } }
    {
        self.ended = false;
    }

    /// Whether a 100 is due, which the caller then has taken. It takes no memory.
    pub(crate) fn take_continue(&mut self) -> bool
        ensures due { result ≡ self.old.due }
        ensures taken { self.new ≡ record self.old { due = false } }
    {
        let due = self.due;
        self.due = false;
        due
    }

    /// The bytes that were fed and are not part of a message that was handed out.
    pub(crate) fn rest(&self) -> &[u8]
        ensures { result.now ≡ self.now.held }
    {
        self.held.as_slice()
    }

    fn answer(&mut self) -> Result<Option<M>, HttpError>
        ensures answers { self.old.spent ≡ None → self.old.ended ≡ false → Answers M.grammar self.old self.new result }
        ensures repeats { Repeats self.old self.new result }
        ensures rests { Rests self.old self.new result }
        ensures within { IsWithin self.new }
    {
        if let Some(refusal) = self.spent {
            return Err(HttpError::Refused(refusal));
        }
        if self.ended {
            return Ok(None);
        }
        self.look()
    }

    fn look(&mut self) -> Result<Option<M>, HttpError>
        requires unspent { self.old.spent ≡ None }
        requires unended { self.old.ended ≡ false }
        ensures answers { Answers M.grammar self.old self.new result }
        ensures within { IsWithin self.new }
    {
        let Some(head) = self.head.take() else {
            return self.begin();
        };
        match take_body(self.alloc, &mut self.held, head.start, head.end) {
            Ok(Some(body)) => {
                let message = head.message.with_body(body);
                self.ended = message.is_last();
                self.due = false;
                Ok(Some(message))
            }
            Ok(None) => {
                self.head = Some(head);
                Ok(None)
            }
            Err(_) => {
                self.head = Some(head);
                Err(HttpError::NoMemory)
            }
        }
    }

    fn begin(&mut self) -> Result<Option<M>, HttpError>
        requires unspent { self.old.spent ≡ None }
        requires unended { self.old.ended ≡ false }
        requires no_head { self.old.want ≡ 0 }
        ensures answers { Answers M.grammar self.old self.new result }
        ensures within { IsWithin self.new }
    {
        match read_head::<M>(self.alloc, &self.held) {
            Ok(Some(head)) => self.accept(head),
            Ok(None) => Ok(None),
            Err(HttpError::Refused(refusal)) => self.refuse(refusal),
            Err(HttpError::NoMemory) => Err(HttpError::NoMemory),
        }
    }

    // The lane is spent.
    fn refuse(&mut self, refusal: Refusal) -> Result<Option<M>, HttpError>
        ensures refused { result ≡ Err (HttpError.Refused refusal) }
        ensures spent { self.new ≡ record self.old { spent = Some refusal } }
        ensures within { IsWithin self.new }
    {
        self.spent = Some(refusal);
        Err(HttpError::Refused(refusal))
    }

    // The head was just read: it is kept if the body is still to come.
    fn accept(&mut self, head: Head<M>) -> Result<Option<M>, HttpError>
        requires unspent { self.old.spent ≡ None }
        requires unended { self.old.ended ≡ false }
        requires no_head { self.old.want ≡ 0 }
        requires head { IsHeadAt M.grammar self.old.held head }
        ensures answers { Answers M.grammar self.old self.new result }
        ensures within { IsWithin self.new }
    {
        match take_body(self.alloc, &mut self.held, head.start, head.end)? {
            Some(body) => {
                self.head = None;
                let message = head.message.with_body(body);
                self.ended = message.is_last();
                self.due = false;
                Ok(Some(message))
            }
            None => {
                let more = head.end.saturating_sub(self.held.len());
                self.held.reserve(more)?;
                self.due = head.expects;
                self.head = Some(head);
                Ok(None)
            }
        }
    }
}
