//! What a lane needs to know of the kind of its messages: there are requests and responses.
ghost use Rattle.std.specs.Prelude.{◌≡◌, ◌≤◌, ℕ, List, length};
ghost use Rattle.httparse.specs.Outcome.{IfComplete, OnPartial, OnInvalid, OnTooManyHeaders};
ghost use Rattle.httparse.specs.declared.spans.HeaderSpan.{HeaderSpan as HeaderMeant};
ghost use Rattle.hh_http.specs.Messages.{Grammar, IsGrammar, Judges, Reads};

use crate::error::{HttpError, only_status};
use crate::limits::{MOST_HEAD, MOST_HEADERS};
use httparse::spans::{EMPTY_HEADER_SPAN, HeaderSpan};
use httparse::{Error, Status};
use hw_lanes::Vec8;
use std::alloc::Global;

/// What a head says of its message, and where its body stands in the bytes that begin with the head.
#[derive(Drop)]
pub(crate) struct Head<M> {
    /// Its body is empty.
    pub(crate) message: M,
    pub(crate) start: usize,
    pub(crate) end: usize,
    /// The body is sent once a 100 came.
    pub(crate) expects: bool,
}

/// A kind of messages. Its grammar says which bytes begin with one, and what it then is.
pub(crate) trait Message: Sized + Drop {
    /// Where the parts of a head are.
    type Spans: Drop;

    ghost grammar: { Grammar Self };

    /// The spans are those of a head that the bytes begin with.
    ghost covers: { List ℕ → List HeaderMeant → Self.Spans → Type 0 };

    /// Finds the head that the bytes begin with, and writes where its headers are to the front of `headers`.
    fn parse(held: &[u8], headers: &mut [HeaderSpan]) -> httparse::Result<Self::Spans>
        ensures complete { IfComplete result (covers held.now headers.new) }
        ensures partial { OnPartial result (grammar.HasNone held.now × grammar.MayBecome held.now) }
        ensures invalid { OnInvalid result (grammar.NeverHas held.now) }
        ensures too_many { OnTooManyHeaders result (grammar.Exceeds (length headers.old) held.now) };

    /// What a head that was found comes to.
    fn judge(
        alloc: Global,
        held: &[u8],
        spans: Self::Spans,
        headers: &[HeaderSpan],
    ) -> Result<Head<Self>, HttpError>
        requires covered { covers held.now headers.now spans }
        requires few { length headers.now ≤ MOST_HEADERS }
        ensures { Judges grammar held.now result };

    /// The message with this body.
    fn with_body(self, body: Vec8) -> Self
        ensures { result ≡ grammar.with_body self body };

    /// Whether no message follows this one.
    fn is_last(&self) -> bool
        ensures { result ≡ grammar.is_last self.now };

    ghost lawful: { IsGrammar grammar };
}

/// The head that the bytes begin with, or `None` if it has not ended.
pub(crate) fn read_head<M: Message>(
    alloc: Global,
    held: &[u8],
) -> Result<Option<Head<M>>, HttpError>
    ensures { Reads M.grammar held.now result }
{
    let mut headers = [EMPTY_HEADER_SPAN; MOST_HEADERS];
    match M::parse(held, &mut headers) {
        Ok(Status::Complete(spans)) => match M::judge(alloc, held, spans, &headers) {
            Ok(head) => Ok(Some(head)),
            Err(HttpError::Refused(refusal)) => Err(HttpError::Refused(refusal)),
            Err(HttpError::NoMemory) => Err(HttpError::NoMemory),
        },
        Ok(Status::Partial) => {
            if held.len() < MOST_HEAD {
                Ok(None)
            } else {
                Err(HttpError::Refused(only_status(431)))
            }
        }
        Err(Error::TooManyHeaders) => Err(HttpError::Refused(only_status(431))),
        Err(_) => Err(HttpError::Refused(only_status(400))),
    }
}
