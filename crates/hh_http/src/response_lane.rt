//! A lane of responses: the bytes that a server sends come in, in any pieces, and its responses go out.
ghost use Rattle.std.specs.Prelude.{◌≡◌, ◌++◌, ◌∷◌, [], false, None, ℕ, List, min, length, take, IfSome, IfOk};
ghost use Rattle.hh_http.specs.Lane.{at_start, room, IsWithin};
ghost use Rattle.hh_http.specs.Messages.{Answers, Repeats, Rests};
ghost use Rattle.hh_http.specs.Responses.{Gives, response_grammar};
ghost use Rattle.hh_http.specs.declared.response.Response.{Response};

use crate::error::HttpError;
use crate::message_lane::MessageLane;
use crate::response::Response;
use std::alloc::{AllocError, Global};
use std::marker::Model;

/// The responses of one connection. Each is to be asked for by the caller, who knows what it answers.
#[derive(Drop)]
pub struct ResponseLane {
    lane: MessageLane<Response>,
}

impl Model for ResponseLane {
    ghost use Rattle.hh_http.specs.Lane.{Lane, lane_code};

    ghost Value = { Lane };

    ghost coded = { lane_code };

    ghost view = { λ a. a.lane };
}

impl ResponseLane {
    /// A lane that was fed nothing.
    pub fn start(alloc: Global) -> Result<ResponseLane, AllocError>
        ensures { IfOk result (λ lane. lane ≡ at_start) }
    {
        Ok(ResponseLane {
            lane: MessageLane::start(alloc)?,
        })
    }

    /// How many bytes more it takes: the greater of [`MOST_HEAD`](crate::MOST_HEAD) and the length of the response whose head was read,
    /// less the bytes held. A spent lane takes none.
    pub fn room(&self) -> usize
        ensures { result ≡ room self.now }
    {
        self.lane.room()
    }

    /// Takes the first bytes of the piece and answers how many: the lesser of its length and the [`room`](ResponseLane::room). It takes no
    /// memory.
    pub fn feed(&mut self, piece: &[u8]) -> usize
        ensures count { result ≡ min (length piece.now) (room self.old) }
        ensures held { self.new ≡ record self.old { held = self.old.held ++ take result piece.now } }
        ensures within { IsWithin self.new }
        ensures gives { (bytes : List ℕ) (responses : List Response) → Gives bytes responses self.old.held
            → Gives (bytes ++ take result piece.now) responses self.new.held }
    {
        self.lane.feed(piece)
    }

    /// The next response, or `None` if the bytes held are the beginning of one. After `Refused` the lane is spent: it takes no more
    /// bytes and answers the same again. After a 101 it is at its end, and answers `None`; what was fed after
    /// that is the [`rest`](ResponseLane::rest).
    pub fn next_response(&mut self) -> Result<Option<Response>, HttpError>
        ensures answers { self.old.spent ≡ None → self.old.ended ≡ false → Answers response_grammar self.old self.new result }
        ensures repeats { Repeats self.old self.new result }
        ensures rests { Rests self.old self.new result }
        ensures within { IsWithin self.new }
        ensures gives { IfOk result (λ o. IfSome o (λ response. (bytes : List ℕ) (responses : List Response)
            → Gives bytes responses self.old.held → Gives bytes (responses ++ response ∷ []) self.new.held)) }
    {
        self.lane.next()
    }

    /// The bytes that were fed and are not part of a response that was handed out.
    pub fn rest(&self) -> &[u8]
        ensures { result.now ≡ self.now.held }
    {
        self.lane.rest()
    }
}
