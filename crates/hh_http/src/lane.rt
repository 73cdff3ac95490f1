//! A lane of requests: the bytes of one connection come in, in any pieces, and its requests go out.
ghost use Rattle.std.specs.Prelude.{◌≡◌, ◌++◌, ◌∷◌, [], false, None, ℕ, List, min, length, take, IfSome, IfOk};
ghost use Rattle.hw_lanes.specs.declared.http.Request.{Request};
ghost use Rattle.hh_http.specs.Asks.{Asks, request_grammar};
ghost use Rattle.hh_http.specs.Lane.{at_start, room, IsWithin};
ghost use Rattle.hh_http.specs.Messages.{Answers, Repeats, Rests};

use crate::error::HttpError;
use crate::message_lane::MessageLane;
use hw_lanes::Request;
use std::alloc::{AllocError, Global};
use std::marker::Model;

/// The requests of one connection.
#[derive(Drop)]
pub struct HttpLane {
    lane: MessageLane<Request>,
}

impl Model for HttpLane {
    ghost use Rattle.hh_http.specs.Lane.{Lane, lane_code};

    ghost Value = { Lane };

    ghost coded = { lane_code };

    ghost view = { λ a. a.lane };
}

impl HttpLane {
    /// A lane that was fed nothing.
    pub fn start(alloc: Global) -> Result<HttpLane, AllocError>
        ensures { IfOk result (λ lane. lane ≡ at_start) }
    {
        Ok(HttpLane {
            lane: MessageLane::start(alloc)?,
        })
    }

    /// How many bytes more it takes: the greater of [`MOST_HEAD`](crate::MOST_HEAD) and the length of the request whose head was read,
    /// less the bytes held. A spent lane takes none.
    pub fn room(&self) -> usize
        ensures { result ≡ room self.now }
    {
        self.lane.room()
    }

    /// Takes the first bytes of the piece and answers how many: the lesser of its length and the [`room`](HttpLane::room). It takes no
    /// memory.
    pub fn feed(&mut self, piece: &[u8]) -> usize
        ensures count { result ≡ min (length piece.now) (room self.old) }
        ensures held { self.new ≡ record self.old { held = self.old.held ++ take result piece.now } }
        ensures within { IsWithin self.new }
        ensures asks { (bytes : List ℕ) (requests : List Request) → Asks bytes requests self.old.held
            → Asks (bytes ++ take result piece.now) requests self.new.held }
    {
        self.lane.feed(piece)
    }

    /// The next request, or `None` if the bytes held are the beginning of one. After `Refused` the lane is spent: it takes no more
    /// bytes and answers the same again. After a request that asks for a WebSocket it is at its end, and answers `None`; what was
    /// fed after that request is the [`rest`](HttpLane::rest), or further requests after [`decline_upgrade`](HttpLane::decline_upgrade).
    pub fn next_request(&mut self) -> Result<Option<Request>, HttpError>
        ensures answers { self.old.spent ≡ None → self.old.ended ≡ false → Answers request_grammar self.old self.new result }
        ensures repeats { Repeats self.old self.new result }
        ensures rests { Rests self.old self.new result }
        ensures within { IsWithin self.new }
        ensures asks { IfOk result (λ o. IfSome o (λ request. (bytes : List ℕ) (requests : List Request)
            → Asks bytes requests self.old.held → Asks bytes (requests ++ request ∷ []) self.new.held)) }
    {
        self.lane.next()
    }

    /// The upgrade for which the last request asked is refused: what was fed after it is read as requests. It takes no memory.
    pub fn decline_upgrade(&mut self)
        ensures { self.new ≡ record self.old { ended = false } }
    {
        self.lane.go_on();
    }

    /// Whether the request whose head was read waits for a 100, which [`write_continue`](crate::write_continue) writes: once for each
    /// that expects one (RFC 9110, section 10.1.1), and only after [`next_request`](HttpLane::next_request) answered `None` since its body
    /// isn't whole. Ask right after each `None`, since nothing is due any more once a later call hands the request out; and write the text
    /// before anything else. It takes no memory.
    pub fn take_continue(&mut self) -> bool
        ensures due { result ≡ self.old.due }
        ensures taken { self.new ≡ record self.old { due = false } }
    {
        self.lane.take_continue()
    }

    /// The bytes that were fed and are not part of a request that was handed out.
    pub fn rest(&self) -> &[u8]
        ensures { result.now ≡ self.now.held }
    {
        self.lane.rest()
    }
}
