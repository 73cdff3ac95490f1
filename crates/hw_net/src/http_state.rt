//! A lane while it is one of requests. It knows nothing of what is written.

ghost use Rattle.std.specs.Prelude.{◌≡◌, ◌≤◌, ◌||◌, ◌++◌, ◌∷◌, [], List, ℕ, false, true, not, length, take, option_map, IfOk, IfSome, OnErr};
ghost use Rattle.hw_lanes.specs.declared.http.Request.{Request};
ghost use Rattle.hh_http.specs.Asks.{Asks};
ghost use Rattle.hh_http.specs.Lane.{at_start, room};
ghost use Rattle.hw_door.specs.Traffic.{Answer};
ghost use Rattle.hw_net.specs.declared.limits.TheConstants.{PIECE};
ghost use Rattle.hw_net.specs.Halting.{HaltsHttp};
ghost use Rattle.hw_net.specs.HttpState.{HearsHttp, ReadsInto, Finds, room_of, requests_of, is_awake, IsCalm, IsHttpState};
ghost use Rattle.hw_net.specs.Lane.{says_continue};
ghost use Rattle.hw_net.specs.Trace.{Reads, Tells};
ghost use Rattle.hw_net.specs.Turn.{IsRightInput};

use crate::input::{Input, is_nothing};
use crate::limits::PIECE;
use crate::protocol::Protocol;
use crate::reading::read_piece;
use hh_http::{HttpError, HttpLane};
use hw_door::Wires;
use std::alloc::{AllocError, Global};
use std::marker::Model;

/// The requests of one lane.
#[derive(Drop)]
pub struct HttpState {
    lane: HttpLane,
    // A request was heard that isn't replied to, so no other is looked for.
    busy: bool,
    // The bytes held may hold a request that wasn't looked for.
    has_unparsed: bool,
    // The last read filled the room that it had, or there was none.
    last_read_was_full: bool,
    // A 100 is to be said for the request whose head was read.
    awaits_continue: bool,
    // A 100 was said for the request that comes, or that waits for its reply.
    continued: bool,
}

impl Model for HttpState {
    ghost use Rattle.hw_net.specs.HttpState.{HttpStateView, http_state_code, IsHttpState};

    ghost Value = { HttpStateView };

    ghost coded = { http_state_code };

    ghost view = { λ a. record {
      lane = a.lane;
      busy = a.busy;
      has_unparsed = a.has_unparsed;
      last_read_was_full = a.last_read_was_full;
      awaits_continue = a.awaits_continue;
      continued = a.continued;
    } };

    ghost invariant = { λ a. IsHttpState a.lane a.busy a.has_unparsed };
}

impl HttpState {
    /// A lane on which nothing was read.
    pub fn start(alloc: Global) -> Result<HttpState, AllocError>
        ensures { IfOk result (λ a. a ≡ record {
          lane = at_start;
          busy = false;
          has_unparsed = true;
          last_read_was_full = true;
          awaits_continue = false;
          continued = false;
        }) }
    {
        Ok(HttpState {
            lane: HttpLane::start(alloc)?,
            busy: false,
            has_unparsed: true,
            last_read_was_full: true,
            awaits_continue: false,
            continued: false,
        })
    }

    /// How many bytes are read at once.
    fn room(&self) -> usize
        ensures { result ≡ room_of self.now.lane }
    {
        self.lane.room().min(PIECE)
    }

    /// Hears the request that is held, or reads and hears the one that is held then.
    pub fn hear<W: Wires>(
        &mut self,
        wires: &mut W,
        wire: u64,
        buf: &mut [u8],
    ) -> Result<Input, AllocError>
        requires { length buf.old ≡ PIECE }
        ensures heard { IfOk result (λ input. (answers : List Answer) × Tells (W.trace wires.old) (W.trace wires.new) answers
            × HearsHttp wire self.old self.new answers input) }
        ensures halts { OnErr result ((answers : List Answer) × Tells (W.trace wires.old) (W.trace wires.new) answers
            × HaltsHttp wire self.old self.new answers) }
        ensures wires { W.wires wires.new ≡ W.wires wires.old }
    {
        let input = self.look()?;
        if is_nothing(&input) {
            return self.read_and_look(wires, wire, buf);
        }
        Ok(input)
    }

    fn read_and_look<W: Wires>(
        &mut self,
        wires: &mut W,
        wire: u64,
        buf: &mut [u8],
    ) -> Result<Input, AllocError>
        requires { length buf.old ≡ PIECE }
        ensures heard { IfOk result (λ input. (answers : List Answer) × Tells (W.trace wires.old) (W.trace wires.new) answers
            × HearsHttp wire self.old self.new answers input) }
        ensures halts { OnErr result ((answers : List Answer) × Tells (W.trace wires.old) (W.trace wires.new) answers
            × HaltsHttp wire self.old self.new answers) }
        ensures wires { W.wires wires.new ≡ W.wires wires.old }
    {
        if !self.read(wires, wire, buf) {
            return Ok(Input::Broken);
        }
        self.look()
    }

    /// Reads what has come, if there is room. The answer is false if the wire broke.
    fn read<W: Wires>(&mut self, wires: &mut W, wire: u64, buf: &mut [u8]) -> bool
        requires { length buf.old ≡ PIECE }
        ensures read { (answers : List Answer) × Tells (W.trace wires.old) (W.trace wires.new) answers
            × ReadsInto wire self.old self.new answers result }
        ensures wires { W.wires wires.new ≡ W.wires wires.old }
    {
        let room = self.room();
        if room == 0 {
            return true;
        }
        let piece = &mut buf[..room];
        let Some(count) = read_piece(wires, wire, piece) else {
            return false;
        };
        self.take(&piece[..count], count == room);
        true
    }

    /// Hears the request that is held after a read that gave this: so many bytes, in front of the buffer, or `None` if the wire broke.
    pub fn hear_after(&mut self, read: Option<usize>, buf: &[u8]) -> Result<Input, AllocError>
        requires buffer { length buf.now ≡ PIECE }
        requires count { IfSome read (λ count. count ≤ PIECE) }
        ensures heard { IfOk result (λ input. (wire : ℕ) (answer : Answer) → IsCalm self.old → Reads wire PIECE answer (option_map (λ count. take count buf.now) read)
            → HearsHttp wire self.old self.new (answer ∷ []) input) }
        ensures halts { OnErr result ((wire : ℕ) (answer : Answer) → IsCalm self.old → Reads wire PIECE answer (option_map (λ count. take count buf.now) read)
            → HaltsHttp wire self.old self.new (answer ∷ [])) }
        ensures right { IfOk result (IsRightInput (Protocol.Http self.new)) }
    {
        let Some(count) = read else {
            return Ok(Input::Broken);
        };
        // A calm lane has room for all of it.
        let room = self.room();
        let taken = count.min(room);
        self.take(&buf[..taken], taken == room);
        self.look()
    }

    /// Whether this is known: nothing is to be heard before more bytes come, and there is room for all that one read may give.
    pub fn is_idle(&self) -> bool
        ensures { result ≡ true → IsCalm self.now }
    {
        self.is_sound();
        if self.is_awake() || self.awaits_continue {
            return false;
        }
        self.room() == PIECE
    }

    /// Takes bytes that were read, all that there was room for if it `is_full`.
    fn take(&mut self, piece: &[u8], is_full: bool)
        requires { length piece.now ≤ room self.old.lane }
        ensures held { self.new.lane ≡ record self.old.lane { held = self.old.lane.held ++ piece.now } }
        ensures busy { self.new.busy ≡ self.old.busy }
        ensures continued { self.new.continued ≡ self.old.continued }
        ensures full { self.new.last_read_was_full ≡ is_full }
        ensures asks { (bytes : List ℕ) (requests : List Request) → Asks bytes requests self.old.lane.held
            → Asks (bytes ++ piece.now) requests self.new.lane.held }
    {
        self.last_read_was_full = is_full;
        if !piece.is_empty() {
            self.lane.feed(piece);
            self.has_unparsed = true;
        }
    }

    /// Looks for a request in the bytes held, unless one waits for its reply.
    fn look(&mut self) -> Result<Input, AllocError>
        ensures found { IfOk result (Finds self.old self.new) }
        ensures unchanged { OnErr result (self.new ≡ self.old) }
        ensures asks { IfOk result (λ input. (bytes : List ℕ) (requests : List Request) → Asks bytes requests self.old.lane.held
            → Asks bytes (requests ++ requests_of input) self.new.lane.held) }
    {
        if self.busy || !self.has_unparsed {
            return Ok(Input::Nothing);
        }
        match self.lane.next_request() {
            Ok(Some(request)) => {
                self.busy = true;
                Ok(Input::Request(request))
            }
            Ok(None) => {
                self.has_unparsed = false;
                let is_due = self.lane.take_continue();
                self.awaits_continue = self.awaits_continue || is_due;
                Ok(Input::Nothing)
            }
            Err(HttpError::Refused(refusal)) => Ok(Input::Refused(refusal)),
            Err(HttpError::NoMemory) => Err(AllocError),
        }
    }

    /// The request that waits was replied to, and isn't the last.
    pub fn go_on(&mut self)
        ensures { self.new ≡ record self.old { lane = record self.old.lane { ended = false }; busy = false; continued = false } }
    {
        self.lane.decline_upgrade();
        self.busy = false;
        self.continued = false;
    }

    /// Whether a 100 is to be said, before anything else.
    pub fn says_continue(&self) -> bool
        ensures { result ≡ says_continue self.now }
    {
        self.awaits_continue && !self.continued
    }

    /// Whether a turn may hear nothing but what comes: no 100 is due.
    pub fn only_waits(&self) -> bool
        ensures { result ≡ not self.now.awaits_continue }
    {
        !self.awaits_continue
    }

    /// The 100 that was to be said was, if one was to be.
    pub fn note_continue(&mut self)
        ensures { self.new ≡ record self.old { awaits_continue = false; continued = self.old.awaits_continue || self.old.continued } }
    {
        self.continued = self.awaits_continue || self.continued;
        self.awaits_continue = false;
    }

    /// Whether a request waits for its reply.
    pub fn is_busy(&self) -> bool
        ensures { result ≡ self.now.busy }
    {
        self.busy
    }

    /// What holds of every lane of requests holds of this one. It does nothing.
    pub fn is_sound(&self)
        ensures { IsHttpState self.now.lane self.now.busy self.now.has_unparsed }
    {
        let _lane = &self.lane;
    }

    /// The bytes that were read and belong to no request that was heard.
    pub fn rest(&self) -> &[u8]
        ensures { result.now ≡ self.now.lane.held }
    {
        self.lane.rest()
    }

    /// Whether something may be heard at once: there may be a request, or more bytes to read.
    pub fn is_awake(&self) -> bool
        ensures { result ≡ is_awake self.now }
    {
        (self.has_unparsed && !self.busy) || (self.last_read_was_full && self.room() > 0)
    }
}
