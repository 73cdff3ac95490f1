//! A lane while it awaits the response to what it asked. It knows nothing of what is written.

ghost use Rattle.std.specs.Prelude.{◌≡◌, ◌≢◌, ◌⊎◌, ◌≤◌, ◌++◌, [], List, ℕ, None, Some, false, true, length, option_map, IfOk, OnErr};
ghost use Rattle.hh_http.specs.Lane.{at_start, room};
ghost use Rattle.hw_door.specs.Traffic.{Answer};
ghost use Rattle.hw_net.specs.Halting.{HaltsResponse};
ghost use Rattle.hw_net.specs.Lane.{asked_state, expected_of};
ghost use Rattle.hw_net.specs.ResponseState.{Concludes, HearsResponse, ReadsInto, Finds, FindsAtEnd, room_of, is_awake, IsResponseState};
ghost use Rattle.hw_net.specs.Trace.{Tells};

use crate::input::{Input, is_nothing, is_upgraded};
use crate::limits::{PIECE, SWITCHING};
use crate::reading::read_piece;
use hh_http::{HttpError, Response, ResponseLane, accept_of_ask};
use hw_door::{Upgrade, Wires};
use hw_lanes::Text8;
use std::alloc::{AllocError, Global};
use std::marker::Model;

/// An upgrade that was asked for.
#[derive(Drop)]
pub struct Expected {
    /// The text of `Sec-WebSocket-Accept` that accepts it (RFC 6455, section 4.1).
    pub accept: Text8,
    /// The seed of the masks of all frames that are sent then.
    pub seed: [u8; 16],
}

/// What is expected of the response to this upgrade.
fn expected_of(alloc: Global, upgrade: Upgrade) -> Result<Expected, AllocError>
    ensures { IfOk result (λ expected. expected ≡ expected_of upgrade) }
{
    Ok(Expected {
        accept: accept_of_ask(alloc, upgrade.key)?,
        seed: upgrade.seed,
    })
}

/// Whether the response is the upgrade: it has the text that accepts it, and no body.
fn accepts(response: &Response, expected: &Expected) -> bool
    ensures yes { result ≡ true → (response.now.accept ≡ Some expected.now.accept) × (response.now.body ≡ []) }
    ensures no { result ≡ false → (response.now.accept ≢ Some expected.now.accept) ⊎ (response.now.body ≢ []) }
{
    names(&response.accept, expected) && response.body.bytes().is_empty()
}

/// Whether this is the text that accepts the upgrade.
fn names(accept: &Option<Text8>, expected: &Expected) -> bool
    ensures yes { result ≡ true → accept.now ≡ Some expected.now.accept }
    ensures no { result ≡ false → accept.now ≢ Some expected.now.accept }
{
    match accept {
        Some(text) => text.bytes() == expected.accept.bytes(),
        None => false,
    }
}

/// What a whole response is heard as.
fn input_of(response: Response, upgrade: &Option<Expected>) -> Input
    ensures { Concludes upgrade.now response result }
{
    match upgrade {
        Some(expected) if response.status == SWITCHING => {
            if accepts(&response, expected) {
                Input::Upgraded
            } else {
                Input::Broken
            }
        }
        _ => Input::Response {
            status: response.status,
            body: response.body,
        },
    }
}

/// The response that one lane awaits.
#[derive(Drop)]
pub struct ResponseState {
    lane: ResponseLane,
    // The upgrade that was asked for, if one was.
    upgrade: Option<Expected>,
    // The response came, or what came is none, so no other is looked for.
    concluded: bool,
    // The response accepted the upgrade, which is still to be made.
    accepted: bool,
    // The bytes held may hold a response that wasn't looked for.
    has_unparsed: bool,
    // The last read filled the room that it had, or there was none.
    last_read_was_full: bool,
}

impl Model for ResponseState {
    ghost use Rattle.hw_net.specs.ResponseState.{ResponseStateView, response_state_code, IsResponseState};

    ghost Value = { ResponseStateView };

    ghost coded = { response_state_code };

    ghost view = { λ a. record {
      lane = a.lane;
      upgrade = a.upgrade;
      concluded = a.concluded;
      accepted = a.accepted;
      has_unparsed = a.has_unparsed;
      last_read_was_full = a.last_read_was_full;
    } };

    ghost invariant = { λ a. IsResponseState a.lane a.upgrade a.concluded a.accepted a.has_unparsed };
}

impl ResponseState {
    /// A lane that asked, for this upgrade if one is given, and on which nothing was read.
    pub fn start(alloc: Global, upgrade: Option<Upgrade>) -> Result<ResponseState, AllocError>
        ensures { IfOk result (λ a. a ≡ asked_state upgrade) }
    {
        let upgrade = match upgrade {
            Some(upgrade) => Some(expected_of(alloc, upgrade)?),
            None => None,
        };
        Ok(ResponseState {
            lane: ResponseLane::start(alloc)?,
            upgrade,
            concluded: false,
            accepted: false,
            has_unparsed: true,
            last_read_was_full: true,
        })
    }

    /// How many bytes are read at once.
    fn room(&self) -> usize
        ensures { result ≡ room_of self.now }
    {
        if self.accepted {
            return 0;
        }
        self.lane.room().min(PIECE)
    }

    /// Reads what has come, and hears the response that is held then, also if the wire broke, as one that memory was out for may be held. An upgrade
    /// that was accepted is heard until it is made.
    pub fn hear<W: Wires>(
        &mut self,
        wires: &mut W,
        wire: u64,
        buf: &mut [u8],
    ) -> Result<Input, AllocError>
        requires { length buf.old ≡ PIECE }
        ensures heard { IfOk result (λ input. (answers : List Answer) × Tells (W.trace wires.old) (W.trace wires.new) answers
            × HearsResponse wire self.old self.new answers input) }
        ensures halts { OnErr result ((answers : List Answer) × Tells (W.trace wires.old) (W.trace wires.new) answers
            × HaltsResponse wire self.old self.new answers) }
        ensures wires { W.wires wires.new ≡ W.wires wires.old }
    {
        if self.accepted {
            return Ok(Input::Upgraded);
        }
        if self.read(wires, wire, buf) {
            return self.look();
        }
        self.look_at_end()
    }

    /// The same once the wire broke: nothing more comes.
    fn look_at_end(&mut self) -> Result<Input, AllocError>
        ensures found { IfOk result (FindsAtEnd self.old self.new) }
        ensures unchanged { OnErr result (self.new ≡ self.old) }
    {
        let input = self.look()?;
        if is_nothing(&input) {
            return Ok(Input::Broken);
        }
        Ok(input)
    }

    /// Reads what has come, if there is room. The answer is false if the wire broke.
    fn read<W: Wires>(&mut self, wires: &mut W, wire: u64, buf: &mut [u8]) -> bool
        requires { length buf.old ≡ PIECE }
        ensures read { (answers : List Answer) × Tells (W.trace wires.old) (W.trace wires.new) answers
            × ReadsInto wire self.old self.new answers result }
        ensures wires { W.wires wires.new ≡ W.wires wires.old }
    {
        let room = self.room();
        if room == 0 {
            return true;
        }
        let piece = &mut buf[..room];
        let Some(count) = read_piece(wires, wire, piece) else {
            return false;
        };
        self.take(&piece[..count], count == room);
        true
    }

    /// Takes bytes that were read, all that there was room for if it `is_full`.
    fn take(&mut self, piece: &[u8], is_full: bool)
        requires { length piece.now ≤ room self.old.lane }
        ensures held { self.new.lane ≡ record self.old.lane { held = self.old.lane.held ++ piece.now } }
        ensures upgrade { self.new.upgrade ≡ self.old.upgrade }
        ensures concluded { self.new.concluded ≡ self.old.concluded }
        ensures accepted { self.new.accepted ≡ self.old.accepted }
        ensures full { self.new.last_read_was_full ≡ is_full }
    {
        self.last_read_was_full = is_full;
        if !piece.is_empty() {
            self.lane.feed(piece);
            self.has_unparsed = true;
        }
    }

    /// Looks for the response in the bytes held, unless it came.
    fn look(&mut self) -> Result<Input, AllocError>
        ensures found { IfOk result (Finds self.old self.new) }
        ensures unchanged { OnErr result (self.new ≡ self.old) }
    {
        if self.concluded || !self.has_unparsed {
            return Ok(Input::Nothing);
        }
        match self.lane.next_response() {
            Ok(Some(response)) => {
                let input = input_of(response, &self.upgrade);
                self.concluded = true;
                self.accepted = is_upgraded(&input);
                Ok(input)
            }
            Ok(None) => {
                self.has_unparsed = false;
                Ok(Input::Nothing)
            }
            Err(HttpError::Refused(_)) => {
                self.concluded = true;
                self.accepted = false;
                Ok(Input::Broken)
            }
            Err(HttpError::NoMemory) => Err(AllocError),
        }
    }

    /// Whether the response came, or what came is none.
    pub fn is_concluded(&self) -> bool
        ensures { result ≡ self.now.concluded }
    {
        self.concluded
    }

    /// What holds of every lane of a response holds of this one. It does nothing.
    pub fn is_sound(&self)
        ensures { IsResponseState self.now.lane self.now.upgrade self.now.concluded self.now.accepted self.now.has_unparsed }
    {
        let _lane = &self.lane;
    }

    /// The seed of the masks, if an upgrade was asked for.
    pub fn seed(&self) -> Option<[u8; 16]>
        ensures { result ≡ option_map (λ expected. expected.seed) self.now.upgrade }
    {
        match &self.upgrade {
            Some(expected) => Some(expected.seed),
            None => None,
        }
    }

    /// The bytes that were read and are no part of the response.
    pub fn rest(&self) -> &[u8]
        ensures { result.now ≡ self.now.lane.held }
    {
        self.lane.rest()
    }

    /// Whether something may be heard at once: the upgrade, there may be a response, or more bytes to read.
    pub fn is_awake(&self) -> bool
        ensures { result ≡ is_awake self.now }
    {
        self.accepted
            || (self.has_unparsed && !self.concluded)
            || (self.last_read_was_full && self.room() > 0)
    }
}
