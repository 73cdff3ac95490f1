//! One lane of a door or of a dialer: what it hears in a turn, and what it says.

ghost use Rattle.std.specs.Prelude.{◌≡◌, ◌<◌, ◌≤◌, ◌-◌, ◌&&◌, ◌++◌, ◌∷◌, [], if◌then◌else◌, ℕ, List, Some, true, false, not, nat_le, length, IfOk, IfSome, OnOk, OnErr};
ghost use Rattle.hw_lanes.specs.Replies.{IsReply};
ghost use Rattle.hh_http.specs.Texts.{continue_text, reply_text};
ghost use Rattle.hw_door.specs.Traffic.{Answer, was_shut};
ghost use Rattle.hw_net.specs.Bounds.{is_unwritten};
ghost use Rattle.hw_net.specs.Door.{new_lane};
ghost use Rattle.hw_net.specs.FirstReads.{ReadsFirst, IsCalmLane, IsCalmProtocol, IsWithin};
ghost use Rattle.hw_net.specs.Halting.{Halts, HaltsIn, IsDue, IsLasting};
ghost use Rattle.hw_net.specs.Lane.{waits, frames_of, is_over, is_awake, is_awake_by, is_drained, is_stalled, is_full, is_overdue, owes, refusal_of, full_after_write, after_end, after_hearing, after_message, after_reply, after_turn, protocol_after_shut, protocol_after_reply, protocol_after_upgrade, dialed_lane, new_socket, rest_of};
ghost use Rattle.hw_net.specs.Saying.{Writes, WritesOut, WritesIfLive, DropsOrWrites, Says, SaysIfEnded, SaysMore, GathersOrSays, SpeaksAs, IsLaneStill, must_end, has_closed_long};
ghost use Rattle.hw_net.specs.Resting.{IsKnown};
ghost use Rattle.hw_net.specs.Tally.{has_unwritten, is_closing, is_restless, is_writer, only_waits_by};
ghost use Rattle.hw_net.specs.Trace.{Tells};
ghost use Rattle.hw_net.specs.Turn.{Hears, Settles, IsRightInput, TurnsLive, TurnsByFullness, Drains, Falls, Listens, Loses, LosesAt, Replies, Puts, Sends, Shuts};

use crate::first_read::FirstRead;
use crate::full::{Fullness, full_after_message, full_after_turn, full_after_write, has_stalled};
use crate::http_state::HttpState;
use crate::input::Input;
use crate::limits::{
    MOST_CLOSING, MOST_DRAINED, MOST_GATHERED_BYTES, MOST_UNWRITTEN, MOST_WAIT, PIECE, SWITCHING,
};
use crate::protocol::{Protocol, Stage};
use crate::reading::read_piece;
use crate::refusing::refusal_reply;
use crate::response_state::ResponseState;
use crate::websocket_state::WebSocketState;
use crate::writing::write_bytes;
use hh_http::{write_continue, write_reply};
use hw_door::{Event, Upgrade, Wires};
use hw_lanes::{Refusal, Reply};
use hw_socket::SocketSide;
use std::alloc::{AllocError, Global};
use std::marker::Model;

/// Whether the wire is shut after the writes: it failed, too much is left, or a lane that is heard no more has nothing left.
fn must_end(stage: Stage, unwritten: usize, is_whole: bool) -> bool
    ensures { result ≡ must_end stage unwritten is_whole }
{
    match stage {
        Stage::Live => !is_whole || unwritten > MOST_UNWRITTEN,
        Stage::Lost => false,
        Stage::Closing => !is_whole || unwritten == 0 || unwritten > MOST_UNWRITTEN,
        Stage::Over => false,
    }
}

/// The moment before which a lane isn't late that waits for a request, or for its response, since this one. One that is busy, as it owes a reply
/// or had its response, never is.
fn due_of(since: u64, is_busy: bool) -> u64
    ensures { (now : ℕ) → now < result → (not is_busy && nat_le MOST_WAIT (now - since)) ≡ false }
{
    if is_busy {
        return u64::MAX;
    }
    since.saturating_add(MOST_WAIT)
}

/// Appends a 100, if one is to be said.
fn put_continue(is_said: bool, out: &mut Vec<u8>) -> Result<(), AllocError>
    ensures ok { OnOk result (out.new.items ≡ (if is_said then out.old.items ++ continue_text else out.old.items)) }
    ensures err { OnErr result ((out.new.items ≡ out.old.items) × (is_said ≡ true)) }
{
    if !is_said {
        return Ok(());
    }
    write_continue(out)?;
    Ok(())
}

/// One lane. Its number is that of its wire.
#[derive(Drop)]
pub struct NetLane {
    alloc: Global,
    wire: u64,
    // The moment since which it waits for a whole request or response, or closes.
    since: u64,
    protocol: Protocol,
    // What was replied or asked and isn't written. What a WebSocket has to write comes after it.
    out: Vec<u8>,
    stage: Stage,
    // How long it is full, if it is.
    full: Option<Fullness>,
}

impl Model for NetLane {
    ghost use Rattle.hw_net.specs.Lane.{Lane};

    ghost Value = { Lane };

    ghost view = { λ a. record { wire = a.wire; since = a.since; protocol = a.protocol; out = a.out.items; stage = a.stage; full = a.full } };
}

impl NetLane {
    /// The lane of a wire that was accepted at this moment.
    pub fn start(alloc: Global, wire: u64, now: u64) -> Result<NetLane, AllocError>
        ensures { IfOk result (λ lane. lane ≡ new_lane now wire) }
    {
        Ok(NetLane {
            alloc,
            wire,
            since: now,
            protocol: Protocol::Http(HttpState::start(alloc)?),
            out: Vec::new(alloc),
            stage: Stage::Live,
            full: None,
        })
    }

    /// The lane of a wire that was dialed at this moment, on which this is to be written: an ask, for this upgrade if one is given.
    pub fn dialed(
        alloc: Global,
        wire: u64,
        ask: Vec<u8>,
        upgrade: Option<Upgrade>,
        now: u64,
    ) -> Result<NetLane, AllocError>
        ensures { IfOk result (λ lane. lane ≡ dialed_lane now wire ask.items upgrade) }
    {
        Ok(NetLane {
            alloc,
            wire,
            since: now,
            protocol: Protocol::Response(ResponseState::start(alloc, upgrade)?),
            out: ask,
            stage: Stage::Live,
            full: None,
        })
    }

    pub fn wire(&self) -> u64
        ensures { result ≡ self.now.wire }
    {
        self.wire
    }

    pub fn is_over(&self) -> bool
        ensures { result ≡ is_over self.now.stage }
    {
        self.stage == Stage::Over
    }

    /// Whether something may be heard at once.
    pub fn is_awake(&self) -> bool
        ensures { result ≡ is_awake self.now }
    {
        self.may_hear() || self.is_drained()
    }

    /// Whether a message, a request or the loss of the lane may be heard at once.
    fn may_hear(&self) -> bool
        ensures { result ≡ is_awake_by self.now.stage self.now.protocol }
    {
        match self.stage {
            Stage::Live => match &self.protocol {
                Protocol::Http(http_state) => http_state.is_awake(),
                Protocol::Response(response_state) => response_state.is_awake(),
                Protocol::Socket(websocket_state) => websocket_state.is_awake(),
            },
            Stage::Lost => true,
            Stage::Closing => false,
            Stage::Over => false,
        }
    }

    /// Whether the lane was full, and has little left to write.
    fn is_drained(&self) -> bool
        ensures { result ≡ is_drained self.now }
    {
        self.stage == Stage::Live && self.full.is_some() && self.unwritten() <= MOST_DRAINED
    }

    /// Whether the lane is full, and nothing was written on its wire for too long.
    fn is_stalled(&self) -> bool
        ensures { result ≡ is_stalled self.now }
    {
        has_stalled(self.full)
    }

    /// Whether so much waits that nothing more should be sent until the lane has drained.
    fn is_full(&self) -> bool
        ensures { result ≡ is_full self.now }
    {
        self.stage == Stage::Live && self.full.is_some()
    }

    /// Whether the lane is live, and something waits to be written.
    pub fn is_writer(&self) -> bool
        ensures { result ≡ is_writer self.now }
    {
        self.stage == Stage::Live && self.unwritten() > 0
    }

    /// Whether the lane is heard no more, and its wire is there until all is written.
    pub fn is_closing(&self) -> bool
        ensures { result ≡ is_closing self.now.stage }
    {
        self.stage == Stage::Closing
    }

    /// Whether there may be something to write.
    pub fn has_unwritten(&self) -> bool
        ensures { result ≡ has_unwritten self.now }
    {
        match self.stage {
            Stage::Live => self.unwritten() > 0,
            Stage::Lost => false,
            Stage::Closing => true,
            Stage::Over => false,
        }
    }

    /// Whether something waits to be written, and the wire wasn't shut.
    pub fn is_unwritten(&self) -> bool
        ensures { result ≡ is_unwritten self.now }
    {
        match self.stage {
            Stage::Live => self.unwritten() > 0,
            Stage::Lost => false,
            Stage::Closing => self.unwritten() > 0,
            Stage::Over => false,
        }
    }

    /// Whether something may be heard or written before more bytes come, and not only that the lane is overdue.
    pub fn is_restless(&self) -> bool
        ensures { result ≡ is_restless self.now }
    {
        self.is_awake() || self.has_unwritten() || !self.only_waits()
    }

    /// Whether a live lane hears nothing but what comes.
    fn only_waits(&self) -> bool
        ensures { result ≡ only_waits_by self.now.stage self.now.protocol }
    {
        match self.stage {
            Stage::Live => match &self.protocol {
                Protocol::Http(http_state) => http_state.only_waits(),
                Protocol::Response(_) => true,
                Protocol::Socket(websocket_state) => websocket_state.only_waits(),
            },
            Stage::Lost => true,
            Stage::Closing => true,
            Stage::Over => true,
        }
    }

    /// The moment before which the lane isn't overdue. The other fact is what holds of all that lanes speak.
    pub fn due(&self) -> u64
        ensures { IsKnown result self.now }
    {
        match &self.protocol {
            Protocol::Http(http_state) => {
                http_state.is_sound();
                due_of(self.since, http_state.is_busy())
            }
            Protocol::Response(response_state) => {
                response_state.is_sound();
                due_of(self.since, response_state.is_concluded())
            }
            Protocol::Socket(websocket_state) => {
                websocket_state.is_sound();
                u64::MAX
            }
        }
    }

    /// How many bytes wait to be written.
    fn unwritten(&self) -> usize
        ensures { result ≡ length (waits self.now) }
    {
        match &self.protocol {
            Protocol::Http(_) => self.out.len(),
            Protocol::Response(_) => self.out.len(),
            Protocol::Socket(websocket_state) => self
                .out
                .len()
                .saturating_add(websocket_state.out().len()),
        }
    }

    /// Whether this is known, as it is of most lanes of a server: nothing is to be heard or written before more bytes come, and not only that
    /// the lane is overdue.
    fn is_idle(&self) -> bool
        ensures { result ≡ true → IsCalmLane self.now }
    {
        self.stage == Stage::Live && self.out.is_empty() && self.full.is_none() && self.has_calm()
    }

    /// Whether this is known of what the lane speaks.
    fn has_calm(&self) -> bool
        ensures { result ≡ true → IsCalmProtocol self.now.protocol }
    {
        match &self.protocol {
            Protocol::Http(http_state) => http_state.is_idle(),
            Protocol::Response(_) => false,
            Protocol::Socket(websocket_state) => websocket_state.is_idle(),
        }
    }

    /// Reads the wire, if nothing else is known to be done before more bytes come, and the lane isn't overdue.
    pub fn read_first<W: Wires>(&self, wires: &mut W, buf: &mut [u8], now: u64) -> FirstRead
        requires { length buf.old ≡ PIECE }
        ensures in_time { result ≡ FirstRead.NothingRead → is_overdue now self.now ≡ false }
        ensures reads_first { (answers : List Answer) × Tells (W.trace wires.old) (W.trace wires.new) answers
            × ReadsFirst self.now answers buf.new result }
        ensures count { IsWithin result }
        ensures wires { W.wires wires.new ≡ W.wires wires.old }
    {
        if !self.is_idle() || self.is_overdue(now) {
            return FirstRead::Unread;
        }
        match read_piece(wires, self.wire, buf) {
            Some(0) => FirstRead::NothingRead,
            read => FirstRead::Read(read),
        }
    }

    /// One turn, after this first look: the lane hears at most one event, and then writes what waits.
    pub fn turn<W: Wires>(
        &mut self,
        first_look: FirstRead,
        wires: &mut W,
        buf: &mut [u8],
        now: u64,
    ) -> Result<Option<Event>, AllocError>
        requires buffer { length buf.old ≡ PIECE }
        requires count { IsWithin first_look }
        ensures turned { IfOk result (λ heard. (first : List Answer) → ReadsFirst self.old first buf.old first_look
            → (answers : List Answer) × Tells (W.trace wires.old) (W.trace wires.new) answers × Listens now self.old self.new (first ++ answers) heard) }
        ensures halts { OnErr result ((first : List Answer) → ReadsFirst self.old first buf.old first_look
            → (answers : List Answer) × Tells (W.trace wires.old) (W.trace wires.new) answers × Halts self.old self.new (first ++ answers)) }
        ensures wires { W.wires wires.new ≡ W.wires wires.old }
        ensures lane { self.new.wire ≡ self.old.wire }
    {
        match self.stage {
            Stage::Live => self.turn_live(first_look, wires, buf, now),
            Stage::Lost => Ok(Some(self.tell_loss())),
            Stage::Closing => {
                self.say(wires, now);
                Ok(None)
            }
            Stage::Over => Ok(None),
        }
    }

    /// The turn of a live lane: one that was full and has drained, or has stalled, says so and hears nothing else.
    fn turn_live<W: Wires>(
        &mut self,
        first_look: FirstRead,
        wires: &mut W,
        buf: &mut [u8],
        now: u64,
    ) -> Result<Option<Event>, AllocError>
        requires buffer { length buf.old ≡ PIECE }
        requires count { IsWithin first_look }
        requires live { self.old.stage ≡ Stage.Live }
        ensures turned { IfOk result (λ heard. (first : List Answer) → ReadsFirst self.old first buf.old first_look
            → (answers : List Answer) × Tells (W.trace wires.old) (W.trace wires.new) answers × TurnsByFullness now self.old self.new (first ++ answers) heard) }
        ensures halts { OnErr result ((first : List Answer) → ReadsFirst self.old first buf.old first_look
            → (answers : List Answer) × Tells (W.trace wires.old) (W.trace wires.new) answers × Halts self.old self.new (first ++ answers)) }
        ensures wires { W.wires wires.new ≡ W.wires wires.old }
        ensures lane { self.new.wire ≡ self.old.wire }
    {
        if self.is_drained() {
            return Ok(Some(self.drain(wires, now)));
        }
        if self.is_stalled() {
            return Ok(Some(self.fall(wires)));
        }
        let heard = self.turn_on(first_look, wires, buf, now)?;
        self.note_turn(now);
        Ok(heard)
    }

    /// The lane isn't full any more, which is heard, and what is left is written.
    fn drain<W: Wires>(&mut self, wires: &mut W, now: u64) -> Event
        ensures drained { (answers : List Answer) × Tells (W.trace wires.old) (W.trace wires.new) answers
            × Drains now self.old self.new answers (Some result) }
        ensures wires { W.wires wires.new ≡ W.wires wires.old }
        ensures lane { self.new.wire ≡ self.old.wire }
    {
        self.full = None;
        self.say(wires, now);
        Event::Drained { lane: self.wire }
    }

    /// Shuts the wire of a live lane, whose loss is heard now.
    fn fall<W: Wires>(&mut self, wires: &mut W) -> Event
        ensures fallen { (answers : List Answer) × Tells (W.trace wires.old) (W.trace wires.new) answers
            × Falls self.old self.new answers (Some result) }
        ensures wires { W.wires wires.new ≡ W.wires wires.old }
        ensures lane { self.new.wire ≡ self.old.wire }
    {
        self.end(wires);
        self.tell_loss()
    }

    /// What was written till now counts from now.
    fn note_turn(&mut self, now: u64)
        ensures { self.new ≡ after_turn now self.old }
    {
        self.full = full_after_turn(self.full, now);
    }

    /// The turn of a live lane that neither has drained nor has stalled.
    fn turn_on<W: Wires>(
        &mut self,
        first_look: FirstRead,
        wires: &mut W,
        buf: &mut [u8],
        now: u64,
    ) -> Result<Option<Event>, AllocError>
        requires buffer { length buf.old ≡ PIECE }
        requires count { IsWithin first_look }
        requires live { self.old.stage ≡ Stage.Live }
        ensures turned { IfOk result (λ heard. (first : List Answer) → ReadsFirst self.old first buf.old first_look
            → (answers : List Answer) × Tells (W.trace wires.old) (W.trace wires.new) answers × TurnsLive now self.old self.new (first ++ answers) heard) }
        ensures halts { OnErr result ((first : List Answer) → ReadsFirst self.old first buf.old first_look
            → (answers : List Answer) × Tells (W.trace wires.old) (W.trace wires.new) answers × Halts self.old self.new (first ++ answers)) }
        ensures wires { W.wires wires.new ≡ W.wires wires.old }
        ensures lane { self.new.wire ≡ self.old.wire }
    {
        let input = self.hear_on(first_look, wires, buf)?;
        self.say_continue()?;
        let event = self.take(wires, input, now)?;
        self.say(wires, now);
        Ok(self.heard(event))
    }

    /// Says that the body of a request may be sent, if that is waited for.
    fn say_continue(&mut self) -> Result<(), AllocError>
        ensures said { OnOk result (self.new ≡ after_hearing self.old.protocol self.old) }
        ensures due { OnErr result ((self.new ≡ self.old) × IsDue self.old.protocol) }
        ensures right { OnOk result ((input : Input) → IsRightInput self.old.protocol input → IsRightInput self.new.protocol input) }
        ensures lane { self.new.wire ≡ self.old.wire }
        ensures stage { self.new.stage ≡ self.old.stage }
    {
        match &mut self.protocol {
            Protocol::Http(http_state) => {
                put_continue(http_state.says_continue(), &mut self.out)?;
                http_state.note_continue();
                Ok(())
            }
            Protocol::Response(_) => Ok(()),
            Protocol::Socket(_) => Ok(()),
        }
    }

    /// Hears what there is after this first look.
    fn hear_on<W: Wires>(
        &mut self,
        first_look: FirstRead,
        wires: &mut W,
        buf: &mut [u8],
    ) -> Result<Input, AllocError>
        requires buffer { length buf.old ≡ PIECE }
        requires count { IsWithin first_look }
        ensures heard { IfOk result (λ input. (first : List Answer) → ReadsFirst self.old first buf.old first_look
            → (answers : List Answer) × Tells (W.trace wires.old) (W.trace wires.new) answers
            × Hears self.old.wire self.old.protocol self.new.protocol (first ++ answers) input) }
        ensures halts { OnErr result ((first : List Answer) → ReadsFirst self.old first buf.old first_look
            → (answers : List Answer) × Tells (W.trace wires.old) (W.trace wires.new) answers
            × HaltsIn self.old.wire self.old.protocol self.new.protocol (first ++ answers)) }
        ensures right { IfOk result (IsRightInput self.new.protocol) }
        ensures others_unchanged { self.new ≡ record self.old { protocol = self.new.protocol } }
        ensures wires { W.wires wires.new ≡ W.wires wires.old }
    {
        match first_look {
            FirstRead::Unread => self.hear(wires, buf),
            FirstRead::NothingRead => Ok(Input::Nothing),
            FirstRead::Read(read) => self.hear_after(read, buf),
        }
    }

    /// Hears what comes of this read.
    fn hear_after(&mut self, read: Option<usize>, buf: &[u8]) -> Result<Input, AllocError>
        requires buffer { length buf.now ≡ PIECE }
        requires count { IfSome read (λ count. count ≤ PIECE) }
        ensures heard { IfOk result (λ input. (first : List Answer) → ReadsFirst self.old first buf.now (FirstRead.Read read)
            → Hears self.old.wire self.old.protocol self.new.protocol first input) }
        ensures halts { OnErr result ((first : List Answer) → ReadsFirst self.old first buf.now (FirstRead.Read read)
            → HaltsIn self.old.wire self.old.protocol self.new.protocol first) }
        ensures right { IfOk result (IsRightInput self.new.protocol) }
        ensures others_unchanged { self.new ≡ record self.old { protocol = self.new.protocol } }
    {
        match &mut self.protocol {
            Protocol::Http(http_state) => http_state.hear_after(read, buf),
            Protocol::Response(_) => Ok(Input::Nothing),
            Protocol::Socket(websocket_state) => websocket_state.hear_after(read, buf),
        }
    }

    /// What is heard in the end: a lane whose wire was shut meanwhile is lost, if nothing else is heard of it.
    fn heard(&mut self, event: Option<Event>) -> Option<Event>
        ensures heard { Loses event self.old self.new result }
        ensures lane { self.new.wire ≡ self.old.wire }
    {
        match event {
            Some(event) => Some(event),
            None => self.loss(),
        }
    }

    fn loss(&mut self) -> Option<Event>
        ensures heard { LosesAt self.old.stage self.old self.new result }
        ensures lane { self.new.wire ≡ self.old.wire }
    {
        match self.stage {
            Stage::Live => None,
            Stage::Lost => Some(self.tell_loss()),
            Stage::Closing => None,
            Stage::Over => None,
        }
    }

    fn hear<W: Wires>(&mut self, wires: &mut W, buf: &mut [u8]) -> Result<Input, AllocError>
        requires { length buf.old ≡ PIECE }
        ensures heard { IfOk result (λ input. (answers : List Answer) × Tells (W.trace wires.old) (W.trace wires.new) answers
            × Hears self.old.wire self.old.protocol self.new.protocol answers input) }
        ensures halts { OnErr result ((answers : List Answer) × Tells (W.trace wires.old) (W.trace wires.new) answers
            × HaltsIn self.old.wire self.old.protocol self.new.protocol answers) }
        ensures others_unchanged { self.new ≡ record self.old { protocol = self.new.protocol } }
        ensures wires { W.wires wires.new ≡ W.wires wires.old }
    {
        match &mut self.protocol {
            Protocol::Http(http_state) => http_state.hear(wires, self.wire, buf),
            Protocol::Response(response_state) => response_state.hear(wires, self.wire, buf),
            Protocol::Socket(websocket_state) => websocket_state.hear(wires, self.wire, buf),
        }
    }

    /// What is heard of this input.
    fn take<W: Wires>(
        &mut self,
        wires: &mut W,
        input: Input,
        now: u64,
    ) -> Result<Option<Event>, AllocError>
        requires live { self.old.stage ≡ Stage.Live }
        requires right { IsRightInput self.old.protocol input }
        ensures settled { IfOk result (λ heard. (answers : List Answer) × Tells (W.trace wires.old) (W.trace wires.new) answers
            × Settles now self.old self.new answers input heard) }
        ensures lasts { OnErr result ((self.new ≡ self.old) × (W.trace wires.new ≡ W.trace wires.old) × IsLasting input) }
        ensures wires { W.wires wires.new ≡ W.wires wires.old }
        ensures lane { self.new.wire ≡ self.old.wire }
    {
        let lane = self.wire;
        match input {
            Input::Nothing => Ok(self.expire(wires, now)),
            Input::Request(request) => Ok(Some(Event::Request { lane, request })),
            Input::Refused(refusal) => {
                self.refuse(refusal, now)?;
                Ok(Some(Event::Refused { lane, refusal }))
            }
            Input::Response { status, body } => Ok(Some(Event::Response { lane, status, body })),
            Input::Upgraded => {
                self.open()?;
                Ok(Some(Event::Upgraded { lane }))
            }
            Input::Message(bytes) => Ok(Some(Event::Bytes { lane, bytes })),
            Input::Broken => Ok(Some(self.fall(wires))),
            Input::Gone => {
                self.part(now)?;
                Ok(Some(Event::Lost { lane }))
            }
        }
    }

    /// A lane that has waited for a request, or for its response, for too long is lost.
    fn expire<W: Wires>(&mut self, wires: &mut W, now: u64) -> Option<Event>
        requires { self.old.stage ≡ Stage.Live }
        ensures settled { (answers : List Answer) × Tells (W.trace wires.old) (W.trace wires.new) answers
            × Settles now self.old self.new answers Input.Nothing result }
        ensures wires { W.wires wires.new ≡ W.wires wires.old }
        ensures lane { self.new.wire ≡ self.old.wire }
    {
        if !self.is_overdue(now) {
            return None;
        }
        Some(self.fall(wires))
    }

    fn is_overdue(&self, now: u64) -> bool
        ensures { result ≡ is_overdue now self.now }
    {
        match &self.protocol {
            Protocol::Http(http_state) => !http_state.is_busy()
                && now.saturating_sub(self.since) >= MOST_WAIT,
            Protocol::Response(response_state) => !response_state.is_concluded()
                && now.saturating_sub(self.since) >= MOST_WAIT,
            Protocol::Socket(_) => false,
        }
    }

    /// Replies that what came is no request. The lane is heard no more.
    fn refuse(&mut self, refusal: Refusal, now: u64) -> Result<(), AllocError>
        requires { IsReply (refusal_of refusal) }
        ensures refused { OnOk result (self.new ≡ record self.old {
          since = now;
          out = self.old.out ++ reply_text (refusal_of refusal);
          stage = Stage.Closing;
        }) }
        ensures err { OnErr result (self.new ≡ self.old) }
        ensures lane { self.new.wire ≡ self.old.wire }
    {
        write_reply(&refusal_reply(self.alloc, refusal), &mut self.out)?;
        self.close(now);
        Ok(())
    }

    /// The response accepted the upgrade that was asked for: the lane is a WebSocket, whose bytes are those that came after it.
    fn open(&mut self) -> Result<(), AllocError>
        ensures ok { OnOk result (self.new ≡ record self.old { protocol = protocol_after_upgrade self.old.protocol }) }
        ensures err { OnErr result (self.new ≡ self.old) }
    {
        let Protocol::Response(response_state) = &self.protocol else {
            return Ok(());
        };
        let Some(seed) = response_state.seed() else {
            return Ok(());
        };
        let side = SocketSide::Client { seed };
        let websocket_state = WebSocketState::start(self.alloc, side, response_state.rest())?;
        self.protocol = Protocol::Socket(websocket_state);
        Ok(())
    }

    /// Says that the WebSocket ends. The lane is heard no more.
    fn part(&mut self, now: u64) -> Result<(), AllocError>
        ensures err { OnErr result (self.new ≡ self.old) }
        ensures ok { OnOk result (self.new ≡ record self.old {
          since = now;
          protocol = protocol_after_shut self.old.protocol;
          stage = Stage.Closing;
        }) }
    {
        if let Protocol::Socket(websocket_state) = &mut self.protocol {
            websocket_state.shut()?;
        }
        self.close(now);
        Ok(())
    }

    /// The lane is heard no more from now on.
    fn close(&mut self, now: u64)
        ensures { self.new ≡ record self.old { since = now; stage = Stage.Closing } }
    {
        self.stage = Stage::Closing;
        self.since = now;
    }

    /// The loss is heard now.
    fn tell_loss(&mut self) -> Event
        ensures heard { result ≡ Event.Lost self.old.wire }
        ensures over { self.new ≡ record self.old { stage = Stage.Over } }
    {
        self.stage = Stage::Over;
        Event::Lost { lane: self.wire }
    }

    /// Shuts the wire, and what waits is dropped. A lane that was heard until now is lost.
    fn end<W: Wires>(&mut self, wires: &mut W)
        ensures shut { Tells (W.trace wires.old) (W.trace wires.new) (was_shut self.old.wire ∷ []) }
        ensures ended { self.new ≡ record self.old { stage = after_end self.old.stage } }
        ensures wires { W.wires wires.new ≡ W.wires wires.old }
        ensures faults { W.faults wires.old ≤ W.faults wires.new }
    {
        wires.shut(self.wire);
        self.stage = match self.stage {
            Stage::Live => Stage::Lost,
            Stage::Lost => Stage::Lost,
            Stage::Closing => Stage::Over,
            Stage::Over => Stage::Over,
        };
    }

    /// Writes what waits, as far as the wire takes it. The lane ends if the wire fails, if too much still waits, and if the lane only
    /// waited for this, or has done so for too long: then nothing is written.
    pub fn say<W: Wires>(&mut self, wires: &mut W, now: u64)
        ensures said { (answers : List Answer) × Tells (W.trace wires.old) (W.trace wires.new) answers × Says now self.old self.new answers }
        ensures wires { W.wires wires.new ≡ W.wires wires.old }
        ensures lane { self.new.wire ≡ self.old.wire }
    {
        match self.stage {
            Stage::Live => self.write_out(wires),
            Stage::Lost => {}
            Stage::Closing => self.drop_or_write(wires, self.has_closed_long(now)),
            Stage::Over => {}
        }
    }

    /// The same in a call in which another lane was heard: what waits on a live lane still does.
    pub fn say_if_ended<W: Wires>(&mut self, wires: &mut W, now: u64)
        ensures said { (answers : List Answer) × Tells (W.trace wires.old) (W.trace wires.new) answers × SaysIfEnded now self.old self.new answers }
        ensures wires { W.wires wires.new ≡ W.wires wires.old }
        ensures lane { self.new.wire ≡ self.old.wire }
    {
        if self.stage == Stage::Closing {
            self.say(wires, now);
        }
    }

    /// A live lane writes what waits.
    pub fn write_if_live<W: Wires>(&mut self, wires: &mut W)
        ensures written { (answers : List Answer) × Tells (W.trace wires.old) (W.trace wires.new) answers × WritesIfLive self.old self.new answers }
        ensures wires { W.wires wires.new ≡ W.wires wires.old }
        ensures faults { W.faults wires.old ≤ W.faults wires.new }
        ensures lane { self.new.wire ≡ self.old.wire }
    {
        if self.stage == Stage::Live {
            self.write_out(wires);
        }
    }

    /// Whether a lane that closes has had its time.
    fn has_closed_long(&self, now: u64) -> bool
        ensures { result ≡ has_closed_long now self.now.since }
    {
        now.saturating_sub(self.since) >= MOST_CLOSING
    }

    /// Shuts the wire, so that what waits is dropped, or writes what waits.
    fn drop_or_write<W: Wires>(&mut self, wires: &mut W, is_dropped: bool)
        ensures said { (answers : List Answer) × Tells (W.trace wires.old) (W.trace wires.new) answers × DropsOrWrites is_dropped self.old self.new answers }
        ensures wires { W.wires wires.new ≡ W.wires wires.old }
        ensures lane { self.new.wire ≡ self.old.wire }
    {
        if is_dropped {
            self.end(wires);
        } else {
            self.write_out(wires);
        }
    }

    fn write_out<W: Wires>(&mut self, wires: &mut W)
        ensures said { (answers : List Answer) × Tells (W.trace wires.old) (W.trace wires.new) answers × WritesOut self.old self.new answers }
        ensures wires { W.wires wires.new ≡ W.wires wires.old }
        ensures faults { W.faults wires.old ≤ W.faults wires.new }
        ensures lane { self.new.wire ≡ self.old.wire }
    {
        let waited = self.unwritten();
        let is_whole = self.write(wires);
        let unwritten = self.unwritten();
        self.note_write(unwritten < waited);
        if must_end(self.stage, unwritten, is_whole) {
            self.end(wires);
        }
    }

    /// A write took something, or nothing.
    fn note_write(&mut self, has_written: bool)
        ensures { self.new ≡ record self.old { full = full_after_write has_written self.old.full } }
    {
        self.full = full_after_write(self.full, has_written);
    }

    /// Writes what waits. The answer is false if the wire failed.
    fn write<W: Wires>(&mut self, wires: &mut W) -> bool
        ensures written { (answers : List Answer) × Tells (W.trace wires.old) (W.trace wires.new) answers
            × Writes self.old.wire (waits self.old) answers (waits self.new) result }
        ensures others_unchanged { IsLaneStill self.old self.new }
        ensures stage { self.new.stage ≡ self.old.stage }
        ensures full { self.new.full ≡ self.old.full }
        ensures wires { W.wires wires.new ≡ W.wires wires.old }
        ensures faults { W.faults wires.old ≤ W.faults wires.new }
    {
        if !write_bytes(wires, self.wire, &mut self.out) {
            return false;
        }
        if !self.out.is_empty() {
            return true;
        }
        self.write_frames(wires)
    }

    /// Writes what a WebSocket has to write. The answer is false if the wire failed.
    fn write_frames<W: Wires>(&mut self, wires: &mut W) -> bool
        ensures written { (answers : List Answer) × Tells (W.trace wires.old) (W.trace wires.new) answers
            × Writes self.old.wire (frames_of self.old.protocol) answers (frames_of self.new.protocol) result }
        ensures protocol { SpeaksAs self.old.protocol self.new.protocol }
        ensures others_unchanged { self.new ≡ record self.old { protocol = self.new.protocol } }
        ensures wires { W.wires wires.new ≡ W.wires wires.old }
        ensures faults { W.faults wires.old ≤ W.faults wires.new }
    {
        match &mut self.protocol {
            Protocol::Http(_) => true,
            Protocol::Response(_) => true,
            Protocol::Socket(websocket_state) => websocket_state.write(wires, self.wire),
        }
    }

    /// After something more waits: if that is too much, the lane ends, and nothing of it is written.
    fn say_more<W: Wires>(&mut self, wires: &mut W)
        ensures said { (answers : List Answer) × Tells (W.trace wires.old) (W.trace wires.new) answers × SaysMore self.old self.new answers }
        ensures wires { W.wires wires.new ≡ W.wires wires.old }
        ensures lane { self.new.wire ≡ self.old.wire }
    {
        let is_dropped = self.unwritten() > MOST_UNWRITTEN;
        self.drop_or_write(wires, is_dropped);
    }

    /// Replies to the request that waits, if one does.
    pub fn reply<W: Wires>(
        &mut self,
        wires: &mut W,
        reply: &Reply,
        now: u64,
    ) -> Result<(), AllocError>
        requires { IsReply reply.now }
        ensures replied { OnOk result ((answers : List Answer) × Tells (W.trace wires.old) (W.trace wires.new) answers
            × Replies now reply.now self.old self.new answers) }
        ensures unchanged { OnErr result ((self.new ≡ self.old) × (W.trace wires.new ≡ W.trace wires.old)) }
        ensures wires { W.wires wires.new ≡ W.wires wires.old }
        ensures lane { self.new.wire ≡ self.old.wire }
    {
        if !self.owes() {
            return Ok(());
        }
        if reply.status == SWITCHING {
            self.upgrade(reply)?;
        } else {
            self.answer(reply, now)?;
        }
        self.say_more(wires);
        Ok(())
    }

    /// Whether a request waits for its reply.
    fn owes(&self) -> bool
        ensures { result ≡ owes self.now }
    {
        match &self.protocol {
            Protocol::Http(http_state) => self.stage == Stage::Live && http_state.is_busy(),
            Protocol::Response(_) => false,
            Protocol::Socket(_) => false,
        }
    }

    fn answer(&mut self, reply: &Reply, now: u64) -> Result<(), AllocError>
        requires { IsReply reply.now }
        ensures ok { OnOk result (self.new ≡ record self.old {
          protocol = protocol_after_reply self.old.protocol;
          out = self.old.out ++ reply_text reply.now;
          since = now;
        }) }
        ensures err { OnErr result (self.new ≡ self.old) }
    {
        write_reply(reply, &mut self.out)?;
        if let Protocol::Http(http_state) = &mut self.protocol {
            http_state.go_on();
        }
        self.since = now;
        Ok(())
    }

    /// The lane is a WebSocket from the end of this reply on, whose bytes are those that came after the request.
    fn upgrade(&mut self, reply: &Reply) -> Result<(), AllocError>
        requires { IsReply reply.now }
        ensures ok { OnOk result (self.new ≡ record self.old {
          protocol = new_socket (rest_of self.old.protocol);
          out = self.old.out ++ reply_text reply.now;
        }) }
        ensures err { OnErr result (self.new ≡ self.old) }
    {
        let websocket_state = WebSocketState::start(self.alloc, SocketSide::Server, self.rest())?;
        write_reply(reply, &mut self.out)?;
        self.protocol = Protocol::Socket(websocket_state);
        Ok(())
    }

    /// The bytes that were read and belong to no request.
    fn rest(&self) -> &[u8]
        ensures { result.now ≡ rest_of self.now.protocol }
    {
        match &self.protocol {
            Protocol::Http(http_state) => http_state.rest(),
            Protocol::Response(_) => &[],
            Protocol::Socket(_) => &[],
        }
    }

    /// Sends a message, if the lane is a WebSocket that can. The answer is whether the lane is full now.
    pub fn send<W: Wires>(
        &mut self,
        wires: &mut W,
        bytes: &[u8],
        text: bool,
        now: u64,
    ) -> Result<bool, AllocError>
        ensures sent { OnOk result ((answers : List Answer) × Tells (W.trace wires.old) (W.trace wires.new) answers
            × Sends now bytes.now text self.old self.new answers) }
        ensures answer { IfOk result (λ full. full ≡ is_full self.new) }
        ensures unchanged { OnErr result ((self.new ≡ self.old) × (W.trace wires.new ≡ W.trace wires.old)) }
        ensures wires { W.wires wires.new ≡ W.wires wires.old }
        ensures lane { self.new.wire ≡ self.old.wire }
    {
        if self.put(bytes, text)? {
            self.gather_or_say(wires);
            self.note_message(now);
        }
        Ok(self.is_full())
    }

    /// After a message or an ask more waits: nothing is written yet if that is little, so that it goes out with what is said later.
    pub fn gather_or_say<W: Wires>(&mut self, wires: &mut W)
        ensures said { (answers : List Answer) × Tells (W.trace wires.old) (W.trace wires.new) answers × GathersOrSays self.old self.new answers }
        ensures wires { W.wires wires.new ≡ W.wires wires.old }
        ensures lane { self.new.wire ≡ self.old.wire }
    {
        if self.unwritten() >= MOST_GATHERED_BYTES {
            self.say_more(wires);
        }
    }

    /// A message was added, and written as far as the wire took it unless it is gathered.
    fn note_message(&mut self, now: u64)
        ensures { self.new ≡ after_message now self.old }
    {
        self.full = full_after_message(self.full, self.unwritten(), now);
    }

    /// Adds a message to what waits, if the lane is a WebSocket that can send it. The answer is whether it was.
    fn put(&mut self, bytes: &[u8], text: bool) -> Result<bool, AllocError>
        ensures put { IfOk result (Puts bytes.now text self.old self.new) }
        ensures err { OnErr result (self.new ≡ self.old) }
        ensures lane { self.new.wire ≡ self.old.wire }
    {
        if self.stage != Stage::Live {
            return Ok(false);
        }
        match &mut self.protocol {
            Protocol::Http(_) => Ok(false),
            Protocol::Response(_) => Ok(false),
            Protocol::Socket(websocket_state) => websocket_state.send(bytes, text),
        }
    }

    /// Ends the lane, once what waits is written.
    pub fn shut<W: Wires>(&mut self, wires: &mut W, now: u64) -> Result<(), AllocError>
        ensures shut { OnOk result ((answers : List Answer) × Tells (W.trace wires.old) (W.trace wires.new) answers
            × Shuts now self.old self.new answers) }
        ensures unchanged { OnErr result ((self.new ≡ self.old) × (W.trace wires.new ≡ W.trace wires.old)) }
        ensures wires { W.wires wires.new ≡ W.wires wires.old }
        ensures lane { self.new.wire ≡ self.old.wire }
    {
        if self.stage != Stage::Live {
            return Ok(());
        }
        self.part(now)?;
        self.write_out(wires);
        Ok(())
    }
}
