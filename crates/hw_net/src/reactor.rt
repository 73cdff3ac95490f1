//! What a door and a dialer share: their lanes, the wires that these stand on, and one search of them after the other.

ghost use Rattle.std.specs.Prelude.{◌≡◌, ◌≤◌, ◌+◌, ◌++◌, ◌∷◌, [], ℕ, List, Option, Some, Err, false, IfOk, IfErr, OnOk, OnErr, length, max, option_to_list};
ghost use Rattle.std.specs.List.{list_any};
ghost use Rattle.hd_facts.specs.Counts.{Rose};
ghost use Rattle.hw_lanes.specs.Replies.{IsReply};
ghost use Rattle.hw_door.specs.Calls.{HasFaultCause, IsCaused};
ghost use Rattle.hw_door.specs.Traffic.{Answer, polled, poll_failed, accepted, accept_failed, was_shut, IsNewWire};
ghost use Rattle.hw_net.specs.Bounds.{is_unwritten};
ghost use Rattle.hw_net.specs.Chains.{is_there};
ghost use Rattle.hw_net.specs.Dialer.{Dials, IsCutShort, WritesLong, with_dialed};
ghost use Rattle.hw_net.specs.Door.{Searches, IsNumbered, DoesAt, HearsTurns, Begins, state_of, kept, time_to_wait, is_full_at, lane_of, with_accepted, next_from, from_after};
ghost use Rattle.hw_net.specs.Flushing.{FlushesDoor, Gathers};
ghost use Rattle.hw_net.specs.Halting.{HaltsAll};
ghost use Rattle.hw_net.specs.Lane.{wires_of};
ghost use Rattle.hw_net.specs.Rising.{IsRising};
ghost use Rattle.hw_net.specs.Trace.{Tells};
ghost use Rattle.hw_net.specs.Turn.{Replies, Sends, Shuts};

use crate::lane::NetLane;
use crate::lanes::Lanes;
use crate::limits::{MOST_GATHERED, MOST_GATHERED_BYTES, MOST_NAMED, PIECE};
use crate::turns::turn_from;
use hw_door::{DoorError, Event, Upgrade, Wires};
use hw_lanes::Reply;
use std::alloc::{AllocError, Global};
use std::marker::Model;

/// The lanes of a door or a dialer, and the wires that they stand on.
///
/// Each search gives the lanes their turns until one hears something, from the one on whose turn it is: the first after the one that was
/// heard last so. If the wires name one that is ready, the turns begin there, though at most [`MOST_NAMED`] times in a row, so that each
/// lane listens, whatever they name ([`lanes_are_reached`](crate::lanes_are_reached)). A search that hears nothing begins that count anew, as each
/// lane listened in it or rests. Lanes that rest aren't asked while the wires tell that none of them has anything to give.
#[derive(Drop)]
pub struct Reactor<W: Wires + Drop> {
    alloc: Global,
    wires: W,
    lanes: Lanes,
    // The lanes from this number on come first in the next search that begins with none that was named.
    from: u64,
    // How many searches in a row began with a lane that was named, since one heard nothing.
    named: u64,
    // The wire that was heard last, or, if nothing was, the one with which a search began that was named. 0 before both.
    last_wire: u64,
    moment: u64,
    faults: u64,
    // How many calls of `next` in a row didn't flush before they heard.
    gathering: u64,
    // A message was sent since the last flush.
    has_sent: bool,
    // What wires are read into, kept because a new one would have to be cleared in each search.
    buf: [u8; PIECE],
}

// The numbers of the lanes rise, and the wires answer no number again, so a lane is found by its number in few steps.
impl<W: Wires + Drop> Model for Reactor<W> {
    ghost use Rattle.std.specs.Prelude.{◌<◌};
    ghost use Rattle.hw_net.specs.declared.limits.TheConstants.{MOST_GATHERED};
    ghost use Rattle.hw_net.specs.Lane.{wires_of};
    ghost use Rattle.hw_net.specs.Parts.{ReactorParts};
    ghost use Rattle.hw_net.specs.Rising.{IsRising};

    ghost Value = { ReactorParts W };

    ghost view = { λ r. record {
      wires = r.wires;
      lanes = r.lanes;
      from = r.from;
      named = r.named;
      moment = r.moment;
      faults = r.faults;
      gathering = r.gathering;
    } };

    ghost invariant = { λ r. IsRising 0 (W.wires r.wires) (wires_of r.lanes.items) × (r.gathering < MOST_GATHERED) };
}

impl<W: Wires + Drop> Reactor<W> {
    /// No lanes, over these wires. It takes no memory yet.
    pub fn start(alloc: Global, wires: W) -> Reactor<W>
        ensures state { state_of result ≡ record { lanes = []; from = 0; named = 0; moment = 0 } }
        ensures wires { result.wires ≡ wires }
        ensures faults { result.faults ≡ 0 }
        ensures gathering { result.gathering ≡ 0 }
    {
        Reactor {
            alloc,
            wires,
            lanes: Lanes::start(alloc),
            from: 0,
            named: 0,
            last_wire: 0,
            moment: 0,
            faults: 0,
            gathering: 0,
            has_sent: false,
            buf: [0; PIECE],
        }
    }

    /// Lends the wires.
    pub fn wires(&self) -> &W
        ensures { result.now ≡ self.now.wires }
    {
        &self.wires
    }

    /// Fails this call.
    fn fail(&mut self) -> DoorError
        ensures failed { result ≡ DoorError.Failed }
        ensures cause { IsCaused self.old.faults self.new.faults result }
        ensures others_unchanged { self.new ≡ record self.old { faults = self.new.faults } }
    {
        self.faults = self.faults.saturating_add(1);
        DoorError::Failed
    }

    /// Forgets the lanes that are over.
    pub fn clear(&mut self)
        ensures unchanged { self.new.lanes.items ≡ kept self.old.lanes.items }
        ensures wires { self.new.wires ≡ self.old.wires }
        ensures from { self.new.from ≡ self.old.from }
        ensures named { self.new.named ≡ self.old.named }
        ensures moment { self.new.moment ≡ self.old.moment }
        ensures faults { self.new.faults ≡ self.old.faults }
        ensures gathering { self.new.gathering ≡ self.old.gathering }
    {
        self.lanes.clear();
    }

    /// How long the wires may wait: not at all if something may be heard at once.
    fn wait_for(&self, wait: u64) -> u64
        ensures { result ≡ time_to_wait wait self.now.lanes.items }
    {
        if self.lanes.has_awake() { 0 } else { wait }
    }

    /// Waits for something to come, and answers the moment then.
    pub fn poll(&mut self, wait: u64) -> Result<u64, DoorError>
        ensures polled { IfOk result (λ now. (moment : ℕ) × Tells (W.trace self.old.wires) (W.trace self.new.wires) (polled (time_to_wait wait self.old.lanes.items) moment ∷ []) × (now ≡ max moment self.old.moment)) }
        ensures failed { IfErr result (λ e. (e ≡ DoorError.Failed) × Rose (W.faults self.old.wires) (W.faults self.new.wires)
            × Tells (W.trace self.old.wires) (W.trace self.new.wires) (poll_failed (time_to_wait wait self.old.lanes.items) ∷ [])) }
        ensures unfailed { OnOk result (W.faults self.new.wires ≡ W.faults self.old.wires) }
        ensures others_unchanged { self.new ≡ record self.old { wires = self.new.wires; faults = self.new.faults } }
        ensures cause { HasFaultCause self.old.faults self.new.faults result }
        ensures bound { W.wires self.new.wires ≡ W.wires self.old.wires }
    {
        let wait = self.wait_for(wait);
        match self.wires.poll(wait) {
            Ok(now) => Ok(now.max(self.moment)),
            Err(_) => Err(self.fail()),
        }
    }

    /// Takes the connection that came, if one did.
    pub fn accept(&mut self, now: u64) -> Result<(), DoorError>
        ensures accepted { OnOk result ((wire : Option ℕ) × Tells (W.trace self.old.wires) (W.trace self.new.wires) (accepted wire ∷ [])
            × (self.new.lanes.items ≡ with_accepted now wire self.old.lanes.items) × IsNumbered (W.wires self.old.wires) (W.wires self.new.wires) wire) }
        ensures failed { result ≡ Err DoorError.Failed → Rose (W.faults self.old.wires) (W.faults self.new.wires)
            × Tells (W.trace self.old.wires) (W.trace self.new.wires) (accept_failed ∷ []) }
        ensures told { result ≡ Err DoorError.NoMemory → (wire : ℕ) × Tells (W.trace self.old.wires) (W.trace self.new.wires) (accepted (Some wire) ∷ was_shut wire ∷ []) }
        ensures from { self.new.from ≡ self.old.from }
        ensures named { self.new.named ≡ self.old.named }
        ensures moment { self.new.moment ≡ self.old.moment }
        ensures gathering { self.new.gathering ≡ self.old.gathering }
        ensures cause { HasFaultCause self.old.faults self.new.faults result }
        ensures lanes { IfErr result (λ e. self.new.lanes.items ≡ self.old.lanes.items) }
        ensures bound { W.wires self.old.wires ≤ W.wires self.new.wires }
    {
        match self.wires.accept() {
            Ok(Some(wire)) => self.add_accepted(wire, now),
            Ok(None) => Ok(()),
            Err(_) => Err(self.fail()),
        }
    }

    /// Adds the lane of a wire that was accepted, whose number is higher than those of the others. If memory is out, the wire is shut.
    fn add_accepted(&mut self, wire: u64, now: u64) -> Result<(), DoorError>
        requires later { IsRising 0 wire (wires_of self.old.lanes.items) }
        requires bound { wire + 1 ≤ W.wires self.old.wires }
        ensures added { OnOk result ((self.new.lanes.items ≡ with_accepted now (Some wire) self.old.lanes.items)
            × (self.new.wires ≡ self.old.wires)) }
        ensures memory { IfErr result (λ e. e ≡ DoorError.NoMemory) }
        ensures told { OnErr result (Tells (W.trace self.old.wires) (W.trace self.new.wires) (was_shut wire ∷ [])) }
        ensures from { self.new.from ≡ self.old.from }
        ensures named { self.new.named ≡ self.old.named }
        ensures moment { self.new.moment ≡ self.old.moment }
        ensures faults { self.new.faults ≡ self.old.faults }
        ensures gathering { self.new.gathering ≡ self.old.gathering }
        ensures lanes { IfErr result (λ e. self.new.lanes.items ≡ self.old.lanes.items) }
        ensures bound { W.wires self.new.wires ≡ W.wires self.old.wires }
    {
        match NetLane::start(self.alloc, wire, now) {
            Ok(lane) => self.add(lane),
            Err(_) => Err(self.turn_away(wire)),
        }
    }

    /// Adds a lane, whose number is higher than those of the others. If memory is out, its wire is shut.
    fn add(&mut self, lane: NetLane) -> Result<(), DoorError>
        requires later { IsRising 0 lane.wire (wires_of self.old.lanes.items) }
        requires bound { lane.wire + 1 ≤ W.wires self.old.wires }
        ensures added { OnOk result ((self.new.lanes.items ≡ self.old.lanes.items ++ lane ∷ [])
            × (self.new.wires ≡ self.old.wires)) }
        ensures memory { IfErr result (λ e. e ≡ DoorError.NoMemory) }
        ensures told { OnErr result (Tells (W.trace self.old.wires) (W.trace self.new.wires) (was_shut lane.wire ∷ [])) }
        ensures from { self.new.from ≡ self.old.from }
        ensures named { self.new.named ≡ self.old.named }
        ensures moment { self.new.moment ≡ self.old.moment }
        ensures faults { self.new.faults ≡ self.old.faults }
        ensures gathering { self.new.gathering ≡ self.old.gathering }
        ensures lanes { IfErr result (λ e. self.new.lanes.items ≡ self.old.lanes.items) }
        ensures bound { W.wires self.new.wires ≡ W.wires self.old.wires }
    {
        let wire = lane.wire();
        match self.lanes.add(lane) {
            Ok(()) => Ok(()),
            Err(_) => Err(self.turn_away(wire)),
        }
    }

    /// Shuts the wire of a lane for which memory is out.
    fn turn_away(&mut self, wire: u64) -> DoorError
        ensures memory { result ≡ DoorError.NoMemory }
        ensures told { Tells (W.trace self.old.wires) (W.trace self.new.wires) (was_shut wire ∷ []) }
        ensures others_unchanged { self.new ≡ record self.old { wires = self.new.wires } }
        ensures bound { W.wires self.new.wires ≡ W.wires self.old.wires }
    {
        self.wires.shut(wire);
        DoorError::NoMemory
    }

    /// The number from which on the lanes come first now: that of a wire which is named, if one is, but for one search after so many.
    fn begin(&mut self) -> u64
        ensures begins { Begins (state_of self.old) result self.new.named }
        ensures others_unchanged { self.new ≡ record self.old { named = self.new.named } }
    {
        if self.named < MOST_NAMED
            && let Some(wire) = self.wires.ready_after(self.last_wire)
        {
            self.named += 1;
            self.last_wire = wire;
            return wire;
        }
        self.named = 0;
        self.from
    }

    /// What is remembered of this event: the wires are asked for a name after the lane that was heard, and it comes last, if it was come upon in the
    /// order of all.
    fn remember(&mut self, event: &Event)
        ensures { self.new ≡ record self.old { from = from_after self.old.named self.old.from (Some event.now) } }
    {
        self.last_wire = lane_of(event);
        if self.named == 0 {
            self.from = next_lane(event);
        }
    }

    /// A turn of each lane, from the one whose turn it is, or from a named one, unless all rest.
    pub fn hear(&mut self, now: u64) -> Result<Event, AllocError>
        ensures hears { IfOk result (λ event. (answers : List Answer) × Tells (W.trace self.old.wires) (W.trace self.new.wires) answers
            × HearsTurns now (state_of self.old) (state_of self.new) answers event) }
        ensures halts { OnErr result ((begin : ℕ) × Begins (state_of self.old) begin self.new.named × ((answers : List Answer)
            × Tells (W.trace self.old.wires) (W.trace self.new.wires) answers × HaltsAll now begin self.old.lanes.items self.new.lanes.items answers)) }
        ensures from { OnErr result (self.new.from ≡ self.old.from) }
        ensures moment { self.new.moment ≡ self.old.moment }
        ensures faults { self.new.faults ≡ self.old.faults }
        ensures gathering { self.new.gathering ≡ self.old.gathering }
        ensures lanes { wires_of self.new.lanes.items ≡ wires_of self.old.lanes.items }
        ensures bound { W.wires self.new.wires ≡ W.wires self.old.wires }
    {
        let begin = self.begin();
        let Some(event) = self.turn_from(begin, now)? else {
            self.named = 0;
            self.lanes.renew_due(now);
            return Ok(Event::Quiet);
        };
        self.remember(&event);
        Ok(event)
    }

    /// A turn of each lane, those from this number on first.
    fn turn_from(&mut self, begin: u64, now: u64) -> Result<Option<Event>, AllocError>
        ensures hears { IfOk result (λ trace. (answers : List Answer) × Tells (W.trace self.old.wires) (W.trace self.new.wires) answers
            × Searches now begin self.old.lanes.items self.new.lanes.items answers trace) }
        ensures halts { OnErr result ((answers : List Answer) × Tells (W.trace self.old.wires) (W.trace self.new.wires) answers
            × HaltsAll now begin self.old.lanes.items self.new.lanes.items answers) }
        ensures others_unchanged { self.new ≡ record self.old { wires = self.new.wires; lanes = self.new.lanes } }
        ensures lanes { wires_of self.new.lanes.items ≡ wires_of self.old.lanes.items }
        ensures bound { W.wires self.new.wires ≡ W.wires self.old.wires }
    {
        turn_from(&mut self.lanes, begin, &mut self.wires, &mut self.buf, now)
    }

    /// Whether more may be sent at once: a message was since the last flush, and the wires name another one that is ready than was heard last. Most wires
    /// go on naming that one, as it may have more; if that counted, the reply to a lone message would be written a call late.
    fn expects_more(&self) -> bool {
        self.has_sent
            && match self.wires.ready_after(self.last_wire) {
                Some(wire) => wire != self.last_wire,
                None => false,
            }
    }

    /// What a call of `next` does first: what waits on live lanes goes on waiting while more may be sent at once, though not for too many calls, or
    /// all of it is written. The answer is how long the wires may wait then.
    pub fn gather(&mut self, wait: u64) -> u64
        ensures gathers { (answers : List Answer) × Tells (W.trace self.old.wires) (W.trace self.new.wires) answers
            × Gathers wait self.old.gathering (state_of self.old) (state_of self.new) answers self.new.gathering result }
        ensures faults { self.new.faults ≡ self.old.faults }
        ensures moment { self.new.moment ≡ self.old.moment }
        ensures lanes { wires_of (kept self.new.lanes.items) ≡ wires_of (kept self.old.lanes.items) }
        ensures numbers { wires_of self.new.lanes.items ≡ wires_of self.old.lanes.items }
        ensures bound { W.wires self.new.wires ≡ W.wires self.old.wires }
        ensures wire_faults { W.faults self.old.wires ≤ W.faults self.new.wires }
    {
        let goes_on = self.gathering + 1 < MOST_GATHERED
            && self.lanes.has_writers()
            && self.expects_more();
        if goes_on {
            self.gathering += 1;
            return 0;
        }
        self.write_gathered();
        wait
    }

    /// Writes all that waits on live lanes.
    pub fn write_gathered(&mut self)
        ensures flushed { (answers : List Answer) × Tells (W.trace self.old.wires) (W.trace self.new.wires) answers
            × FlushesDoor (state_of self.old) (state_of self.new) answers }
        ensures gathering { self.new.gathering ≡ 0 }
        ensures faults { self.new.faults ≡ self.old.faults }
        ensures moment { self.new.moment ≡ self.old.moment }
        ensures lanes { wires_of (kept self.new.lanes.items) ≡ wires_of (kept self.old.lanes.items) }
        ensures numbers { wires_of self.new.lanes.items ≡ wires_of self.old.lanes.items }
        ensures bound { W.wires self.new.wires ≡ W.wires self.old.wires }
        ensures wire_faults { W.faults self.old.wires ≤ W.faults self.new.wires }
    {
        self.lanes.flush(self.alloc, &mut self.wires);
        self.gathering = 0;
        self.has_sent = false;
    }

    /// Begins a connection, and adds the lane on which this is asked there, for this upgrade if one is given. The answer is its wire, or `None` if no connection
    /// could be begun. A long ask is written at once, as far as the wire takes it. If memory is out, the wire is shut.
    pub fn dial(
        &mut self,
        host: &str,
        port: u16,
        ask: Vec<u8>,
        upgrade: Option<Upgrade>,
    ) -> Result<Option<u64>, DoorError>
        ensures dialed { IfOk result (λ wire. (answers : List Answer) × Tells (W.trace self.old.wires) (W.trace self.new.wires) answers
            × Dials ask.items upgrade wire (state_of self.old) (state_of self.new) answers) }
        ensures fresh { IfOk result (λ wire. IsNewWire (W.wires self.old.wires) (W.wires self.new.wires) wire) }
        ensures lanes { IfOk result (λ wire. wires_of self.new.lanes.items ≡ wires_of self.old.lanes.items ++ option_to_list wire) }
        ensures memory { IfErr result (λ e. e ≡ DoorError.NoMemory) }
        ensures halts { OnErr result ((answers : List Answer) × Tells (W.trace self.old.wires) (W.trace self.new.wires) answers
            × IsCutShort (W.wires self.old.wires) (W.wires self.new.wires) answers) }
        ensures unchanged { OnErr result (state_of self.new ≡ state_of self.old) }
        ensures faults { self.new.faults ≡ self.old.faults }
        ensures gathering { self.new.gathering ≡ self.old.gathering }
        ensures moment { self.new.moment ≡ self.old.moment }
        ensures bound { W.wires self.old.wires ≤ W.wires self.new.wires }
    {
        match self.wires.connect(host, port) {
            Ok(wire) => self.ask_on(wire, ask, upgrade),
            Err(_) => Ok(None),
        }
    }

    /// Adds the lane of a wire that was dialed, whose number is higher than those of the others, and writes a long ask there. If memory is out, the wire is shut.
    fn ask_on(
        &mut self,
        wire: u64,
        ask: Vec<u8>,
        upgrade: Option<Upgrade>,
    ) -> Result<Option<u64>, DoorError>
        requires later { IsRising 0 wire (wires_of self.old.lanes.items) }
        requires bound { wire + 1 ≤ W.wires self.old.wires }
        ensures answer { IfOk result (λ answer. answer ≡ Some wire) }
        ensures asked { OnOk result ((answers : List Answer) × Tells (W.trace self.old.wires) (W.trace self.new.wires) answers
            × WritesLong (length ask.items) (Some wire) (with_dialed self.old.moment ask.items upgrade (Some wire) self.old.lanes.items) self.new.lanes.items answers) }
        ensures lanes { OnOk result (wires_of self.new.lanes.items ≡ wires_of self.old.lanes.items ++ wire ∷ []) }
        ensures memory { IfErr result (λ e. e ≡ DoorError.NoMemory) }
        ensures told { OnErr result (Tells (W.trace self.old.wires) (W.trace self.new.wires) (was_shut wire ∷ [])) }
        ensures unchanged { OnErr result (self.new.lanes.items ≡ self.old.lanes.items) }
        ensures from { self.new.from ≡ self.old.from }
        ensures named { self.new.named ≡ self.old.named }
        ensures moment { self.new.moment ≡ self.old.moment }
        ensures faults { self.new.faults ≡ self.old.faults }
        ensures gathering { self.new.gathering ≡ self.old.gathering }
        ensures bound { W.wires self.new.wires ≡ W.wires self.old.wires }
    {
        let size = ask.len();
        self.add_dialed(wire, ask, upgrade)?;
        if size >= MOST_GATHERED_BYTES {
            self.lanes.write_at(wire, &mut self.wires);
        }
        Ok(Some(wire))
    }

    fn add_dialed(
        &mut self,
        wire: u64,
        ask: Vec<u8>,
        upgrade: Option<Upgrade>,
    ) -> Result<(), DoorError>
        requires later { IsRising 0 wire (wires_of self.old.lanes.items) }
        requires bound { wire + 1 ≤ W.wires self.old.wires }
        ensures added { OnOk result ((self.new.lanes.items ≡ with_dialed self.old.moment ask.items upgrade (Some wire) self.old.lanes.items)
            × (self.new.wires ≡ self.old.wires)) }
        ensures memory { IfErr result (λ e. e ≡ DoorError.NoMemory) }
        ensures told { OnErr result (Tells (W.trace self.old.wires) (W.trace self.new.wires) (was_shut wire ∷ [])) }
        ensures unchanged { OnErr result (self.new.lanes.items ≡ self.old.lanes.items) }
        ensures from { self.new.from ≡ self.old.from }
        ensures named { self.new.named ≡ self.old.named }
        ensures moment { self.new.moment ≡ self.old.moment }
        ensures faults { self.new.faults ≡ self.old.faults }
        ensures gathering { self.new.gathering ≡ self.old.gathering }
        ensures bound { W.wires self.new.wires ≡ W.wires self.old.wires }
    {
        match NetLane::dialed(self.alloc, wire, ask, upgrade, self.moment) {
            Ok(lane) => self.add(lane),
            Err(_) => Err(self.turn_away(wire)),
        }
    }

    /// Whether some lane is over, and will be forgotten.
    pub fn has_over(&self) -> bool
        ensures { result ≡ false → kept self.now.lanes.items ≡ self.now.lanes.items }
    {
        self.lanes.has_over()
    }

    /// Whether something waits to be written on some lane whose wire wasn't shut.
    pub fn has_unwritten(&self) -> bool
        ensures { result ≡ list_any is_unwritten self.now.lanes.items }
    {
        self.lanes.has_unwritten()
    }

    /// Whether there is a lane of this number.
    pub fn has_lane(&self, wire: u64) -> bool
        ensures { result ≡ is_there wire self.now.lanes.items }
    {
        self.lanes.index_of(wire).is_some()
    }

    /// The moment of what was heard last is this.
    pub fn advance(&mut self, now: u64)
        ensures { self.new ≡ record self.old { moment = now } }
    {
        self.moment = now;
    }

    /// Replies to the request that the lane of this number waits for, if it waits for one.
    pub fn reply(&mut self, lane: u64, reply: &Reply) -> Result<(), DoorError>
        requires { IsReply reply.now }
        ensures others_unchanged { self.new.moment ≡ self.old.moment }
        ensures gathering { self.new.gathering ≡ self.old.gathering }
        ensures cause { HasFaultCause self.old.faults self.new.faults result }
        ensures replied { OnOk result ((answers : List Answer) × Tells (W.trace self.old.wires) (W.trace self.new.wires) answers
            × DoesAt lane (Replies self.old.moment reply.now) (state_of self.old) (state_of self.new) answers) }
        ensures memory { IfErr result (λ e. e ≡ DoorError.NoMemory) }
        ensures bound { W.wires self.new.wires ≡ W.wires self.old.wires }
        ensures unchanged { OnErr result ((state_of self.new ≡ state_of self.old) × (W.trace self.new.wires ≡ W.trace self.old.wires)) }
    {
        let Some(index) = self.lanes.index_of(lane) else {
            return Ok(());
        };
        let now = self.moment;
        self.lanes.reply(index, &mut self.wires, reply, now)?;
        Ok(())
    }

    /// Sends a message on the lane of this number, if there is one, and answers whether it is full then.
    pub fn send(&mut self, lane: u64, bytes: &[u8], text: bool) -> Result<bool, DoorError>
        ensures others_unchanged { self.new.moment ≡ self.old.moment }
        ensures gathering { self.new.gathering ≡ self.old.gathering }
        ensures cause { HasFaultCause self.old.faults self.new.faults result }
        ensures sent { OnOk result ((answers : List Answer) × Tells (W.trace self.old.wires) (W.trace self.new.wires) answers
            × DoesAt lane (Sends self.old.moment bytes.now text) (state_of self.old) (state_of self.new) answers) }
        ensures answer { IfOk result (λ full. full ≡ is_full_at lane self.new.lanes.items) }
        ensures memory { IfErr result (λ e. e ≡ DoorError.NoMemory) }
        ensures bound { W.wires self.new.wires ≡ W.wires self.old.wires }
        ensures lanes { wires_of self.new.lanes.items ≡ wires_of self.old.lanes.items }
        ensures unchanged { OnErr result ((state_of self.new ≡ state_of self.old) × (W.trace self.new.wires ≡ W.trace self.old.wires)) }
    {
        let Some(index) = self.lanes.index_of(lane) else {
            return Ok(false);
        };
        let now = self.moment;
        let is_full = self.lanes.send(index, &mut self.wires, bytes, text, now)?;
        self.has_sent = true;
        Ok(is_full)
    }

    /// Ends the lane of this number, if there is one, once what waits is written.
    pub fn shut(&mut self, lane: u64) -> Result<(), DoorError>
        ensures others_unchanged { self.new.moment ≡ self.old.moment }
        ensures gathering { self.new.gathering ≡ self.old.gathering }
        ensures cause { HasFaultCause self.old.faults self.new.faults result }
        ensures shut { OnOk result ((answers : List Answer) × Tells (W.trace self.old.wires) (W.trace self.new.wires) answers
            × DoesAt lane (Shuts self.old.moment) (state_of self.old) (state_of self.new) answers) }
        ensures memory { IfErr result (λ e. e ≡ DoorError.NoMemory) }
        ensures bound { W.wires self.new.wires ≡ W.wires self.old.wires }
        ensures lanes { wires_of self.new.lanes.items ≡ wires_of self.old.lanes.items }
        ensures unchanged { OnErr result ((state_of self.new ≡ state_of self.old) × (W.trace self.new.wires ≡ W.trace self.old.wires)) }
    {
        let Some(index) = self.lanes.index_of(lane) else {
            return Ok(());
        };
        let now = self.moment;
        self.lanes.shut(index, &mut self.wires, now)?;
        Ok(())
    }
}

/// The number after that of the lane of this event, in an order that goes round.
fn next_lane(event: &Event) -> u64
    ensures { result ≡ next_from 0 (Some event.now) }
{
    let lane = lane_of(event);
    if lane == u64::MAX { 0 } else { lane + 1 }
}

/// The lane of this event, 0 if it is of none.
pub fn lane_of(event: &Event) -> u64
    ensures { result ≡ lane_of event.now }
{
    match event {
        Event::Request { lane, .. } => *lane,
        Event::Refused { lane, .. } => *lane,
        Event::Bytes { lane, .. } => *lane,
        Event::Response { lane, .. } => *lane,
        Event::Upgraded { lane } => *lane,
        Event::Lost { lane } => *lane,
        Event::Drained { lane } => *lane,
        Event::Quiet => 0,
    }
}
