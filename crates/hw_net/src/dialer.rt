//! The dialer: what is asked on new lanes, and what comes of it.

ghost use Rattle.std.specs.Prelude.{◌≡◌, ◌≢◌, ◌+◌, ◌≤◌, ◌++◌, ◌∷◌, [], ℕ, Bool, Err, IfErr, IfOk, OnErr, OnOk, List, option_to_list, refl, slice_get};
ghost use Rattle.std.specs.List.{list_any};
ghost use Rattle.hd_facts.specs.Counts.{Rose};
ghost use Rattle.hw_door.specs.declared.heard.Given.TheVariants as say;
ghost use Rattle.hw_door.specs.Calls.{HasFaultCause, IsLater, IsNewLane};
ghost use Rattle.hw_door.specs.DoorCalls.{Chain, asked_call, flushed, given_call, heard_call, sent_call};
ghost use Rattle.hw_door.specs.DoorLaws.{chain_joins};
ghost use Rattle.hw_door.specs.Traffic.{Answer, IsNewWire};
ghost use Rattle.hw_net.specs.Dialer.{FailsDialed, HaltsDialed, HaltsLanes, HearsDialed, HearsLanes, IsCutShort, Reaches, cleared, dialer_state_of, patience};
ghost use Rattle.hw_net.specs.Bounds.{is_unwritten};
ghost use Rattle.hw_net.specs.DialerCalls.{CallsDialed};
ghost use Rattle.hw_net.specs.Door.{state_of};
ghost use Rattle.hw_net.specs.Lane.{wires_of};
ghost use Rattle.hw_net.specs.Trace.{Tells};

use crate::asking::text_at;
use crate::limits::MOST_UNWRITTEN;
use crate::numbers::{LaneWire, lane_on, wire_of, with_lane};
use crate::reactor::{Reactor, lane_of};
use hw_door::{Address, Dialer, DoorError, Event, Heard, Upgrade, Wires};
use hw_lanes::Method;
use std::alloc::{AllocError, Global};
use std::marker::Model;

/// A dialer over wires.
///
/// Its lanes are numbered from 1, in the order of the asks. A lane whose ask can't be said, as no address stands at its place, no connection can be begun,
/// or its text is longer than [`MOST_UNWRITTEN`], is heard as lost by the next `next` that is Ok, or, if several are, by a later one: the first first. Such a call doesn't wait.
#[derive(Drop)]
pub struct NetDialer<W: Wires + Drop> {
    alloc: Global,
    reactor: Reactor<W>,
    addresses: Vec<Address>,
    // Where each of the lanes that the reactor has stands.
    numbers: Vec<LaneWire>,
    // The lanes whose ask failed, and whose loss is still to be heard.
    failed: Vec<u64>,
    // The lane that was answered last, 0 before the first.
    last: u64,
}

// Both numbers of the lanes rise, so a lane is found by either in few steps.
impl<W: Wires + Drop> Model for NetDialer<W> {
    ghost use Rattle.hw_net.specs.Numbered.{AreNumbered};
    ghost use Rattle.hw_net.specs.Parts.{DialerParts};

    ghost Value = { DialerParts W };

    ghost view = { λ d. record {
      reactor = d.reactor;
      addresses = d.addresses.items;
      numbers = d.numbers.items;
      failed = d.failed.items;
      last = d.last;
    } };

    ghost invariant = { λ d. AreNumbered (W.wires d.reactor.wires) d.reactor.lanes.items d.numbers.items d.failed.items d.last };
}

/// Dials for an ask, if an address stands at its place and no more than may would wait. The answer is its wire, if a connection was begun.
fn dial_at<W: Wires + Drop>(
    alloc: Global,
    addresses: &[Address],
    place: u64,
    reactor: &mut Reactor<W>,
    method: Method,
    target: &str,
    upgrade: Option<Upgrade>,
) -> Result<Option<u64>, DoorError>
    requires { method ≢ Method.Other }
    ensures dialed { IfOk result (λ wire. (answers : List Answer) × Tells (W.trace reactor.old.wires) (W.trace reactor.new.wires) answers
        × Reaches (slice_get addresses.now place) method target.now upgrade wire (state_of reactor.old) (state_of reactor.new) answers) }
    ensures fresh { IfOk result (λ wire. IsNewWire (W.wires reactor.old.wires) (W.wires reactor.new.wires) wire) }
    ensures lanes { IfOk result (λ wire. wires_of reactor.new.lanes.items ≡ wires_of reactor.old.lanes.items ++ option_to_list wire) }
    ensures halts { OnErr result ((answers : List Answer) × Tells (W.trace reactor.old.wires) (W.trace reactor.new.wires) answers
        × IsCutShort (W.wires reactor.old.wires) (W.wires reactor.new.wires) answers) }
    ensures unchanged { OnErr result (state_of reactor.new ≡ state_of reactor.old) }
    ensures memory { IfErr result (λ e. e ≡ DoorError.NoMemory) }
    ensures moment { reactor.new.moment ≡ reactor.old.moment }
    ensures faults { reactor.new.faults ≡ reactor.old.faults }
    ensures gathering { reactor.new.gathering ≡ reactor.old.gathering }
    ensures bound { W.wires reactor.old.wires ≤ W.wires reactor.new.wires }
{
    if place >= addresses.len() as u64 {
        return Ok(None);
    }
    let address = &addresses[place as usize];
    let text = text_at(alloc, address, method, target, upgrade)?;
    if text.len() > MOST_UNWRITTEN {
        return Ok(None);
    }
    reactor.dial(address.host.as_str(), address.port, text, upgrade)
}

impl<W: Wires + Drop> NetDialer<W> {
    /// A dialer of these addresses, which asked nothing. It takes no memory yet.
    pub fn start(alloc: Global, wires: W, addresses: Vec<Address>) -> NetDialer<W>
        ensures state { dialer_state_of result ≡ record { door = record { lanes = []; from = 0; named = 0; moment = 0 }; numbers = []; failed = []; last = 0 } }
        ensures wires { result.reactor.wires ≡ wires }
        ensures addresses { result.addresses ≡ addresses.items }
        ensures faults { result.reactor.faults ≡ 0 }
        ensures gathering { result.reactor.gathering ≡ 0 }
    {
        NetDialer {
            alloc,
            reactor: Reactor::start(alloc, wires),
            addresses,
            numbers: Vec::new(alloc),
            failed: Vec::new(alloc),
            last: 0,
        }
    }

    /// Lends the wires.
    pub fn wires(&self) -> &W
        ensures { result.now ≡ self.now.reactor.wires }
    {
        self.reactor.wires()
    }

    /// Whether something waits to be written on a lane whose wire wasn't shut.
    pub fn has_unwritten(&self) -> bool
        ensures { result ≡ list_any is_unwritten self.now.reactor.lanes.items }
    {
        self.reactor.has_unwritten()
    }

    /// How long a call may wait: not at all while a loss is to be heard.
    fn patience(&self, wait: u64) -> u64
        ensures { result ≡ patience wait self.now.failed }
    {
        if self.failed.is_empty() { wait } else { 0 }
    }

    /// Forgets the lanes that are over.
    fn clear(&mut self)
        ensures cleared { dialer_state_of self.new ≡ cleared (dialer_state_of self.old) }
        ensures wires { self.new.reactor.wires ≡ self.old.reactor.wires }
        ensures faults { self.new.reactor.faults ≡ self.old.reactor.faults }
        ensures gathering { self.new.reactor.gathering ≡ self.old.reactor.gathering }
        ensures addresses { self.new.addresses ≡ self.old.addresses }
    {
        if !self.reactor.has_over() {
            return;
        }
        self.reactor.clear();
        let reactor = &self.reactor;
        self.numbers.retain(|number| reactor.has_lane(number.wire));
    }

    /// The loss of the lane whose ask failed first, if one did, or else a turn of each lane.
    fn hear(&mut self, now: u64) -> Result<Event, AllocError>
        ensures hears { IfOk result (λ event. (answers : List Answer) × Tells (W.trace self.old.reactor.wires) (W.trace self.new.reactor.wires) answers
            × HearsLanes self.old.failed now (dialer_state_of self.old) (dialer_state_of self.new) answers event) }
        ensures moment { OnOk result (self.new.reactor.moment ≡ now) }
        ensures halts { OnErr result ((answers : List Answer) × Tells (W.trace self.old.reactor.wires) (W.trace self.new.reactor.wires) answers
            × HaltsLanes now (dialer_state_of self.old) (dialer_state_of self.new) answers) }
        ensures faults { self.new.reactor.faults ≡ self.old.reactor.faults }
        ensures gathering { self.new.reactor.gathering ≡ self.old.reactor.gathering }
        ensures addresses { self.new.addresses ≡ self.old.addresses }
        ensures bound { W.wires self.new.reactor.wires ≡ W.wires self.old.reactor.wires }
    {
        if !self.failed.is_empty() {
            let lane = self.failed.remove(0);
            self.reactor.advance(now);
            return Ok(Event::Lost { lane });
        }
        let event = self.reactor.hear(now)?;
        self.reactor.advance(now);
        let lane = lane_on(&self.numbers, lane_of(&event));
        Ok(with_lane(event, lane))
    }

    /// Hears what happens next.
    fn hear_next(&mut self, wait: u64) -> Result<Heard, DoorError>
        ensures later { IsLater self.old.reactor.moment self.new.reactor.moment result }
        ensures cause { HasFaultCause self.old.reactor.faults self.new.reactor.faults result }
        ensures hears { IfOk result (λ heard. (answers : List Answer) × Tells (W.trace self.old.reactor.wires) (W.trace self.new.reactor.wires) answers
            × HearsDialed wait (dialer_state_of self.old) (dialer_state_of self.new) answers heard) }
        ensures fails { result ≡ Err DoorError.Failed → Rose (W.faults self.old.reactor.wires) (W.faults self.new.reactor.wires)
            × ((answers : List Answer) × Tells (W.trace self.old.reactor.wires) (W.trace self.new.reactor.wires) answers
            × FailsDialed wait (dialer_state_of self.old) (dialer_state_of self.new) answers) }
        ensures halts { result ≡ Err DoorError.NoMemory → (answers : List Answer) × Tells (W.trace self.old.reactor.wires) (W.trace self.new.reactor.wires) answers
            × HaltsDialed wait (dialer_state_of self.old) (dialer_state_of self.new) answers }
        ensures gathering { self.new.reactor.gathering ≡ self.old.reactor.gathering }
        ensures addresses { self.new.addresses ≡ self.old.addresses }
        ensures bound { W.wires self.new.reactor.wires ≡ W.wires self.old.reactor.wires }
    {
        self.clear();
        let now = self.reactor.poll(wait)?;
        let event = self.hear(now)?;
        Ok(Heard { now, event })
    }
}

impl<W: Wires + Drop> Dialer for NetDialer<W> {
    ghost Goes = { Chain (CallsDialed W.trace W.wires W.faults) };

    ghost stays = { λ s. refl };

    ghost joins = { chain_joins (CallsDialed W.trace W.wires W.faults) };

    ghost moment = { λ d. d.reactor.moment };

    ghost lanes = { λ d. d.last + 1 };

    ghost faults = { λ d. d.reactor.faults };

    fn ask(
        &mut self,
        place: u64,
        method: Method,
        target: &str,
        upgrade: Option<Upgrade>,
    ) -> Result<u64, DoorError>
        requires { method ≢ Method.Other }
        ensures given { (is_said : Bool) × (unanswered : ℕ)
            × Chain (CallsDialed W.trace W.wires W.faults) self.old (asked_call place method target.now upgrade unanswered is_said result ∷ []) self.new }
        ensures fresh { IsNewLane (self.old.last + 1) (self.new.last + 1) result }
        ensures others_unchanged { self.new.reactor.moment ≡ self.old.reactor.moment }
        ensures cause { HasFaultCause self.old.reactor.faults self.new.reactor.faults result }
        ensures memory { IfErr result (λ e. e ≡ DoorError.NoMemory) }
    {
        if self.last == u64::MAX {
            return Err(DoorError::NoMemory);
        }
        let lane = self.last + 1;
        self.numbers.reserve(1)?;
        self.failed.reserve(1)?;
        let Some(wire) = dial_at(
            self.alloc,
            &self.addresses,
            place,
            &mut self.reactor,
            method,
            target,
            upgrade,
        )?
        else {
            self.failed.push_reserved(lane);
            self.last = lane;
            return Ok(lane);
        };
        self.numbers.push_reserved(LaneWire { lane, wire });
        self.last = lane;
        Ok(lane)
    }

    fn next(&mut self, wait: u64) -> Result<Heard, DoorError>
        ensures heard { Chain (CallsDialed W.trace W.wires W.faults) self.old (heard_call wait result ∷ []) self.new }
        ensures later { IsLater self.old.reactor.moment self.new.reactor.moment result }
        ensures lanes { self.new.last + 1 ≡ self.old.last + 1 }
        ensures cause { HasFaultCause self.old.reactor.faults self.new.reactor.faults result }
    {
        let wait = self.patience(wait);
        let wait = self.reactor.gather(wait);
        let heard = self.hear_next(wait);
        if heard.is_err() {
            self.reactor.write_gathered();
        }
        heard
    }

    fn send(&mut self, lane: u64, bytes: &[u8], text: bool) -> Result<bool, DoorError>
        ensures given { (is_said : Bool) × Chain (CallsDialed W.trace W.wires W.faults) self.old (sent_call (say.Bytes lane bytes.now text) is_said result ∷ []) self.new }
        ensures others_unchanged { self.new.reactor.moment ≡ self.old.reactor.moment }
        ensures lanes { self.new.last + 1 ≡ self.old.last + 1 }
        ensures cause { HasFaultCause self.old.reactor.faults self.new.reactor.faults result }
        ensures memory { IfErr result (λ e. e ≡ DoorError.NoMemory) }
    {
        let Some(wire) = wire_of(&self.numbers, lane) else {
            return Ok(false);
        };
        self.reactor.send(wire, bytes, text)
    }

    fn shut(&mut self, lane: u64) -> Result<(), DoorError>
        ensures given { (is_said : Bool) × Chain (CallsDialed W.trace W.wires W.faults) self.old (given_call (say.Shut lane) is_said result ∷ []) self.new }
        ensures others_unchanged { self.new.reactor.moment ≡ self.old.reactor.moment }
        ensures lanes { self.new.last + 1 ≡ self.old.last + 1 }
        ensures cause { HasFaultCause self.old.reactor.faults self.new.reactor.faults result }
        ensures memory { IfErr result (λ e. e ≡ DoorError.NoMemory) }
    {
        let Some(wire) = wire_of(&self.numbers, lane) else {
            return Ok(());
        };
        self.reactor.shut(wire)
    }

    fn flush(&mut self)
        ensures goes { Chain (CallsDialed W.trace W.wires W.faults) self.old (flushed ∷ []) self.new }
        ensures others_unchanged { self.new.reactor.moment ≡ self.old.reactor.moment }
        ensures lanes { self.new.last + 1 ≡ self.old.last + 1 }
        ensures unfailed { self.new.reactor.faults ≡ self.old.reactor.faults }
    {
        self.reactor.write_gathered();
    }
}
