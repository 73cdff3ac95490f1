//! The door: the lanes of the wires that come, and what is heard and said on them.

ghost use Rattle.std.specs.Prelude.{◌≡◌, ◌∷◌, [], Bool, List, Err, IfOk, IfErr, OnOk, OnErr, refl};
ghost use Rattle.hd_facts.specs.Counts.{Rose};
ghost use Rattle.hw_lanes.specs.Replies.{IsReply};
ghost use Rattle.hw_door.specs.declared.heard.Given.TheVariants as say;
ghost use Rattle.hw_door.specs.Calls.{HasFaultCause, IsLater};
ghost use Rattle.hw_door.specs.DoorCalls.{Chain, heard_call, given_call, sent_call, flushed};
ghost use Rattle.hw_door.specs.DoorLaws.{chain_joins};
ghost use Rattle.hw_door.specs.Traffic.{Answer};
ghost use Rattle.hw_net.specs.Chains.{CallsNet};
ghost use Rattle.hw_net.specs.Door.{HearsNext, FailsNext, KeepsLanes, DoesAt, state_of, kept, is_full_at};
ghost use Rattle.hw_net.specs.Flushing.{FailsGathered, FlushesDoor, HaltsGathered, HearsGathered};
ghost use Rattle.hw_net.specs.Halting.{HaltsNext};
ghost use Rattle.hw_net.specs.Trace.{Tells};
ghost use Rattle.hw_net.specs.Turn.{Replies, Sends, Shuts};

use crate::reactor::Reactor;
use hw_door::{Door, DoorError, Heard, Wires};
use hw_lanes::Reply;
use std::alloc::Global;
use std::marker::Model;

/// A door over wires.
///
/// Each `next` is one search of the lanes. Between two of them the wires wait in `poll`, unless a lane may have more at once. So they have to tell of
/// what comes on a wire after a read that gave less than there was room for.
#[derive(Drop)]
pub struct NetDoor<W: Wires + Drop> {
    reactor: Reactor<W>,
}

impl<W: Wires + Drop> Model for NetDoor<W> {
    ghost use Rattle.hw_net.specs.Parts.{ReactorParts};

    ghost Value = { ReactorParts W };

    ghost view = { λ d. d.reactor };
}

impl<W: Wires + Drop> NetDoor<W> {
    /// A door at which nothing was heard. It takes no memory yet.
    pub fn start(alloc: Global, wires: W) -> NetDoor<W>
        ensures state { state_of result ≡ record { lanes = []; from = 0; named = 0; moment = 0 } }
        ensures wires { result.wires ≡ wires }
        ensures faults { result.faults ≡ 0 }
        ensures gathering { result.gathering ≡ 0 }
    {
        NetDoor {
            reactor: Reactor::start(alloc, wires),
        }
    }

    /// Lends the wires.
    pub fn wires(&self) -> &W
        ensures { result.now ≡ self.now.wires }
    {
        self.reactor.wires()
    }

    /// Hears what happens next.
    fn hear_next(&mut self, wait: u64) -> Result<Heard, DoorError>
        ensures later { IsLater self.old.moment self.new.moment result }
        ensures cause { HasFaultCause self.old.faults self.new.faults result }
        ensures hears { IfOk result (λ heard. (answers : List Answer) × Tells (W.trace self.old.wires) (W.trace self.new.wires) answers
            × HearsNext wait (state_of self.old) (state_of self.new) answers heard) }
        ensures fails { result ≡ Err DoorError.Failed → Rose (W.faults self.old.wires) (W.faults self.new.wires)
            × ((answers : List Answer) × Tells (W.trace self.old.wires) (W.trace self.new.wires) answers × FailsNext wait (state_of self.old) answers) }
        ensures fallen { result ≡ Err DoorError.Failed → state_of self.new ≡ record (state_of self.old) { lanes = kept self.old.lanes.items } }
        ensures halts { result ≡ Err DoorError.NoMemory → (answers : List Answer) × Tells (W.trace self.old.wires) (W.trace self.new.wires) answers
            × HaltsNext wait (state_of self.old) (state_of self.new) answers }
        ensures lanes { KeepsLanes (W.wires self.old.wires) (W.wires self.new.wires) self.old.lanes.items self.new.lanes.items }
        ensures gathering { self.new.gathering ≡ self.old.gathering }
    {
        self.reactor.clear();
        let now = self.reactor.poll(wait)?;
        self.reactor.accept(now)?;
        let event = self.reactor.hear(now)?;
        self.reactor.advance(now);
        Ok(Heard { now, event })
    }
}

impl<W: Wires + Drop> Door for NetDoor<W> {
    ghost Goes = { Chain (CallsNet W.trace W.wires W.faults) };

    ghost stays = { λ s. refl };

    ghost joins = { chain_joins (CallsNet W.trace W.wires W.faults) };

    ghost moment = { λ d. d.moment };

    ghost faults = { λ d. d.faults };

    fn next(&mut self, wait: u64) -> Result<Heard, DoorError>
        ensures heard { Chain (CallsNet W.trace W.wires W.faults) self.old (heard_call wait result ∷ []) self.new }
        ensures later { IsLater self.old.moment self.new.moment result }
        ensures cause { HasFaultCause self.old.faults self.new.faults result }
        ensures hears { IfOk result (λ heard. (answers : List Answer) × Tells (W.trace self.old.wires) (W.trace self.new.wires) answers
            × HearsGathered wait self.old.gathering (state_of self.old) (state_of self.new) answers heard self.new.gathering) }
        ensures fails { result ≡ Err DoorError.Failed → Rose (W.faults self.old.wires) (W.faults self.new.wires)
            × ((answers : List Answer) × Tells (W.trace self.old.wires) (W.trace self.new.wires) answers
            × FailsGathered wait self.old.gathering (state_of self.old) (state_of self.new) answers) }
        ensures halts { result ≡ Err DoorError.NoMemory → (answers : List Answer) × Tells (W.trace self.old.wires) (W.trace self.new.wires) answers
            × HaltsGathered wait self.old.gathering (state_of self.old) (state_of self.new) answers }
        ensures lanes { KeepsLanes (W.wires self.old.wires) (W.wires self.new.wires) self.old.lanes.items self.new.lanes.items }
    {
        let wait = self.reactor.gather(wait);
        let heard = self.hear_next(wait);
        if heard.is_err() {
            self.reactor.write_gathered();
        }
        heard
    }

    fn flush(&mut self)
        ensures goes { Chain (CallsNet W.trace W.wires W.faults) self.old (flushed ∷ []) self.new }
        ensures others_unchanged { self.new.moment ≡ self.old.moment }
        ensures unfailed { self.new.faults ≡ self.old.faults }
        ensures flushed { (answers : List Answer) × Tells (W.trace self.old.wires) (W.trace self.new.wires) answers
            × FlushesDoor (state_of self.old) (state_of self.new) answers }
        ensures gathering { self.new.gathering ≡ 0 }
        ensures bound { W.wires self.new.wires ≡ W.wires self.old.wires }
    {
        self.reactor.write_gathered();
    }

    fn reply(&mut self, lane: u64, reply: Reply) -> Result<(), DoorError>
        requires { IsReply reply }
        ensures given { (is_said : Bool) × Chain (CallsNet W.trace W.wires W.faults) self.old (given_call (say.Reply lane reply) is_said result ∷ []) self.new }
        ensures others_unchanged { self.new.moment ≡ self.old.moment }
        ensures gathering { self.new.gathering ≡ self.old.gathering }
        ensures cause { HasFaultCause self.old.faults self.new.faults result }
        ensures replied { OnOk result ((answers : List Answer) × Tells (W.trace self.old.wires) (W.trace self.new.wires) answers
            × DoesAt lane (Replies self.old.moment reply) (state_of self.old) (state_of self.new) answers) }
        ensures memory { IfErr result (λ e. e ≡ DoorError.NoMemory) }
        ensures bound { W.wires self.new.wires ≡ W.wires self.old.wires }
        ensures unchanged { OnErr result ((state_of self.new ≡ state_of self.old) × (W.trace self.new.wires ≡ W.trace self.old.wires)) }
    {
        self.reactor.reply(lane, &reply)
    }

    fn send(&mut self, lane: u64, bytes: &[u8], text: bool) -> Result<bool, DoorError>
        ensures given { (is_said : Bool) × Chain (CallsNet W.trace W.wires W.faults) self.old (sent_call (say.Bytes lane bytes.now text) is_said result ∷ []) self.new }
        ensures others_unchanged { self.new.moment ≡ self.old.moment }
        ensures gathering { self.new.gathering ≡ self.old.gathering }
        ensures cause { HasFaultCause self.old.faults self.new.faults result }
        ensures sent { OnOk result ((answers : List Answer) × Tells (W.trace self.old.wires) (W.trace self.new.wires) answers
            × DoesAt lane (Sends self.old.moment bytes.now text) (state_of self.old) (state_of self.new) answers) }
        ensures answer { IfOk result (λ full. full ≡ is_full_at lane self.new.lanes.items) }
        ensures memory { IfErr result (λ e. e ≡ DoorError.NoMemory) }
        ensures bound { W.wires self.new.wires ≡ W.wires self.old.wires }
        ensures unchanged { OnErr result ((state_of self.new ≡ state_of self.old) × (W.trace self.new.wires ≡ W.trace self.old.wires)) }
    {
        self.reactor.send(lane, bytes, text)
    }

    fn shut(&mut self, lane: u64) -> Result<(), DoorError>
        ensures given { (is_said : Bool) × Chain (CallsNet W.trace W.wires W.faults) self.old (given_call (say.Shut lane) is_said result ∷ []) self.new }
        ensures others_unchanged { self.new.moment ≡ self.old.moment }
        ensures gathering { self.new.gathering ≡ self.old.gathering }
        ensures cause { HasFaultCause self.old.faults self.new.faults result }
        ensures shut { OnOk result ((answers : List Answer) × Tells (W.trace self.old.wires) (W.trace self.new.wires) answers
            × DoesAt lane (Shuts self.old.moment) (state_of self.old) (state_of self.new) answers) }
        ensures memory { IfErr result (λ e. e ≡ DoorError.NoMemory) }
        ensures bound { W.wires self.new.wires ≡ W.wires self.old.wires }
        ensures unchanged { OnErr result ((state_of self.new ≡ state_of self.old) × (W.trace self.new.wires ≡ W.trace self.old.wires)) }
    {
        self.reactor.shut(lane)
    }
}
