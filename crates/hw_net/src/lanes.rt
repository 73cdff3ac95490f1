//! The lanes of a door, in the order in which they came, and the tally of them. What changes a lane is a call of this file, which keeps
//! the tally right.

ghost use Rattle.std.specs.Prelude.{◌≡◌, ◌<◌, ◌≤◌, ◌==◌, ◌++◌, ◌∷◌, [], List, true, false, length, nat_lt, position, slice_index_or, Contains, IfOk, IfErr, OnOk, OnErr};
ghost use Rattle.std.specs.List.{list_any};
ghost use Rattle.hw_lanes.specs.Replies.{IsReply};
ghost use Rattle.hw_door.specs.Traffic.{Answer};
ghost use Rattle.hw_net.specs.Bounds.{is_unwritten};
ghost use Rattle.hw_net.specs.Door.{RestsAt, kept, index_of_first};
ghost use Rattle.hw_net.specs.FirstReads.{ReadsFirstAt, IsWithin};
ghost use Rattle.hw_net.specs.Flushing.{Flushes, HasWriter, WriteEach};
ghost use Rattle.hw_net.specs.Halting.{Halts};
ghost use Rattle.hw_net.specs.Lane.{Lane, is_awake, is_full, is_overdue, wires_of};
ghost use Rattle.hw_net.specs.Lanes.{DoesHere};
ghost use Rattle.hw_net.specs.Rising.{Rise};
ghost use Rattle.hw_net.specs.Saying.{SaysIfEnded, WritesIfLive};
ghost use Rattle.hw_net.specs.Tally.{is_closing};
ghost use Rattle.hw_net.specs.Trace.{Tells};
ghost use Rattle.hw_net.specs.Turn.{AtLane, Listens, Replies, Sends, Shuts};
ghost use Rattle.hw_net.specs.Writers.{AreWriters};

use crate::finding::{index_of, index_of_first};
use crate::first_read::FirstRead;
use crate::lane::NetLane;
use crate::limits::PIECE;
use crate::tally::Tally;
use crate::writers::Writers;
use hw_door::{Event, Wires};
use hw_lanes::Reply;
use std::alloc::{AllocError, Global};
use std::marker::Model;
use std::mem::replace;

/// Lanes, and how many there are of each kind.
#[derive(Drop)]
pub struct Lanes {
    items: Vec<NetLane>,
    tally: Tally,
    // No lane is overdue before this moment.
    due: u64,
    writers: Writers,
}

impl Model for Lanes {
    ghost use Rattle.hw_net.specs.Lanes.{LanesState};
    ghost use Rattle.hw_net.specs.Resting.{AreKept};

    ghost Value = { LanesState };

    ghost view = { λ l. record { items = l.items.items } };

    ghost invariant = { λ l. AreKept l.tally l.due l.writers l.items.items };
}

impl Lanes {
    /// No lanes. It takes no memory yet.
    pub fn start(alloc: Global) -> Lanes
        ensures { result.items ≡ [] }
    {
        Lanes {
            items: Vec::new(alloc),
            tally: Tally::start(),
            due: u64::MAX,
            writers: Writers::start(alloc),
        }
    }

    pub fn len(&self) -> usize
        ensures { result ≡ length self.now.items }
    {
        self.items.len()
    }

    /// Whether something may be heard at once on some lane.
    pub fn has_awake(&self) -> bool
        ensures { result ≡ list_any is_awake self.now.items }
    {
        self.tally.has_awake()
    }

    /// Whether something waits to be written on a live lane.
    pub fn has_writers(&self) -> bool
        ensures some { result ≡ true → HasWriter self.now.items }
        ensures none { result ≡ false → AreWriters [] self.now.items }
    {
        self.tally.has_writers()
    }

    /// Whether some lane is heard no more, and its wire is there until all is written.
    pub fn has_closing(&self) -> bool
        ensures { result ≡ false → (lane : Lane) → Contains self.now.items lane → is_closing lane.stage ≡ false }
    {
        self.tally.has_closing()
    }

    /// Whether something waits to be written on some lane whose wire wasn't shut.
    pub fn has_unwritten(&self) -> bool
        ensures { result ≡ list_any is_unwritten self.now.items }
    {
        self.items.iter().any(|lane| lane.is_unwritten())
    }

    /// Whether each lane is known to rest at this moment.
    pub fn may_rest(&self, now: u64) -> bool
        ensures { result ≡ true → (lane : Lane) → Contains self.now.items lane → RestsAt now lane }
    {
        now < self.due && !self.tally.has_restless()
    }

    /// Works out anew before which moment no lane is overdue, if that which was known has come.
    pub fn renew_due(&mut self, now: u64)
        ensures { self.new.items ≡ self.old.items }
    {
        if now < self.due {
            return;
        }
        let mut due = u64::MAX;
        for index in 0..self.items.len() {
            due = due.min(self.items[index].due());
        }
        self.due = due;
    }

    /// Whether some lane is over.
    pub fn has_over(&self) -> bool
        ensures { result ≡ false → kept self.now.items ≡ self.now.items }
    {
        self.tally.has_over()
    }

    /// Forgets the lanes that are over.
    pub fn clear(&mut self)
        ensures { self.new.items ≡ kept self.old.items }
    {
        if self.tally.has_over() {
            self.items.retain(|lane| !lane.is_over());
            self.tally.forget_over();
        }
    }

    /// Adds a lane after all others.
    pub fn add(&mut self, lane: NetLane) -> Result<(), AllocError>
        ensures added { OnOk result (self.new.items ≡ self.old.items ++ lane ∷ []) }
        ensures unchanged { OnErr result (self.new.items ≡ self.old.items) }
    {
        let index = self.items.len();
        self.items.push(lane)?;
        let lane = &self.items[index];
        self.tally.enter(lane);
        self.due = self.due.min(lane.due());
        self.writers.list(lane, false, index);
        Ok(())
    }

    pub fn index_of(&self, wire: u64) -> Option<usize>
        requires { Rise (wires_of self.now.items) }
        ensures { result ≡ position (λ (lane : Lane). lane.wire == wire) self.now.items }
    {
        index_of(&self.items, wire)
    }

    /// How many lanes come last in the search that begins at this number.
    pub fn index_of_first(&self, from: u64) -> usize
        requires { Rise (wires_of self.now.items) }
        ensures { result ≡ index_of_first from self.now.items }
    {
        index_of_first(&self.items, from)
    }

    /// Reads the wire of the lane of this place, if nothing else is known to be done there before more bytes come, and the lane isn't overdue.
    pub fn read_first<W: Wires>(
        &self,
        index: usize,
        wires: &mut W,
        buf: &mut [u8],
        now: u64,
    ) -> FirstRead
        requires buffer { length buf.old ≡ PIECE }
        requires index { index < length self.now.items }
        ensures in_time { result ≡ FirstRead.NothingRead → (lane : Lane) → is_overdue now (slice_index_or self.now.items index lane) ≡ false }
        ensures reads_first { (answers : List Answer) × Tells (W.trace wires.old) (W.trace wires.new) answers
            × ReadsFirstAt index self.now.items answers buf.new result }
        ensures count { IsWithin result }
        ensures wires { W.wires wires.new ≡ W.wires wires.old }
    {
        self.items[index].read_first(wires, buf, now)
    }

    pub fn turn<W: Wires>(
        &mut self,
        index: usize,
        first_look: FirstRead,
        wires: &mut W,
        buf: &mut [u8],
        now: u64,
    ) -> Result<Option<Event>, AllocError>
        requires buffer { length buf.old ≡ PIECE }
        requires index { index < length self.old.items }
        requires count { IsWithin first_look }
        ensures turned { IfOk result (λ heard. (first : List Answer) → ReadsFirstAt index self.old.items first buf.old first_look
            → (answers : List Answer) × Tells (W.trace wires.old) (W.trace wires.new) answers
            × DoesHere index (λ before after said. Listens now before after (first ++ said) heard)
            self.old.items self.new.items answers) }
        ensures halts { OnErr result ((first : List Answer) → ReadsFirstAt index self.old.items first buf.old first_look
            → (answers : List Answer) × Tells (W.trace wires.old) (W.trace wires.new) answers
            × DoesHere index (λ before after said. Halts before after (first ++ said)) self.old.items self.new.items answers) }
        ensures wires { W.wires wires.new ≡ W.wires wires.old }
        ensures lanes { wires_of self.new.items ≡ wires_of self.old.items }
    {
        let most = self.items.len();
        let lane = &mut self.items[index];
        let was_writer = lane.is_writer();
        self.tally.leave(lane);
        let heard = lane.turn(first_look, wires, buf, now);
        self.tally.enter(lane);
        self.due = self.due.min(lane.due());
        self.writers.list(lane, was_writer, most);
        heard
    }

    /// The lane of this place writes what waits, if it is heard no more.
    pub fn say_if_ended<W: Wires>(&mut self, index: usize, wires: &mut W, now: u64)
        requires { index < length self.old.items }
        ensures said { (answers : List Answer) × Tells (W.trace wires.old) (W.trace wires.new) answers
            × DoesHere index (SaysIfEnded now) self.old.items self.new.items answers }
        ensures wires { W.wires wires.new ≡ W.wires wires.old }
        ensures lanes { wires_of self.new.items ≡ wires_of self.old.items }
    {
        if !self.items[index].is_closing() {
            return;
        }
        let lane = &mut self.items[index];
        self.tally.leave(lane);
        lane.say_if_ended(wires, now);
        self.tally.enter(lane);
        self.due = self.due.min(lane.due());
    }

    fn write_if_live<W: Wires>(&mut self, index: usize, wires: &mut W)
        requires { index < length self.old.items }
        ensures written { (answers : List Answer) × Tells (W.trace wires.old) (W.trace wires.new) answers
            × DoesHere index WritesIfLive self.old.items self.new.items answers }
        ensures wires { W.wires wires.new ≡ W.wires wires.old }
        ensures faults { W.faults wires.old ≤ W.faults wires.new }
        ensures lanes { wires_of self.new.items ≡ wires_of self.old.items }
    {
        if !self.items[index].is_writer() {
            return;
        }
        let lane = &mut self.items[index];
        self.tally.leave(lane);
        lane.write_if_live(wires);
        self.tally.enter(lane);
        self.due = self.due.min(lane.due());
    }

    /// The live lane of this number writes what waits, if there is one.
    pub fn write_at<W: Wires>(&mut self, wire: u64, wires: &mut W)
        requires { Rise (wires_of self.old.items) }
        ensures written { (answers : List Answer) × Tells (W.trace wires.old) (W.trace wires.new) answers
            × AtLane wire WritesIfLive self.old.items self.new.items answers }
        ensures wires { W.wires wires.new ≡ W.wires wires.old }
        ensures faults { W.faults wires.old ≤ W.faults wires.new }
        ensures lanes { wires_of self.new.items ≡ wires_of self.old.items }
    {
        if let Some(index) = self.index_of(wire) {
            self.write_if_live(index, wires);
        }
    }

    fn write_each<W: Wires>(&mut self, listed: &[u64], wires: &mut W)
        requires { Rise (wires_of self.old.items) }
        ensures written { (answers : List Answer) × Tells (W.trace wires.old) (W.trace wires.new) answers
            × WriteEach listed.now self.old.items self.new.items answers }
        ensures wires { W.wires wires.new ≡ W.wires wires.old }
        ensures faults { W.faults wires.old ≤ W.faults wires.new }
        ensures lanes { wires_of self.new.items ≡ wires_of self.old.items }
    {
        for &wire in listed {
            self.write_at(wire, wires);
        }
    }

    fn write_all<W: Wires>(&mut self, wires: &mut W)
        requires { Rise (wires_of self.old.items) }
        ensures written { (answers : List Answer) × Tells (W.trace wires.old) (W.trace wires.new) answers
            × WriteEach (wires_of self.old.items) self.old.items self.new.items answers }
        ensures wires { W.wires wires.new ≡ W.wires wires.old }
        ensures faults { W.faults wires.old ≤ W.faults wires.new }
        ensures lanes { wires_of self.new.items ≡ wires_of self.old.items }
    {
        for index in 0..self.items.len() {
            self.write_if_live(index, wires);
        }
    }

    /// Each live lane on which something waits writes it.
    pub fn flush<W: Wires>(&mut self, alloc: Global, wires: &mut W)
        requires { Rise (wires_of self.old.items) }
        ensures flushed { (answers : List Answer) × Tells (W.trace wires.old) (W.trace wires.new) answers
            × Flushes self.old.items self.new.items answers }
        ensures wires { W.wires wires.new ≡ W.wires wires.old }
        ensures faults { W.faults wires.old ≤ W.faults wires.new }
        ensures lanes { wires_of self.new.items ≡ wires_of self.old.items }
    {
        if !self.has_writers() {
            return;
        }
        if !self.writers.is_whole {
            self.write_all(wires);
            self.writers.renew(&self.items);
            return;
        }
        let listed = replace(&mut self.writers, Writers::unknown(alloc));
        self.write_each(&listed.wires, wires);
        self.writers = listed;
        self.writers.keep(&self.items);
    }

    pub fn reply<W: Wires>(
        &mut self,
        index: usize,
        wires: &mut W,
        reply: &Reply,
        now: u64,
    ) -> Result<(), AllocError>
        requires reply { IsReply reply.now }
        requires index { index < length self.old.items }
        ensures replied { OnOk result ((answers : List Answer)
            × Tells (W.trace wires.old) (W.trace wires.new) answers
            × DoesHere index (Replies now reply.now) self.old.items self.new.items answers) }
        ensures unchanged { OnErr result ((self.new.items ≡ self.old.items) × (W.trace wires.new ≡ W.trace wires.old)) }
        ensures wires { W.wires wires.new ≡ W.wires wires.old }
        ensures lanes { wires_of self.new.items ≡ wires_of self.old.items }
    {
        let most = self.items.len();
        let lane = &mut self.items[index];
        let was_writer = lane.is_writer();
        self.tally.leave(lane);
        let replied = lane.reply(wires, reply, now);
        self.tally.enter(lane);
        self.due = self.due.min(lane.due());
        self.writers.list(lane, was_writer, most);
        replied
    }

    /// Sends a message on the lane of this place. The answer is whether the lane is full now.
    pub fn send<W: Wires>(
        &mut self,
        index: usize,
        wires: &mut W,
        bytes: &[u8],
        text: bool,
        now: u64,
    ) -> Result<bool, AllocError>
        requires { index < length self.old.items }
        ensures sent { OnOk result ((answers : List Answer)
            × Tells (W.trace wires.old) (W.trace wires.new) answers
            × DoesHere index (Sends now bytes.now text) self.old.items self.new.items answers) }
        ensures answer { IfOk result (λ full. (lane : Lane) → full ≡ is_full (slice_index_or self.new.items index lane)) }
        ensures unchanged { OnErr result ((self.new.items ≡ self.old.items) × (W.trace wires.new ≡ W.trace wires.old)) }
        ensures wires { W.wires wires.new ≡ W.wires wires.old }
        ensures lanes { wires_of self.new.items ≡ wires_of self.old.items }
    {
        let most = self.items.len();
        let lane = &mut self.items[index];
        let was_writer = lane.is_writer();
        self.tally.leave(lane);
        let sent = lane.send(wires, bytes, text, now);
        self.tally.enter(lane);
        self.due = self.due.min(lane.due());
        self.writers.list(lane, was_writer, most);
        sent
    }

    /// Ends the lane of this place, once what waits is written.
    pub fn shut<W: Wires>(
        &mut self,
        index: usize,
        wires: &mut W,
        now: u64,
    ) -> Result<(), AllocError>
        requires { index < length self.old.items }
        ensures shut { OnOk result ((answers : List Answer)
            × Tells (W.trace wires.old) (W.trace wires.new) answers
            × DoesHere index (Shuts now) self.old.items self.new.items answers) }
        ensures unchanged { OnErr result ((self.new.items ≡ self.old.items) × (W.trace wires.new ≡ W.trace wires.old)) }
        ensures wires { W.wires wires.new ≡ W.wires wires.old }
        ensures lanes { wires_of self.new.items ≡ wires_of self.old.items }
    {
        let most = self.items.len();
        let lane = &mut self.items[index];
        let was_writer = lane.is_writer();
        self.tally.leave(lane);
        let ended = lane.shut(wires, now);
        self.tally.enter(lane);
        self.due = self.due.min(lane.due());
        self.writers.list(lane, was_writer, most);
        ended
    }
}
