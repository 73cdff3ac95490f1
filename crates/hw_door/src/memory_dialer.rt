//! A dialer in memory, for tests.

ghost use Rattle.std.specs.Prelude.{◌≡◌, ◌≢◌, ◌+◌, ℕ, Bool, [], ◌∷◌, IfOk, count_by, refl};
ghost use Rattle.hw_door.specs.declared.heard.Given.TheVariants as say;
ghost use Rattle.hw_door.specs.Calls.{HasFaultCause, IsLater, IsNewLane};
ghost use Rattle.hw_door.specs.DoorCalls.{Chain, heard_call, given_call, sent_call, asked_call, flushed};
ghost use Rattle.hw_door.specs.DoorLaws.{chain_joins};
ghost use Rattle.hw_door.specs.Memory.{CallsMemory, MemoryScript, NeverFalls, ScriptFails, FailsIf, script_of, next_of, fills, after_next, after_saying, after_sending, is_ask, asks_of};

use crate::error::DoorError;
use crate::heard::{Given, Heard, Upgrade};
use crate::scripted::Scripted;
use crate::traits::Dialer;
use hw_lanes::{Method, Text8, Vec8};
use std::marker::Model;

/// A dialer in memory, for tests: it gives what it was made with, keeps what it is given to say, all of which it says, and fails at the
/// calls of chosen numbers. Each call but `start` and `given` takes memory. The lanes that it answers are numbered from 1.
///
/// The calls are counted from 0, those that fail among them, and not those that are out of memory. The count holds 64 bits and stays
/// at 2^64 - 1.
#[derive(Drop)]
pub struct MemoryDialer {
    script: Scripted,
}

impl Model for MemoryDialer {
    ghost use Rattle.hw_door.specs.Memory.{MemoryScript};

    ghost Value = { MemoryScript };

    ghost view = { λ d. d.script };
}

fn is_ask(given: &Given) -> bool
    ensures { result ≡ is_ask given.now }
{
    match given {
        Given::Ask { .. } => true,
        Given::Reply { .. } => false,
        Given::Bytes { .. } => false,
        Given::Shut { .. } => false,
    }
}

fn count_asks(given: &[Given]) -> usize
    ensures { result ≡ count_by is_ask given.now }
{
    given.iter().filter(|given| is_ask(given)).count()
}

impl MemoryDialer {
    /// Makes a dialer at which this will be heard, whose moments never fall, and that fails at the calls of the numbers in `failing`, and
    /// whose lanes are full after the messages of the numbers in `filling`, both in any order. Messages are counted from 0, without those of calls
    /// that failed. It takes no memory.
    pub fn start(heard: Vec<Heard>, failing: Vec<u64>, filling: Vec<u64>) -> MemoryDialer
        requires { NeverFalls 0 heard.items }
        ensures { result ≡ script_of heard.items failing.items filling.items }
    {
        MemoryDialer {
            script: Scripted::start(heard, failing, filling),
        }
    }

    /// Lends what it was given to say, in order.
    pub fn given(&self) -> &[Given]
        ensures { result.now ≡ self.now.trace.given }
    {
        self.script.given()
    }
}

impl Dialer for MemoryDialer {
    ghost Goes = { Chain CallsMemory };

    ghost stays = { λ s. refl };

    ghost joins = { chain_joins CallsMemory };

    ghost moment = { λ d. d.moment };

    ghost lanes = { λ d. asks_of d + 1 };

    ghost faults = { λ d. d.faults };

    /// Keeps the ask, and answers how many it has kept. It fails exactly at the calls that are to fail.
    fn ask(
        &mut self,
        place: u64,
        method: Method,
        target: &str,
        upgrade: Option<Upgrade>,
    ) -> Result<u64, DoorError>
        requires { method ≢ Method.Other }
        ensures given { (is_said : Bool) × (unanswered : ℕ) × Chain CallsMemory self.old (asked_call place method target.now upgrade unanswered is_said result ∷ []) self.new }
        ensures fresh { IsNewLane (asks_of self.old + 1) (asks_of self.new + 1) result }
        ensures others_unchanged { self.new.moment ≡ self.old.moment }
        ensures cause { HasFaultCause self.old.faults self.new.faults result }
        ensures lane { IfOk result (λ lane. lane ≡ asks_of self.old + 1) }
        ensures fails { FailsIf (ScriptFails self.old) result }
        ensures after { self.new ≡ after_saying (λ lane. say.Ask lane place method target.now upgrade) result self.old }
    {
        let target = Text8::of(self.script.allocator(), target.as_bytes())?;
        let lane = count_asks(self.script.given()) as u64 + 1;
        self.script.say(Given::Ask {
            lane,
            place,
            method,
            target,
            upgrade,
        })?;
        Ok(lane)
    }

    /// Gives what is heard next, and once nothing is left `Quiet` at the moment heard last. It fails exactly at the calls that are to
    /// fail.
    fn next(&mut self, wait: u64) -> Result<Heard, DoorError>
        ensures heard { Chain CallsMemory self.old (heard_call wait result ∷ []) self.new }
        ensures later { IsLater self.old.moment self.new.moment result }
        ensures lanes { asks_of self.new + 1 ≡ asks_of self.old + 1 }
        ensures cause { HasFaultCause self.old.faults self.new.faults result }
        ensures gives { IfOk result (λ heard. heard ≡ next_of self.old.left self.old.moment) }
        ensures fails { FailsIf (ScriptFails self.old) result }
        ensures after { self.new ≡ after_next wait result self.old }
    {
        self.script.next(wait)
    }

    /// Keeps a copy of the message. It fails exactly at the calls that are to fail, and its lane is full exactly after the messages that are to
    /// fill it.
    fn send(&mut self, lane: u64, bytes: &[u8], text: bool) -> Result<bool, DoorError>
        ensures given { (is_said : Bool) × Chain CallsMemory self.old (sent_call (say.Bytes lane bytes.now text) is_said result ∷ []) self.new }
        ensures others_unchanged { self.new.moment ≡ self.old.moment }
        ensures lanes { asks_of self.new + 1 ≡ asks_of self.old + 1 }
        ensures cause { HasFaultCause self.old.faults self.new.faults result }
        ensures fails { FailsIf (ScriptFails self.old) result }
        ensures answers { IfOk result (λ full. full ≡ fills self.old) }
        ensures after { self.new ≡ after_sending (say.Bytes lane bytes.now text) result self.old }
    {
        let bytes = Vec8::of(self.script.allocator(), bytes)?;
        self.script.send(Given::Bytes { lane, bytes, text })
    }

    /// Keeps that the lane was shut. It fails exactly at the calls that are to fail.
    fn shut(&mut self, lane: u64) -> Result<(), DoorError>
        ensures given { (is_said : Bool) × Chain CallsMemory self.old (given_call (say.Shut lane) is_said result ∷ []) self.new }
        ensures others_unchanged { self.new.moment ≡ self.old.moment }
        ensures lanes { asks_of self.new + 1 ≡ asks_of self.old + 1 }
        ensures cause { HasFaultCause self.old.faults self.new.faults result }
        ensures fails { FailsIf (ScriptFails self.old) result }
        ensures after { self.new ≡ after_saying (λ done. say.Shut lane) result self.old }
    {
        self.script.say(Given::Shut { lane })
    }

    fn flush(&mut self)
        ensures goes { Chain CallsMemory self.old (flushed ∷ []) self.new }
        ensures unchanged { self.new ≡ self.old }
    {}
}
