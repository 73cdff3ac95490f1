//! A door in memory, for tests.

ghost use Rattle.std.specs.Prelude.{◌≡◌, ℕ, Bool, [], ◌∷◌, IfOk, refl};
ghost use Rattle.hw_lanes.specs.Replies.{IsReply};
ghost use Rattle.hw_door.specs.declared.heard.Given.TheVariants as say;
ghost use Rattle.hw_door.specs.Calls.{HasFaultCause, IsLater};
ghost use Rattle.hw_door.specs.DoorCalls.{Chain, heard_call, given_call, sent_call, flushed};
ghost use Rattle.hw_door.specs.DoorLaws.{chain_joins};
ghost use Rattle.hw_door.specs.Memory.{CallsMemory, MemoryScript, NeverFalls, ScriptFails, FailsIf, script_of, next_of, fills, after_next, after_saying, after_sending};

use crate::error::DoorError;
use crate::heard::{Given, Heard};
use crate::scripted::Scripted;
use crate::traits::Door;
use hw_lanes::{Reply, Vec8};
use std::marker::Model;

/// A door in memory, for tests: it gives what it was made with, keeps what it is given to say, all of which it says, and fails at the
/// calls of chosen numbers. Each call but `start` and `given` takes memory.
///
/// The calls are counted from 0, those that fail among them, and not those that are out of memory. The count holds 64 bits and stays
/// at 2^64 - 1.
///
/// What it is after calls says nothing of which was heard before which was given: it keeps a list of each.
#[derive(Drop)]
pub struct MemoryDoor {
    script: Scripted,
}

impl Model for MemoryDoor {
    ghost use Rattle.hw_door.specs.Memory.{MemoryScript};

    ghost Value = { MemoryScript };

    ghost view = { λ d. d.script };
}

impl MemoryDoor {
    /// Makes a door at which this will be heard, whose moments never fall, and that fails at the calls of the numbers in `failing`, and
    /// whose lanes are full after the messages of the numbers in `filling`, both in any order. Messages are counted from 0, without those of calls
    /// that failed. It takes no memory.
    pub fn start(heard: Vec<Heard>, failing: Vec<u64>, filling: Vec<u64>) -> MemoryDoor
        requires { NeverFalls 0 heard.items }
        ensures { result ≡ script_of heard.items failing.items filling.items }
    {
        MemoryDoor {
            script: Scripted::start(heard, failing, filling),
        }
    }

    /// Lends what it was given to say, in order.
    pub fn given(&self) -> &[Given]
        ensures { result.now ≡ self.now.trace.given }
    {
        self.script.given()
    }
}

impl Door for MemoryDoor {
    ghost Goes = { Chain CallsMemory };

    ghost stays = { λ s. refl };

    ghost joins = { chain_joins CallsMemory };

    ghost moment = { λ d. d.moment };

    ghost faults = { λ d. d.faults };

    /// Gives what is heard next, and once nothing is left `Quiet` at the moment heard last. It fails exactly at the calls that are to
    /// fail.
    fn next(&mut self, wait: u64) -> Result<Heard, DoorError>
        ensures heard { Chain CallsMemory self.old (heard_call wait result ∷ []) self.new }
        ensures later { IsLater self.old.moment self.new.moment result }
        ensures cause { HasFaultCause self.old.faults self.new.faults result }
        ensures gives { IfOk result (λ heard. heard ≡ next_of self.old.left self.old.moment) }
        ensures fails { FailsIf (ScriptFails self.old) result }
        ensures after { self.new ≡ after_next wait result self.old }
    {
        self.script.next(wait)
    }

    /// Keeps the reply. It fails exactly at the calls that are to fail.
    fn reply(&mut self, lane: u64, reply: Reply) -> Result<(), DoorError>
        requires { IsReply reply }
        ensures given { (is_said : Bool) × Chain CallsMemory self.old (given_call (say.Reply lane reply) is_said result ∷ []) self.new }
        ensures others_unchanged { self.new.moment ≡ self.old.moment }
        ensures cause { HasFaultCause self.old.faults self.new.faults result }
        ensures fails { FailsIf (ScriptFails self.old) result }
        ensures after { self.new ≡ after_saying (λ done. say.Reply lane reply) result self.old }
    {
        self.script.say(Given::Reply { lane, reply })
    }

    /// Keeps a copy of the message. It fails exactly at the calls that are to fail, and its lane is full exactly after the messages that are to
    /// fill it.
    fn send(&mut self, lane: u64, bytes: &[u8], text: bool) -> Result<bool, DoorError>
        ensures given { (is_said : Bool) × Chain CallsMemory self.old (sent_call (say.Bytes lane bytes.now text) is_said result ∷ []) self.new }
        ensures others_unchanged { self.new.moment ≡ self.old.moment }
        ensures cause { HasFaultCause self.old.faults self.new.faults result }
        ensures fails { FailsIf (ScriptFails self.old) result }
        ensures answers { IfOk result (λ full. full ≡ fills self.old) }
        ensures after { self.new ≡ after_sending (say.Bytes lane bytes.now text) result self.old }
    {
        let bytes = Vec8::of(self.script.allocator(), bytes)?;
        self.script.send(Given::Bytes { lane, bytes, text })
    }

    /// Keeps that the lane was shut. It fails exactly at the calls that are to fail.
    fn shut(&mut self, lane: u64) -> Result<(), DoorError>
        ensures given { (is_said : Bool) × Chain CallsMemory self.old (given_call (say.Shut lane) is_said result ∷ []) self.new }
        ensures others_unchanged { self.new.moment ≡ self.old.moment }
        ensures cause { HasFaultCause self.old.faults self.new.faults result }
        ensures fails { FailsIf (ScriptFails self.old) result }
        ensures after { self.new ≡ after_saying (λ done. say.Shut lane) result self.old }
    {
        self.script.say(Given::Shut { lane })
    }

    fn flush(&mut self)
        ensures goes { Chain CallsMemory self.old (flushed ∷ []) self.new }
        ensures unchanged { self.new ≡ self.old }
    {}
}
