//! What a door and a dialer in memory share: what is left to be heard, what was heard, and what was given to be said.

ghost use Rattle.std.specs.Prelude.{◌≡◌, ◌+◌, ◌-◌, ◌^◌, ◌≤◌, ℕ, [], ◌∷◌, ◌++◌, length, drop, IsTrue, IfOk, OnOk, OnErr, Some};
ghost use Rattle.hd_facts.specs.Counts.{one_more};
ghost use Rattle.hw_door.specs.declared.error.DoorError.TheVariants.{Failed};
ghost use Rattle.hw_door.specs.Calls.{IsCaused, HasFaultCause, Hears, Says, Sends, IsLater, is_listed, with_heard};
ghost use Rattle.hw_door.specs.Memory.{MemoryScript, NeverFalls, ScriptFails, FailsIf, script_of, next_of, fills, after_error, after_next, after_saying, after_sending};

use crate::copies::copy_heard;
use crate::error::DoorError;
use crate::heard::{Event, Given, Heard};
use crate::listed::is_listed;
use std::alloc::{AllocError, Global};
use std::collections::VecDeque;
use std::marker::Model;

/// The calls are counted from 0, those that fail among them, and not those that are out of memory. The count holds 64 bits and stays
/// at 2^64 - 1.
#[derive(Drop)]
pub struct Scripted {
    left: VecDeque<Heard>,
    heard: Vec<Heard>,
    waits: Vec<u64>,
    given: Vec<Given>,
    full: Vec<bool>,
    moment: u64,
    failing: Vec<u64>,
    filling: Vec<u64>,
    calls: u64,
    faults: u64,
}

impl Model for Scripted {
    ghost use Rattle.hw_door.specs.Memory.{MemoryScript, NeverFalls};

    ghost Value = { MemoryScript };

    ghost view = { λ s. record {
      left = s.left.items;
      trace = record {
        heard = s.heard.items;
        waits = s.waits.items;
        given = s.given.items;
        said = s.given.items;
        full = s.full.items;
      };
      moment = s.moment;
      failing = s.failing.items;
      filling = s.filling.items;
      calls = s.calls;
      faults = s.faults;
    } };

    ghost invariant = { λ s. NeverFalls s.moment s.left.items };
}

impl Scripted {
    pub fn start(heard: Vec<Heard>, failing: Vec<u64>, filling: Vec<u64>) -> Scripted
        requires { NeverFalls 0 heard.items }
        ensures { result ≡ script_of heard.items failing.items filling.items }
    {
        let alloc = *heard.allocator();
        Scripted {
            left: VecDeque::from_vec(heard),
            heard: Vec::new(alloc),
            waits: Vec::new(alloc),
            given: Vec::new(alloc),
            full: Vec::new(alloc),
            moment: 0,
            failing,
            filling,
            calls: 0,
            faults: 0,
        }
    }

    /// Lends what it was given to say, in order.
    pub fn given(&self) -> &[Given]
        ensures { result.now ≡ self.now.trace.given }
    {
        self.given.as_slice()
    }

    pub fn allocator(&self) -> Global {
        *self.given.allocator()
    }

    /// Whether the next call is one that is to fail.
    fn is_to_fail(&self) -> bool
        ensures { result ≡ is_listed self.now.failing self.now.calls }
    {
        is_listed(&self.failing, self.calls)
    }

    /// Whether the next message leaves its lane full.
    fn fills(&self) -> bool
        ensures { result ≡ fills self.now }
    {
        is_listed(&self.filling, self.full.len() as u64)
    }

    /// Fails this call.
    fn fail(&mut self) -> DoorError
        ensures failed { result ≡ Failed }
        ensures cause { IsCaused self.old.faults self.new.faults result }
        ensures after { self.new ≡ after_error Failed self.old }
    {
        self.calls = self.calls.saturating_add(1);
        self.faults = self.faults.saturating_add(1);
        DoorError::Failed
    }

    /// A copy of what is heard next.
    fn copy_next(&self) -> Result<Heard, AllocError>
        ensures { IfOk result (λ heard. heard ≡ next_of self.now.left self.now.moment) }
    {
        match self.left.front() {
            Some(heard) => copy_heard(heard),
            None => Ok(Heard {
                now: self.moment,
                event: Event::Quiet,
            }),
        }
    }

    /// Keeps what is heard, and the wait for it, or neither.
    fn keep(&mut self, heard: Heard, wait: u64) -> Result<(), AllocError>
        ensures ok { OnOk result (self.new ≡ record self.old { trace = with_heard wait heard self.old.trace }) }
        ensures err { OnErr result (self.new ≡ self.old) }
    {
        self.heard.reserve(1)?;
        self.waits.push(wait)?;
        self.heard.push(heard).unwrap();
        Ok(())
    }

    /// Takes what is heard next.
    fn take_next(&mut self) -> Heard
        ensures heard { result ≡ next_of self.old.left self.old.moment }
        ensures later { self.old.moment ≤ result.now }
        ensures after { self.new ≡ record self.old {
          left = drop 1 self.old.left;
          moment = result.now;
          calls = one_more self.old.calls;
        } }
    {
        self.calls = self.calls.saturating_add(1);
        match self.left.pop_front() {
            Some(heard) => {
                self.moment = heard.now;
                heard
            }
            None => Heard {
                now: self.moment,
                event: Event::Quiet,
            },
        }
    }

    /// Gives what is heard next, and keeps a copy.
    pub fn next(&mut self, wait: u64) -> Result<Heard, DoorError>
        ensures gives { IfOk result (λ heard. heard ≡ next_of self.old.left self.old.moment) }
        ensures fails { FailsIf (ScriptFails self.old) result }
        ensures after { self.new ≡ after_next wait result self.old }
        ensures heard { Hears (Some self.old.trace) (Some self.new.trace) wait result }
        ensures later { IsLater self.old.moment self.new.moment result }
        ensures cause { HasFaultCause self.old.faults self.new.faults result }
    {
        if self.is_to_fail() {
            return Err(self.fail());
        }
        let copy = self.copy_next()?;
        self.keep(copy, wait)?;
        Ok(self.take_next())
    }

    /// Keeps what it is given to say.
    pub fn say(&mut self, given: Given) -> Result<(), DoorError>
        ensures fails { FailsIf (ScriptFails self.old) result }
        ensures after { self.new ≡ after_saying (λ done. given) result self.old }
        ensures given { Says (Some self.old.trace) (Some self.new.trace) (λ done. given) result }
        ensures cause { HasFaultCause self.old.faults self.new.faults result }
    {
        if self.is_to_fail() {
            return Err(self.fail());
        }
        self.given.push(given)?;
        self.calls = self.calls.saturating_add(1);
        Ok(())
    }

    /// Keeps the message that it is given, and what it answers to it.
    pub fn send(&mut self, given: Given) -> Result<bool, DoorError>
        ensures fails { FailsIf (ScriptFails self.old) result }
        ensures answers { IfOk result (λ full. full ≡ fills self.old) }
        ensures after { self.new ≡ after_sending given result self.old }
        ensures given { Sends (Some self.old.trace) (Some self.new.trace) given result }
        ensures cause { HasFaultCause self.old.faults self.new.faults result }
    {
        if self.is_to_fail() {
            return Err(self.fail());
        }
        let full = self.fills();
        self.full.reserve(1)?;
        self.given.push(given)?;
        self.full.push(full).unwrap();
        self.calls = self.calls.saturating_add(1);
        Ok(full)
    }
}
