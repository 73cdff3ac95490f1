//! A keeper in memory, which tells all and fails at chosen calls.

ghost use Rattle.std.specs.Prelude.{◌≡◌, ◌+◌, ◌-◌, ◌^◌, ◌<◌, ◌≤◌, ◌↔◌, ℕ, [], ◌∷◌, ◌++◌, length, drop, Contains, IsTrue, IfOk, IsOkAnd, OnOk, OnErr, IfSome, Some, option_map, is_none, is_some, if◌then◌else◌};
ghost use Rattle.hd_rooms.specs.declared.vocabulary.Asked.TheVariants.{User, Rows, Log, History, AddUser};
ghost use Rattle.hd_rooms.specs.Kept.{name_of, row_count, recalled, texts_of_room, with_row, with_user};
ghost use Rattle.hk_keeper.specs.Calls.{HasFaultCause, IsCaused, IsErrorNoted, IsNoted};
ghost use Rattle.hk_keeper.specs.Memory.{MemoryContent, KeeperFails, FailsIf, after_call, after_error, with_asked};

use crate::copies::{copy_asks, copy_rows, copy_text, copy_users};
use crate::keeper::{KeepError, Keeper};
use crate::reading::{is_unknown, last_texts, name_with};
use hd_rooms::{Asked, Row};
use hv_value::{Text, Texts};
use std::alloc::{AllocError, Global};
use std::marker::Model;

/// A keeper in memory. It notes all that it is asked and what it answers, which takes memory at each call.
///
/// The calls are counted from 0, those that fail among them, and not those that are out of memory.
#[derive(Drop)]
pub struct MemoryKeeper {
    users: Vec<(Text, Text)>,
    rows: Vec<Row>,
    asked: Vec<Asked>,
    failing: Vec<u64>,
    faults: u64,
}

impl Model for MemoryKeeper {
    ghost use Rattle.hk_keeper.specs.Memory.{MemoryContent};

    ghost Value = { MemoryContent };

    ghost view = { λ k. record {
      kept = record { users = k.users.items; rows = k.rows.items };
      asked = k.asked.items;
      failing = k.failing.items;
      faults = k.faults;
    } };
}

/// Tells whether the call of this number is one that is to fail.
fn is_among(failing: &[u64], call: u64) -> bool
    ensures { IsTrue result ↔ Contains failing.now call }
{
    failing.contains(&call)
}

impl MemoryKeeper {
    /// Makes a keeper with these users, pairs of access token and name, and no rows, that fails at the calls of the numbers in
    /// `failing`, in any order.
    pub fn start(
        alloc: Global,
        users: Vec<(Text, Text)>,
        failing: Vec<u64>,
    ) -> Result<MemoryKeeper, AllocError>
        ensures { IsOkAnd result (λ k. k ≡ record {
          kept = record { users = users.items; rows = [] };
          asked = [];
          failing = failing.items;
          faults = 0;
        }) }
    {
        Ok(MemoryKeeper {
            users,
            rows: Vec::new(alloc),
            asked: Vec::new(alloc),
            failing,
            faults: 0,
        })
    }

    /// A copy, with all that was asked. It takes no `alloc`: the keeper keeps its own.
    pub fn copy(&self) -> Result<MemoryKeeper, AllocError>
        ensures { IfOk result (λ k. k ≡ self.now) }
    {
        let alloc = *self.asked.allocator();
        Ok(MemoryKeeper {
            users: copy_users(alloc, &self.users)?,
            rows: copy_rows(alloc, &self.rows)?,
            asked: copy_asks(alloc, &self.asked)?,
            failing: self.failing.clone()?,
            faults: self.faults,
        })
    }

    /// Lends what it was asked and what it answered, in order.
    pub fn was_asked(&self) -> &[Asked]
        ensures { result.now ≡ self.now.asked }
    {
        self.asked.as_slice()
    }

    /// Whether the next call is one that is to fail.
    fn is_to_fail(&self) -> bool
        ensures { IsTrue result ↔ KeeperFails self.now }
    {
        is_among(&self.failing, self.asked.len() as u64)
    }

    /// Fails this call.
    fn fail(&mut self, ask: Asked) -> KeepError
        ensures unchanged { self.new.kept ≡ self.old.kept }
        ensures noted { IsErrorNoted (Some self.old.asked) (Some self.new.asked) ask result }
        ensures cause { IsCaused self.old.faults self.new.faults result }
        ensures after { self.new ≡ after_error ask result self.old }
    {
        match self.asked.push(ask) {
            Ok(()) => {
                self.faults = self.faults.saturating_add(1);
                KeepError::Failed
            }
            Err(_) => KeepError::NoMemory,
        }
    }

    /// Notes a call that leaves all that is kept as it is.
    fn note(&mut self, ask: Asked) -> Result<(), AllocError>
        ensures ok { OnOk result (self.new ≡ with_asked ask self.old) }
        ensures err { OnErr result (self.new ≡ self.old) }
    {
        self.asked.push(ask)?;
        Ok(())
    }

    /// Adds a row and notes that, or does neither.
    fn keep_row(&mut self, row: Row, ask: Asked) -> Result<(), AllocError>
        ensures ok { OnOk result
            (self.new ≡ with_asked ask (record self.old { kept = with_row row.room row.who row.text self.old.kept })) }
        ensures err { OnErr result (self.new ≡ self.old) }
    {
        self.rows.reserve(1)?;
        self.asked.push(ask)?;
        self.rows.push(row).unwrap();
        Ok(())
    }

    /// Adds a user and notes that, or does neither.
    fn keep_user(&mut self, token: Text, name: Text, ask: Asked) -> Result<(), AllocError>
        ensures ok { OnOk result
            (self.new ≡ with_asked ask (record self.old { kept = with_user token name self.old.kept })) }
        ensures err { OnErr result (self.new ≡ self.old) }
    {
        self.users.reserve(1)?;
        self.asked.push(ask)?;
        self.users.push((token, name)).unwrap();
        Ok(())
    }
}

impl Keeper for MemoryKeeper {
    ghost holds = { λ k. Some k.kept };

    ghost answers = { λ k. Some k.asked };

    ghost faults = { λ k. k.faults };

    /// Looks at the users one after the other. It fails exactly at the calls that are to fail.
    fn user_of(&mut self, alloc: Global, token: &Text) -> Result<Option<Text>, KeepError>
        ensures first { IfOk result
            (λ name. IfSome (Some self.old.kept) (λ kept. name ≡ name_of token.now kept.users)) }
        ensures unchanged { Some self.new.kept ≡ Some self.old.kept }
        ensures noted { IsNoted (Some self.old.asked) (Some self.new.asked) (User token.now) result }
        ensures cause { HasFaultCause self.old.faults self.new.faults result }
        ensures fails { FailsIf (KeeperFails self.old) result }
        ensures after { self.new ≡ after_call (User token.now) (λ name. self.old.kept) result self.old }
    {
        if self.is_to_fail() {
            let ask = Asked::User {
                token: token.copy()?,
                name: None,
            };
            return Err(self.fail(ask));
        }
        let name = name_with(&self.users, token)?;
        let ask = Asked::User {
            token: token.copy()?,
            name: Some(copy_text(&name)?),
        };
        self.note(ask)?;
        Ok(name)
    }

    /// It fails exactly at the calls that are to fail.
    fn rows(&mut self) -> Result<u64, KeepError>
        ensures count { IfOk result
            (λ count. IfSome (Some self.old.kept) (λ kept. count ≡ row_count kept.rows)) }
        ensures unchanged { Some self.new.kept ≡ Some self.old.kept }
        ensures noted { IsNoted (Some self.old.asked) (Some self.new.asked) Rows result }
        ensures cause { HasFaultCause self.old.faults self.new.faults result }
        ensures fails { FailsIf (KeeperFails self.old) result }
        ensures after { self.new ≡ after_call Rows (λ count. self.old.kept) result self.old }
    {
        if self.is_to_fail() {
            return Err(self.fail(Asked::Rows { count: None }));
        }
        let count = self.rows.len() as u64;
        self.note(Asked::Rows { count: Some(count) })?;
        Ok(count)
    }

    /// It fails exactly at the calls that are to fail.
    fn log(&mut self, alloc: Global, room: &Text, who: &Text, text: &Text) -> Result<(), KeepError>
        ensures added { OnOk result
            (Some self.new.kept ≡ option_map (with_row room.now who.now text.now) (Some self.old.kept)) }
        ensures unchanged { OnErr result (Some self.new.kept ≡ Some self.old.kept) }
        ensures noted { IsNoted (Some self.old.asked) (Some self.new.asked)
            (λ done. Log room.now who.now text.now (is_some done)) result }
        ensures cause { HasFaultCause self.old.faults self.new.faults result }
        ensures fails { FailsIf (KeeperFails self.old) result }
        ensures after { self.new ≡ after_call (λ done. Log room.now who.now text.now (is_some done))
            (λ done. with_row room.now who.now text.now self.old.kept) result self.old }
    {
        let is_resumable = !self.is_to_fail();
        let ask = Asked::Log {
            room: room.copy()?,
            who: who.copy()?,
            text: text.copy()?,
            is_resumable,
        };
        if !is_resumable {
            return Err(self.fail(ask));
        }
        let row = Row {
            room: room.copy()?,
            who: who.copy()?,
            text: text.copy()?,
        };
        self.keep_row(row, ask)?;
        Ok(())
    }

    /// Looks at all rows. It fails exactly at the calls that are to fail.
    fn history(&mut self, alloc: Global, room: &Text, most: u32) -> Result<Texts, KeepError>
        ensures last { IfOk result
            (λ texts. IfSome (Some self.old.kept) (λ kept. texts ≡ recalled room.now most kept.rows)) }
        ensures unchanged { Some self.new.kept ≡ Some self.old.kept }
        ensures noted { IsNoted (Some self.old.asked) (Some self.new.asked) (History room.now most) result }
        ensures cause { HasFaultCause self.old.faults self.new.faults result }
        ensures fails { FailsIf (KeeperFails self.old) result }
        ensures after { self.new ≡ after_call (History room.now most) (λ texts. self.old.kept) result self.old }
    {
        if self.is_to_fail() {
            let ask = Asked::History {
                room: room.copy()?,
                most,
                texts: None,
            };
            return Err(self.fail(ask));
        }
        let texts = last_texts(alloc, &self.rows, room, most)?;
        let ask = Asked::History {
            room: room.copy()?,
            most,
            texts: Some(texts.copy()?),
        };
        self.note(ask)?;
        Ok(texts)
    }

    /// It fails exactly at the calls that are to fail.
    fn add_user(&mut self, alloc: Global, token: &Text, name: &Text) -> Result<bool, KeepError>
        ensures is_new { IfOk result
            (λ new. IfSome (Some self.old.kept) (λ kept. new ≡ is_none (name_of token.now kept.users))) }
        ensures added { IfOk result
            (λ new. Some self.new.kept ≡ (if new then option_map (with_user token.now name.now) (Some self.old.kept)
            else Some self.old.kept)) }
        ensures unchanged { OnErr result (Some self.new.kept ≡ Some self.old.kept) }
        ensures noted { IsNoted (Some self.old.asked) (Some self.new.asked) (AddUser token.now name.now) result }
        ensures cause { HasFaultCause self.old.faults self.new.faults result }
        ensures fails { FailsIf (KeeperFails self.old) result }
        ensures after { self.new ≡ after_call (AddUser token.now name.now)
            (λ new. if new then with_user token.now name.now self.old.kept else self.old.kept) result self.old }
    {
        if self.is_to_fail() {
            let ask = Asked::AddUser {
                token: token.copy()?,
                name: name.copy()?,
                is_new: None,
            };
            return Err(self.fail(ask));
        }
        let is_new = is_unknown(&self.users, token);
        let ask = Asked::AddUser {
            token: token.copy()?,
            name: name.copy()?,
            is_new: Some(is_new),
        };
        if !is_new {
            self.note(ask)?;
            return Ok(false);
        }
        self.keep_user(token.copy()?, name.copy()?, ask)?;
        Ok(true)
    }
}
