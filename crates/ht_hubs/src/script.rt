//! The lines of a script, and what they speak to.

use crate::groups::Groups;
use crate::{hubs, keeper};
use hk_keeper::MemoryKeeper;
use hk_sqlite::SqlKeeper;
use ht_kit::{Play, Stop, first_word};
use sqlite::MemStore;
use std::alloc::{AllocError, Global};

/// A registry and two keepers. Hubs keep nothing.
#[derive(Drop)]
pub struct Bench {
    alloc: Global,
    groups: Groups,
    keeper: MemoryKeeper,
    database: Option<SqlKeeper<MemStore>>,
}

impl Bench {
    pub fn start(alloc: Global) -> Result<Bench, AllocError> {
        Ok(Bench {
            alloc,
            groups: Groups::start(alloc)?,
            keeper: MemoryKeeper::start(alloc, Vec::new(alloc), Vec::new(alloc))?,
            database: None,
        })
    }

    /// Makes a new keeper, or asks the one that is there.
    fn ask_keeper(&mut self, words: &str) -> Result<String, Stop> {
        let (word, rest) = first_word(words);
        match word {
            "copy" => keeper::copy(self.alloc, &self.keeper),
            "new" => {
                self.keeper = keeper::start(self.alloc, rest)?;
                Ok(String::from_str(self.alloc, "a keeper")?)
            }
            _ => keeper::ask(self.alloc, &mut self.keeper, words),
        }
    }

    /// Makes a new database, or asks the keeper in the one that is there.
    fn ask_database(&mut self, words: &str) -> Result<String, Stop> {
        if words == "new" {
            self.database = Some(keeper::start_in_database(self.alloc)?);
            return Ok(String::from_str(self.alloc, "a database")?);
        }
        match &mut self.database {
            Some(keeper) => keeper::ask(self.alloc, keeper, words),
            None => Err(Stop::Refused),
        }
    }
}

impl Play for Bench {
    fn carry_out(&mut self, line: &str) -> Result<String, Stop> {
        let (word, rest) = first_word(line);
        match word {
            "count" => hubs::count_numbers(self.alloc, rest),
            "groups" => self.groups.ask(self.alloc, rest),
            "keeper" => self.ask_keeper(rest),
            "database" => self.ask_database(rest),
            _ => hubs::play(self.alloc, word, rest),
        }
    }
}
