//! The lines of a script, and the front that they speak to.

use crate::{asking, noting};
use hd_server::LiveLimit;
use hn_server_front::Front;
use ht_kit::{Play, Stop, first_word, number};
use std::alloc::{AllocError, Global};

/// A front.
#[derive(Drop)]
pub struct Bench {
    alloc: Global,
    front: Front,
}

impl Bench {
    /// A front without connections.
    pub fn start(alloc: Global) -> Result<Bench, AllocError> {
        Ok(Bench {
            alloc,
            front: Front::start(alloc, LiveLimit::usual())?,
        })
    }

    fn start_anew(&mut self, words: &str) -> Result<String, Stop> {
        let live = if words.is_empty() {
            LiveLimit::usual()
        } else {
            LiveLimit::of(number(words)?).ok_or(Stop::Refused)?
        };
        self.front = Front::start(self.alloc, live)?;
        Ok(String::from_str(self.alloc, "a front")?)
    }

    /// What changes no connection is asked, and the rest noted.
    fn ask(&mut self, word: &str, words: &str) -> Result<String, Stop> {
        match word {
            "route" => asking::route(self.alloc, &self.front, words),
            "life" => asking::life(self.alloc, &self.front, words),
            "conn" => asking::conn(self.alloc, &self.front, words),
            "at" => asking::life_at(self.alloc, &self.front, words),
            "held" => asking::held(self.alloc, &self.front, words),
            "promised" => self.yes_or_no(self.front.is_resumable_promise(number(words)?)),
            "busy" => self.yes_or_no(self.front.busy(number(words)?)),
            _ => {
                noting::note(&mut self.front, word, words)?;
                Ok(String::from_str(self.alloc, "noted")?)
            }
        }
    }

    fn yes_or_no(&self, is_so: bool) -> Result<String, Stop> {
        let word = if is_so { "yes" } else { "no" };
        Ok(String::from_str(self.alloc, word)?)
    }
}

impl Play for Bench {
    fn carry_out(&mut self, line: &str) -> Result<String, Stop> {
        let (word, rest) = first_word(line);
        match word {
            "front" => self.start_anew(rest),
            "negotiate" => asking::negotiate(self.alloc, &mut self.front, true, rest),
            "sockets" => asking::negotiate(self.alloc, &mut self.front, false, rest),
            "open" => asking::open(self.alloc, &mut self.front, rest),
            "many" => asking::open_many(self.alloc, &mut self.front, false, rest),
            "used" => asking::open_many(self.alloc, &mut self.front, true, rest),
            "expired" => asking::expired(self.alloc, &mut self.front, rest),
            _ => self.ask(word, rest),
        }
    }
}
