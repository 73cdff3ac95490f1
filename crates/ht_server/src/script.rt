//! The lines of a script, and the server of which they speak.

use crate::events::heard_of;
use crate::show::{all_given, all_said};
use hd_server::{LiveLimit, Said};
use hk_keeper::MemoryKeeper;
use ht_forms::never_falls;
use ht_kit::{Play, Stop, count, first_word, number, numbers};
use hub_demo::ServeHub;
use hub_server::{ResendLimits, ServeFault, Server, serve};
use hv_value::Text;
use hw_door::{Heard, MemoryDoor, MemoryLots};
use std::alloc::{AllocError, Global};
use std::mem;

/// A server of rooms and calculations, with its keeper and its lots.
#[derive(Drop)]
pub struct Bench {
    alloc: Global,
    /// How much an end of the next server holds.
    resend: ResendLimits,
    /// How many connections of the next server may live.
    live: LiveLimit,
    server: Server<ServeHub>,
    hub: ServeHub,
    keeper: MemoryKeeper,
    lots: MemoryLots,
    heard: Vec<Heard>,
}

impl Bench {
    /// A server without users, whose keeper and lots never fail.
    pub fn start(alloc: Global) -> Result<Bench, AllocError> {
        let resend = ResendLimits::usual();
        let live = LiveLimit::usual();
        Ok(Bench {
            alloc,
            resend,
            live,
            server: Server::start(alloc, Text::of(alloc, "/hub")?, resend, live)?,
            hub: ServeHub::new(),
            keeper: MemoryKeeper::start(alloc, Vec::new(alloc), Vec::new(alloc))?,
            lots: MemoryLots::start(Vec::new(alloc), Vec::new(alloc)),
            heard: Vec::new(alloc),
        })
    }

    fn start_anew(&mut self, words: &str) -> Result<String, Stop> {
        let alloc = self.alloc;
        let (keeper, rest) = first_word(words);
        let (lots, users) = first_word(rest);
        self.server = Server::start(alloc, Text::of(alloc, "/hub")?, self.resend, self.live)?;
        self.keeper = MemoryKeeper::start(alloc, users_of(alloc, users)?, numbers(alloc, keeper)?)?;
        self.lots = MemoryLots::start(draws(alloc)?, numbers(alloc, lots)?);
        Ok(String::from_str(alloc, "a server")?)
    }

    fn resend(&mut self, words: &str) -> Result<String, Stop> {
        let (messages, bytes) = first_word(words);
        let answer = match ResendLimits::of(count(messages)?, count(bytes)?) {
            Some(resend) => {
                self.resend = resend;
                "so much"
            }
            None => "out of range",
        };
        Ok(String::from_str(self.alloc, answer)?)
    }

    fn live(&mut self, words: &str) -> Result<String, Stop> {
        let answer = match LiveLimit::of(number(words)?) {
            Some(live) => {
                self.live = live;
                "so many"
            }
            None => "out of range",
        };
        Ok(String::from_str(self.alloc, answer)?)
    }

    /// The server hears an event, says something, and notes the door's answers: of these lanes that they are full.
    fn step(&mut self, full: &[u64], words: &str) -> Result<String, Stop> {
        let heard = heard_of(self.alloc, words)?;
        let said = self.server.step(
            self.alloc,
            heard,
            &self.hub,
            &mut self.keeper,
            &mut self.lots,
        )?;
        self.note_answers(&said, full);
        Ok(all_said(self.alloc, &said)?)
    }

    /// The server notes an answer to each message that it said.
    fn note_answers(&mut self, said: &[Said], full: &[u64]) {
        for word in said {
            if let Said::Bytes { lane, .. } = word {
                let is_full = full.iter().any(|number| number == lane);
                self.server.note_sent(*lane, is_full);
            }
        }
    }

    fn step_filling(&mut self, words: &str) -> Result<String, Stop> {
        let (lanes, rest) = first_word(words);
        let full = numbers(self.alloc, lanes)?;
        self.step(&full, rest)
    }

    fn hear(&mut self, words: &str) -> Result<String, Stop> {
        let heard = heard_of(self.alloc, words)?;
        self.heard.push(heard)?;
        Ok(String::from_str(self.alloc, "to be heard")?)
    }

    fn serve(&mut self, words: &str) -> Result<String, Stop> {
        let alloc = self.alloc;
        let (turns, rest) = first_word(words);
        let (failing, filling) = first_word(rest);
        let heard = mem::replace(&mut self.heard, Vec::new(alloc));
        if !never_falls(&heard) {
            return Err(Stop::Refused);
        }
        let mut door = MemoryDoor::start(heard, numbers(alloc, failing)?, numbers(alloc, filling)?);
        let served = serve(
            alloc,
            &mut self.server,
            &self.hub,
            &mut door,
            &mut self.keeper,
            &mut self.lots,
            number(turns)?,
        );
        let given = all_given(alloc, door.given())?;
        match served {
            Ok(()) => Ok(format!(in alloc; "served: {given}")?),
            Err(ServeFault::Door) => Ok(format!(in alloc; "the door failed: {given}")?),
            Err(ServeFault::NoMemory) => Err(Stop::NoMemory),
        }
    }
}

impl Play for Bench {
    fn carry_out(&mut self, line: &str) -> Result<String, Stop> {
        let (word, rest) = first_word(line);
        match word {
            "server" => self.start_anew(rest),
            "resend" => self.resend(rest),
            "live" => self.live(rest),
            "idle" => Ok(format!(in self.alloc; "{}", self.server.idle())?),
            "hear" => self.hear(rest),
            "serve" => self.serve(rest),
            "full" => self.step_filling(rest),
            _ => self.step(&[], line),
        }
    }
}

/// Users whose access tokens are their names, with a comma between two, or none for `-`.
fn users_of(alloc: Global, words: &str) -> Result<Vec<(Text, Text)>, Stop> {
    let mut users = Vec::new(alloc);
    if words == "-" {
        return Ok(users);
    }
    for name in words.split(',') {
        users.push((Text::of(alloc, name)?, Text::of(alloc, name)?))?;
    }
    Ok(users)
}

/// A hundred draws, the n-th of which is sixteen times the byte n.
fn draws(alloc: Global) -> Result<Vec<[u8; 16]>, Stop> {
    let mut draws = Vec::new(alloc);
    for n in 0..100 {
        draws.push([n; 16])?;
    }
    Ok(draws)
}
