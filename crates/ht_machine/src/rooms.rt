//! A machine of the rooms hub, whose connections' links are the lines of a script:
//!
//! ```text
//! machine FRAMES FAULTS              a machine without connections, each of which has room for so many frames; the keeper fails at the calls
//!                                    of these numbers, which count from 0
//! connect CONN VERSION WHO USER      a connection gets its peer, which may come back if VERSION isn't 1; it is no user's if USER is `-`
//! attach CONN NOW                    a link begins
//! detach CONN NOW                    it is lost
//! hear CONN NOW TEXT                 the text and its separator come: what was taken, one after the other
//! hear-bytes CONN NOW DIGITS         the same of these bytes
//! tick CONN NOW                      a moment comes
//! close CONN                         its end is closed
//! drop CONN                          nothing is kept of it
//! round NOW                          a round
//! said CONN                          all that is due, with `|` for each separator
//! said-bytes CONN                    the same as digits
//! state CONN                         what its end can do, if it is there
//! asked                              how often the keeper was asked
//! ```
//!
//! Digits are hexadecimal.

ghost use Rattle.std.specs.Prelude.{◌≡◌, ◌<◌};

use hd_delivery::{Reason, State};
use he_end::{Config, Steps};
use hk_keeper::MemoryKeeper;
use hm_message::Codec;
use hp_peer::{Did, PeerError};
use hq_resend::Limits;
use ht_kit::{Stop, first_word, from_digits, number, numbers};
use hub_machine::Machine;
use hub_rooms::RoomsHub;
use hv_value::Text;
use std::alloc::{AllocError, Global};
use std::marker::Brand;
use std::sync::ledger::{Blank, Ledger};

const MOST_FRAME: usize = 32_768;

const MOST_BYTES: usize = 1_048_576;

const SEPARATOR: u8 = 0x1e;

/// A machine, with its hub and its keeper.
#[derive(Drop)]
pub struct Rooms {
    alloc: Global,
    frames: usize,
    machine: Machine<RoomsHub>,
    hub: RoomsHub,
    keeper: MemoryKeeper,
}

impl Rooms {
    /// No connections, which have room for so many frames; a keeper without rows that fails at these of its calls.
    pub fn start(alloc: Global, frames: usize, failing: Vec<u64>) -> Result<Rooms, AllocError> {
        Ok(Rooms {
            alloc,
            frames,
            machine: Machine::start(alloc)?,
            hub: RoomsHub,
            keeper: MemoryKeeper::start(alloc, Vec::new(alloc), failing)?,
        })
    }

    /// Carries out an action, and answers what comes of it.
    pub fn act(&mut self, verb: &str, words: &str) -> Result<String, Stop> {
        match verb {
            "machine" => self.start_anew(words),
            "connect" => self.connect(words),
            "attach" => self.attach(words),
            "detach" => self.detach(words),
            "hear" => self.hear(words),
            "hear-bytes" => self.hear_bytes(words),
            "tick" => self.tick(words),
            "close" => self.close(words),
            "drop" => self.drop_conn(words),
            "round" => self.round(words),
            "said" => self.said(words),
            "said-bytes" => self.said_bytes(words),
            "state" => self.state(words),
            "asked" => Ok(format!(in self.alloc; "asked {}", self.keeper.was_asked().len())?),
            _ => Err(Stop::Refused),
        }
    }

    fn start_anew(&mut self, words: &str) -> Result<String, Stop> {
        let (frames, failing) = first_word(words);
        let failing = numbers(self.alloc, failing)?;
        let frames = number(frames)? as usize;
        *self = Rooms::start(self.alloc, frames, failing)?;
        Ok(String::from_str(self.alloc, "a machine")?)
    }

    fn connect(&mut self, words: &str) -> Result<String, Stop> {
        let (conn, rest) = first_word(words);
        let (version, rest) = first_word(rest);
        let (who, user) = first_word(rest);
        let alloc = self.alloc;
        let config = Config {
            codec: Codec::Json,
            version: 1,
            reconnect: number(version)? > 1,
            limits: Limits::of(MOST_FRAME, self.frames, MOST_BYTES).ok_or(Stop::Refused)?,
        };
        let conn = number(conn)?;
        let who = Text::of(alloc, who)?;
        let user_name = Text::of(alloc, user)?;
        let user = if user == "-" { None } else { Some(&user_name) };
        self.machine.connect(alloc, conn, config, who, user)?;
        Ok(String::from_str(alloc, "a connection")?)
    }

    fn attach(&mut self, words: &str) -> Result<String, Stop> {
        let (conn, now) = first_word(words);
        match self.machine.attach(number(conn)?, number(now)?) {
            Ok(()) => Ok(String::from_str(self.alloc, "a link")?),
            Err(error) => Ok(format!(in self.alloc; "refused {error}")?),
        }
    }

    fn detach(&mut self, words: &str) -> Result<String, Stop> {
        let (conn, now) = first_word(words);
        self.machine.detach(number(conn)?, number(now)?);
        Ok(String::from_str(self.alloc, "lost")?)
    }

    fn tick(&mut self, words: &str) -> Result<String, Stop> {
        let (conn, now) = first_word(words);
        let word = if self.machine.tick(number(conn)?, number(now)?) {
            "silent"
        } else {
            "ticked"
        };
        Ok(String::from_str(self.alloc, word)?)
    }

    fn close(&mut self, words: &str) -> Result<String, Stop> {
        self.machine.close(number(words)?, Reason::Done);
        Ok(String::from_str(self.alloc, "closed")?)
    }

    fn drop_conn(&mut self, words: &str) -> Result<String, Stop> {
        self.machine.remove_conn(number(words)?);
        Ok(String::from_str(self.alloc, "dropped")?)
    }

    // ---- what comes

    fn hear(&mut self, words: &str) -> Result<String, Stop> {
        let (conn, rest) = first_word(words);
        let (now, text) = first_word(rest);
        let (conn, now) = (number(conn)?, number(now)?);
        let mut bytes = Vec::from_slice(self.alloc, text.as_bytes())?;
        bytes.push(SEPARATOR)?;
        self.feed(conn, now, &bytes)
    }

    fn hear_bytes(&mut self, words: &str) -> Result<String, Stop> {
        let (conn, rest) = first_word(words);
        let (now, digits) = first_word(rest);
        let bytes = from_digits(self.alloc, digits)?;
        self.feed(number(conn)?, number(now)?, &bytes)
    }

    fn feed(&mut self, conn: u64, now: u64, bytes: &[u8]) -> Result<String, Stop> {
        let taken = self.machine.feed(conn, bytes);
        let mut answer = format!(in self.alloc; "fed {taken}")?;
        self.take_all(conn, now, &mut answer)?;
        Ok(answer)
    }

    /// Takes whatever is there, a frame for each byte at most.
    fn take_all(&mut self, conn: u64, now: u64, answer: &mut String) -> Result<(), Stop> {
        for _taken in 0..MOST_FRAME {
            let Some(word) = self.take_one(conn, now)? else {
                return Ok(());
            };
            answer.push_str(word)?;
        }
        Ok(())
    }

    fn take_one(&mut self, conn: u64, now: u64) -> Result<Option<&'static str>, Stop> {
        match self.machine.take(self.alloc, &self.hub, conn, now) {
            Ok(None) => Ok(None),
            Ok(Some(did)) => Ok(Some(did_word(&did))),
            Err(PeerError::NoMemory) => Err(Stop::NoMemory),
            Err(_) => Ok(Some(" fault")),
        }
    }

    // ---- rounds

    fn round(&mut self, words: &str) -> Result<String, Stop> {
        let now = number(words)?;
        self.round_with::<Brand>(now, Blank::new(1))?;
        Ok(String::from_str(self.alloc, "a round")?)
    }

    /// A round whose spellings are counted from this blank.
    fn round_with<L: Ledger>(&mut self, now: u64, blank: Blank) -> Result<(), AllocError>
        requires name { blank.name ≡ L.name }
        requires parts { blank.parts ≡ L.parts }
        requires some { 0 < L.parts }
    {
        let mut steps = Steps::<L>::start(blank);
        self.machine
            .round(self.alloc, &self.hub, &mut self.keeper, &mut steps, now)
    }

    // ---- what is said

    fn said(&mut self, words: &str) -> Result<String, Stop> {
        let bytes = self.say_all(number(words)?)?;
        text_of(self.alloc, &bytes)
    }

    fn said_bytes(&mut self, words: &str) -> Result<String, Stop> {
        let bytes = self.say_all(number(words)?)?;
        let digits = hex::encode(self.alloc, bytes.as_slice())?;
        Ok(format!(in self.alloc; "said {digits}")?)
    }

    /// All that is due.
    fn say_all(&mut self, conn: u64) -> Result<Vec<u8>, AllocError> {
        let mut bytes = Vec::new(self.alloc);
        for _said in 0..MOST_FRAME {
            if !self.machine.say(conn, &mut bytes)? {
                break;
            }
        }
        Ok(bytes)
    }

    fn state(&self, words: &str) -> Result<String, Stop> {
        let word = match self.machine.peer(number(words)?) {
            Some(peer) => state_word(peer.end().state()),
            None => "none",
        };
        Ok(String::from_str(self.alloc, word)?)
    }
}

/// Frames of JSON, with `|` for each separator.
fn text_of(alloc: Global, bytes: &[u8]) -> Result<String, Stop> {
    let mut text = String::from_str(alloc, "said ")?;
    for &byte in bytes {
        let shown = if byte == SEPARATOR {
            '|'
        } else {
            char::from(byte)
        };
        text.push(shown)?;
    }
    Ok(text)
}

fn did_word(did: &Did) -> &'static str {
    match did {
        Did::Began { .. } => " began",
        Did::Item { .. } => " item",
        Did::Ended { .. } => " ended",
        Did::Fed(_) => " fed",
        Did::Cancelled(_) => " cancelled",
        Did::Unknown(_) => " unknown",
        Did::Other(_) => " other",
    }
}

fn state_word(state: State) -> &'static str {
    match state {
        State::Opening => "opening",
        State::Ready => "ready",
        State::Away => "away",
        State::Closed => "closed",
    }
}
