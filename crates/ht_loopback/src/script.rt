//! The lines of a script.

use crate::exchange::have_conversations;
use crate::session::session;
use hm_message::Codec;
use ht_kit::{Play, Stop, count, first_word, number, told};
use std::alloc::{AllocError, Global};
use std::mem;

/// The script of the client that starts next.
#[derive(Drop)]
pub struct Bench<'a> {
    rt: &'a HostRuntime,
    alloc: Global,
    orders: Vec<u8>,
}

impl<'a> Bench<'a> {
    /// An empty script.
    pub fn start(rt: &'a HostRuntime, alloc: Global) -> Result<Bench<'a>, AllocError> {
        Ok(Bench {
            rt,
            alloc,
            orders: Vec::new(alloc),
        })
    }

    fn add_order(&mut self, line: &str) -> Result<String, Stop> {
        self.orders.extend_from_slice(line.as_bytes())?;
        self.orders.push(b'\n')?;
        told(self.alloc, "to be done")
    }

    fn session(&mut self, words: &str) -> Result<String, Stop> {
        let (codec, turns) = first_word(words);
        let codec = codec_of(codec)?;
        let turns = number(turns)?;
        let orders = mem::replace(&mut self.orders, Vec::new(self.alloc));
        session(self.rt, self.alloc, &orders, codec, turns)
    }

    fn cuts(&self, words: &str) -> Result<String, Stop> {
        let (seed, rest) = first_word(words);
        let (total, live) = first_word(rest);
        let seed = number(seed)?;
        let total = number(total)?;
        have_conversations(self.rt, self.alloc, seed, total, count(live)?)
    }
}

fn codec_of(word: &str) -> Result<Codec, Stop> {
    match word {
        "json" => Ok(Codec::Json),
        "pack" => Ok(Codec::Pack),
        _ => Err(Stop::Refused),
    }
}

impl<'a> Play for Bench<'a> {
    fn carry_out(&mut self, line: &str) -> Result<String, Stop> {
        let (word, rest) = first_word(line);
        match word {
            "order" => self.add_order(rest),
            "session" => self.session(rest),
            "cuts" => self.cuts(rest),
            _ => Err(Stop::Refused),
        }
    }
}
