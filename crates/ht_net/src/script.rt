//! The lines of a script, and the door or the dialer that they speak to.

ghost use Rattle.std.specs.Prelude.{◌≡◌, ◌==◌, IfOk, IsTrue};
ghost use Rattle.std.specs.List.{list_any};
ghost use Rattle.hw_lanes.specs.Replies.{IsReply, statuses};

use crate::named::NamedWires;
use crate::side::Side;
use crate::telling::told;
use crate::words::{accept, address, body, bytes, kind, shown, upgrade};
use ht_forms::{Spelling, is_rising, method, wire_of};
use ht_kit::{Play, Stop, count, first_word, number, numbers};
use hw_door::{Address, Dialer, Door, DoorError, MemoryWire, MemoryWires, Upgrade};
use hw_lanes::Reply;
use hw_net::{NetDialer, NetDoor};
use std::alloc::{AllocError, Global};
use std::{mem, str};

/// For how many bytes and calls the wires have room to tell them.
const ROOM: usize = 4_000_000;

const CALLS: usize = 100_000;

/// A door or a dialer, and what the next one is made of: its wires, with what they name, and the addresses of a dialer.
#[derive(Drop)]
pub struct Bench {
    alloc: Global,
    wires: Vec<MemoryWire>,
    names: Vec<Vec<u64>>,
    addresses: Vec<Address>,
    side: Side,
}

fn names_of(alloc: Global, word: &str) -> Result<Vec<Vec<u64>>, Stop> {
    let mut names = Vec::new(alloc);
    for part in word.split(',') {
        names.push(names_after_poll(alloc, part)?)?;
    }
    Ok(names)
}

/// What is named after one poll.
fn names_after_poll(alloc: Global, word: &str) -> Result<Vec<u64>, Stop> {
    let mut names = Vec::new(alloc);
    if word != "*" {
        for part in word.split('+') {
            names.push(number(part)?)?;
        }
    }
    if is_rising(&names) {
        Ok(names)
    } else {
        Err(Stop::Refused)
    }
}

/// Whether a reply may have this status.
fn is_status(status: u16) -> bool
    ensures { result ≡ list_any (λ s. s == status) statuses }
{
    let statuses: [u16; 14] = [
        101, 200, 202, 204, 400, 401, 404, 405, 409, 411, 413, 431, 500, 503,
    ];
    statuses.iter().any(|other| *other == status)
}

/// Whether the reply can be sent.
fn is_reply(reply: &Reply) -> bool
    ensures { IsTrue result → IsReply reply.now }
{
    let is_empty = reply.body.bytes().is_empty();
    let accepts = reply.accept.is_some();
    match reply.status {
        101 => accepts && is_empty,
        204 => !accepts && is_empty,
        status => !accepts && is_status(status),
    }
}

/// A reply that can be sent, as the words say.
fn reply_of(alloc: Global, words: &str) -> Result<Reply, Stop>
    ensures { IfOk result (λ reply. IsReply reply) }
{
    let reply = said(alloc, words)?;
    if is_reply(&reply) {
        Ok(reply)
    } else {
        Err(Stop::Refused)
    }
}

/// A reply as the words say, which need not be one that can be sent.
fn said(alloc: Global, words: &str) -> Result<Reply, Stop> {
    let (status, rest) = first_word(words);
    let (kind_word, rest) = first_word(rest);
    let (body_word, accept_word) = first_word(rest);
    let status = number(status)?;
    Ok(Reply {
        status: u16::try_from(status).ok().ok_or(Stop::Refused)?,
        kind: kind(kind_word)?,
        body: body(alloc, body_word)?,
        accept: accept(alloc, accept_word)?,
        field: None,
        close: false,
    })
}

fn stop_of(error: DoorError) -> Stop {
    match error {
        DoorError::Failed => Stop::Failed,
        DoorError::NoMemory => Stop::NoMemory,
    }
}

impl Bench {
    /// A door over no wires.
    pub fn start(alloc: Global) -> Result<Bench, AllocError> {
        let none = Vec::new(alloc);
        let wires = MemoryWires::start(alloc, Vec::new(alloc), none, Vec::new(alloc), 0, 0)?;
        Ok(Bench {
            alloc,
            wires: Vec::new(alloc),
            names: Vec::new(alloc),
            addresses: Vec::new(alloc),
            side: Side::Door(NetDoor::start(
                alloc,
                NamedWires::start(alloc, wires, Vec::new(alloc)),
            )),
        })
    }

    fn told(&self, text: &str) -> Result<String, Stop> {
        Ok(String::from_str(self.alloc, text)?)
    }

    fn add_wire(&mut self, words: &str) -> Result<String, Stop> {
        let wire = wire_of(self.alloc, words, Spelling::Digits)?;
        self.wires.push(wire)?;
        self.told("to be given")
    }

    fn give_names(&mut self, words: &str) -> Result<String, Stop> {
        self.names = names_of(self.alloc, words)?;
        self.told("to be named")
    }

    fn add_address(&mut self, words: &str) -> Result<String, Stop> {
        let address = address(self.alloc, words)?;
        self.addresses.push(address)?;
        self.told("to be dialed")
    }

    /// The wires that were to be given, which poll these moments, and fail at the calls of these numbers.
    fn start_wires(&mut self, words: &str) -> Result<NamedWires, Stop> {
        let (moments, failing) = first_word(words);
        let moments = numbers(self.alloc, moments)?;
        let failing = numbers(self.alloc, failing)?;
        if !is_rising(&moments) {
            return Err(Stop::Refused);
        }
        let given = mem::replace(&mut self.wires, Vec::new(self.alloc));
        let names = mem::replace(&mut self.names, Vec::new(self.alloc));
        let wires = MemoryWires::start(self.alloc, moments, given, failing, ROOM, CALLS)?;
        Ok(NamedWires::start(self.alloc, wires, names))
    }

    fn start_door(&mut self, words: &str) -> Result<String, Stop> {
        let wires = self.start_wires(words)?;
        self.side = Side::Door(NetDoor::start(self.alloc, wires));
        self.told("a door")
    }

    fn start_dialer(&mut self, words: &str) -> Result<String, Stop> {
        let wires = self.start_wires(words)?;
        let addresses = mem::replace(&mut self.addresses, Vec::new(self.alloc));
        self.side = Side::Dialer(NetDialer::start(self.alloc, wires, addresses));
        self.told("a dialer")
    }

    fn next(&mut self, words: &str) -> Result<String, Stop> {
        let heard = self.side.next(number(words)?).map_err(stop_of)?;
        told(self.alloc, &heard)
    }

    fn reply(&mut self, words: &str) -> Result<String, Stop> {
        let (lane, rest) = first_word(words);
        let lane = number(lane)?;
        let reply = reply_of(self.alloc, rest)?;
        let Side::Door(door) = &mut self.side else {
            return Err(Stop::Refused);
        };
        door.reply(lane, reply).map_err(stop_of)?;
        self.told("replied")
    }

    fn ask(&mut self, words: &str) -> Result<String, Stop> {
        let (place, rest) = first_word(words);
        let (method, rest) = first_word(rest);
        let (target, rest) = first_word(rest);
        let upgrade = upgrade(self.alloc, rest)?;
        self.ask_for(number(place)?, method, target, upgrade)
    }

    /// Asks for a target of so many bytes, all letters but the first.
    fn ask_long(&mut self, words: &str) -> Result<String, Stop> {
        let (place, rest) = first_word(words);
        let (method, size) = first_word(rest);
        let mut target = Vec::new(self.alloc);
        target.push(b'/')?;
        target.resize(count(size)?, b'a')?;
        let target = str::from_utf8(&target).ok().ok_or(Stop::Refused)?;
        self.ask_for(number(place)?, method, target, None)
    }

    fn ask_for(
        &mut self,
        place: u64,
        word: &str,
        target: &str,
        upgrade: Option<Upgrade>,
    ) -> Result<String, Stop> {
        let Some(method) = method(word) else {
            return Err(Stop::Refused);
        };
        let Side::Dialer(dialer) = &mut self.side else {
            return Err(Stop::Refused);
        };
        let lane = dialer.ask(place, method, target, upgrade).map_err(stop_of)?;
        Ok(format!(in self.alloc; "lane {lane}")?)
    }

    fn send(&mut self, words: &str) -> Result<String, Stop> {
        let (lane, rest) = first_word(words);
        let (kind, word) = first_word(rest);
        let lane = number(lane)?;
        let bytes = bytes(self.alloc, word)?;
        self.send_bytes(lane, &bytes, kind == "text")
    }

    /// Sends this many bytes 0.
    fn fill(&mut self, words: &str) -> Result<String, Stop> {
        let (lane, word) = first_word(words);
        let lane = number(lane)?;
        let mut bytes = Vec::new(self.alloc);
        bytes.resize(count(word)?, 0)?;
        self.send_bytes(lane, &bytes, false)
    }

    fn send_bytes(&mut self, lane: u64, bytes: &[u8], is_text: bool) -> Result<String, Stop> {
        let is_full = self.side.send(lane, bytes, is_text).map_err(stop_of)?;
        self.told(if is_full { "sent, full" } else { "sent" })
    }

    fn shut(&mut self, words: &str) -> Result<String, Stop> {
        self.side.shut(number(words)?).map_err(stop_of)?;
        self.told("shut")
    }

    fn flush(&mut self) -> Result<String, Stop> {
        self.side.flush();
        self.told("flushed")
    }

    fn written(&mut self, words: &str) -> Result<String, Stop> {
        let bytes = shown(self.alloc, self.side.wires().written(number(words)?))?;
        Ok(format!(in self.alloc; "written {bytes}")?)
    }

    fn taken(&mut self, words: &str) -> Result<String, Stop> {
        let count = self.side.wires().written(number(words)?).len();
        Ok(format!(in self.alloc; "taken {count}")?)
    }

    fn waited(&self) -> Result<String, Stop> {
        let wait = self.side.wires().waited();
        Ok(format!(in self.alloc; "waited {wait}")?)
    }

    fn shuts(&self) -> Result<String, Stop> {
        let count = self.side.wires().shuts();
        Ok(format!(in self.alloc; "shuts {count}")?)
    }

    fn dialed(&self) -> Result<String, Stop> {
        let dialed = self.side.wires().dialed();
        Ok(format!(in self.alloc; "dialed {dialed}")?)
    }
}

impl Play for Bench {
    fn carry_out(&mut self, line: &str) -> Result<String, Stop> {
        let (word, rest) = first_word(line);
        match word {
            "wire" => self.add_wire(rest),
            "names" => self.give_names(rest),
            "address" => self.add_address(rest),
            "door" => self.start_door(rest),
            "dialer" => self.start_dialer(rest),
            "next" => self.next(rest),
            "reply" => self.reply(rest),
            "ask" => self.ask(rest),
            "ask-long" => self.ask_long(rest),
            "send" => self.send(rest),
            "fill" => self.fill(rest),
            "shut" => self.shut(rest),
            "flush" => self.flush(),
            "written" => self.written(rest),
            "taken" => self.taken(rest),
            "waited" => self.waited(),
            "shuts" => self.shuts(),
            "dialed" => self.dialed(),
            _ => Err(Stop::Refused),
        }
    }
}
