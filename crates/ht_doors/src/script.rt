//! The lines of a script, and the forms in memory that they speak to.

use crate::{doors, lots, wires};
use ht_forms::{Spelling, wire_of};
use ht_kit::{Play, Stop, first_word};
use hw_door::{Heard, MemoryDialer, MemoryDoor, MemoryLots, MemoryWire, MemoryWires};
use std::alloc::{AllocError, Global};
use std::mem;

/// A form of each kind, and what the next of them are made with.
#[derive(Drop)]
pub struct Bench {
    alloc: Global,
    /// What comes of two draws of the system.
    system: &'static str,
    heard: Vec<Heard>,
    wires_to_give: Vec<MemoryWire>,
    door: MemoryDoor,
    dialer: MemoryDialer,
    wires: MemoryWires,
    lots: MemoryLots,
}

impl Bench {
    /// Forms that hear, give and draw nothing.
    pub fn start(alloc: Global, system: &'static str) -> Result<Bench, AllocError> {
        Ok(Bench {
            alloc,
            system,
            heard: Vec::new(alloc),
            wires_to_give: Vec::new(alloc),
            door: MemoryDoor::start(Vec::new(alloc), Vec::new(alloc), Vec::new(alloc)),
            dialer: MemoryDialer::start(Vec::new(alloc), Vec::new(alloc), Vec::new(alloc)),
            wires: MemoryWires::start(
                alloc,
                Vec::new(alloc),
                Vec::new(alloc),
                Vec::new(alloc),
                0,
                0,
            )?,
            lots: MemoryLots::start(Vec::new(alloc), Vec::new(alloc)),
        })
    }

    fn add_heard(&mut self, words: &str) -> Result<String, Stop> {
        let heard = doors::heard_of(self.alloc, words)?;
        self.heard.push(heard)?;
        self.told("to be heard")
    }

    fn add_wire(&mut self, words: &str) -> Result<String, Stop> {
        let wire = wire_of(self.alloc, words, Spelling::Text)?;
        self.wires_to_give.push(wire)?;
        self.told("to be given")
    }

    fn told(&self, text: &str) -> Result<String, Stop> {
        Ok(String::from_str(self.alloc, text)?)
    }

    /// Starts the form that the word names, or asks it.
    fn ask(&mut self, form: &str, words: &str) -> Result<String, Stop> {
        let (word, rest) = first_word(words);
        match (form, word) {
            ("door", "start") => self.start_door(rest),
            ("door", _) => doors::ask_door(self.alloc, &mut self.door, words),
            ("dialer", "start") => self.start_dialer(rest),
            ("dialer", _) => doors::ask_dialer(self.alloc, &mut self.dialer, words),
            ("wires", "start") => self.start_wires(rest),
            ("wires", _) => wires::answer(self.alloc, &mut self.wires, words),
            ("lots", "start") => self.start_lots(rest),
            ("lots", "draw") => lots::draw(self.alloc, &mut self.lots),
            _ => Err(Stop::Refused),
        }
    }

    fn start_door(&mut self, words: &str) -> Result<String, Stop> {
        let heard = mem::replace(&mut self.heard, Vec::new(self.alloc));
        self.door = doors::start_door(self.alloc, heard, words)?;
        self.told("a door")
    }

    fn start_dialer(&mut self, words: &str) -> Result<String, Stop> {
        let heard = mem::replace(&mut self.heard, Vec::new(self.alloc));
        self.dialer = doors::start_dialer(self.alloc, heard, words)?;
        self.told("a dialer")
    }

    fn start_wires(&mut self, words: &str) -> Result<String, Stop> {
        let given = mem::replace(&mut self.wires_to_give, Vec::new(self.alloc));
        self.wires = wires::start(self.alloc, given, words)?;
        self.told("wires")
    }

    fn start_lots(&mut self, words: &str) -> Result<String, Stop> {
        self.lots = lots::start(self.alloc, words)?;
        self.told("lots")
    }
}

impl Play for Bench {
    fn carry_out(&mut self, line: &str) -> Result<String, Stop> {
        let (word, rest) = first_word(line);
        match word {
            "heard" => self.add_heard(rest),
            "wire" => self.add_wire(rest),
            "system" => self.told(self.system),
            _ => self.ask(word, rest),
        }
    }
}
