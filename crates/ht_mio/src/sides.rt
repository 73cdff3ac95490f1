//! What wires are asked, and what they answer:
//!
//! ```text
//! accept                   polls until a wire is there: `wire PLACE`
//! accept-now               the same without a poll, or `none`
//! read WIRE                polls until a read gives something else than nothing yet: `read TEXT` or `ended`
//! read-now WIRE            the same without a poll, or `not yet`
//! write WIRE TEXT          how many bytes were written
//! shut WIRE                `shut`
//! poll MILLISECONDS        `polled`
//! named WIRE               which wire is named after this one, or `none`
//! awaited WIRE WIRE        polls until the first is named after the second: `named`
//! numbers WIRE WIRE        whether the second has a later number than the first, and the same slot
//! ```

use ht_kit::{Stop, as_text, count, first_word, number, told};
use hw_door::{WireRead, Wires};
use hw_mio::SLOTS;
use std::alloc::Global;

/// The most polls for one thing, and how many milliseconds one may wait.
const POLLS: u32 = 1_000;

const WAIT: u64 = 10;

/// What a buffer has before a read.
const BLANK: [u8; 8] = [b'.'; 8];

/// Wires, and their numbers in the order in which they came.
#[derive(Drop)]
pub struct Side<W> {
    pub wires: W,
    numbers: Vec<u64>,
}

impl<W: Wires> Side<W> {
    /// Of these wires none is there yet.
    pub fn start(alloc: Global, wires: W) -> Side<W> {
        Side {
            wires,
            numbers: Vec::new(alloc),
        }
    }

    /// What they answer to the words.
    pub fn ask(&mut self, alloc: Global, words: &str) -> Result<String, Stop> {
        let (word, rest) = first_word(words);
        match word {
            "accept" => self.accept(alloc),
            "accept-now" => self.accept_now(alloc),
            "poll" => {
                self.poll(number(rest)?)?;
                told(alloc, "polled")
            }
            _ => {
                let (place, rest) = first_word(rest);
                let wire = self.number_of(place)?;
                self.ask_wire(alloc, word, wire, rest)
            }
        }
    }

    fn ask_wire(
        &mut self,
        alloc: Global,
        word: &str,
        wire: u64,
        rest: &str,
    ) -> Result<String, Stop> {
        match word {
            "read" => self.read(alloc, wire),
            "read-now" => self.read_now(alloc, wire),
            "write" => self.write(alloc, wire, rest),
            "shut" => {
                self.wires.shut(wire);
                told(alloc, "shut")
            }
            "named" => self.named(alloc, wire),
            "awaited" => self.awaited(alloc, wire, self.number_of(rest)?),
            "numbers" => numbers_words(alloc, wire, self.number_of(rest)?),
            _ => Err(Stop::Refused),
        }
    }

    /// Begins a connection.
    pub fn dial(&mut self, alloc: Global, host: &str, port: u16) -> Result<String, Stop> {
        let dialed = self.wires.connect(host, port);
        self.add(alloc, dialed.ok().ok_or(Stop::Failed)?)
    }

    fn number_of(&self, place: &str) -> Result<u64, Stop> {
        self.numbers
            .get(count(place)?)
            .copied()
            .ok_or(Stop::Refused)
    }

    fn add(&mut self, alloc: Global, wire: u64) -> Result<String, Stop> {
        let place = self.numbers.len();
        self.numbers.push(wire)?;
        Ok(format!(in alloc; "wire {place}")?)
    }

    fn poll(&mut self, wait: u64) -> Result<(), Stop> {
        match self.wires.poll(wait) {
            Ok(_) => Ok(()),
            Err(_) => Err(Stop::Failed),
        }
    }

    /// A wire that came, if there is one.
    fn next(&mut self) -> Result<Option<u64>, Stop> {
        self.wires.accept().ok().ok_or(Stop::Failed)
    }

    fn accept(&mut self, alloc: Global) -> Result<String, Stop> {
        for _turn in 0..POLLS {
            self.poll(WAIT)?;
            if let Some(wire) = self.next()? {
                return self.add(alloc, wire);
            }
        }
        told(alloc, "none came")
    }

    fn accept_now(&mut self, alloc: Global) -> Result<String, Stop> {
        match self.next()? {
            Some(wire) => self.add(alloc, wire),
            None => told(alloc, "none"),
        }
    }

    fn read(&mut self, alloc: Global, wire: u64) -> Result<String, Stop> {
        for _turn in 0..POLLS {
            self.poll(WAIT)?;
            let answer = self.read_now(alloc, wire)?;
            if answer.as_str() != "not yet" {
                return Ok(answer);
            }
        }
        told(alloc, "nothing came")
    }

    fn read_now(&mut self, alloc: Global, wire: u64) -> Result<String, Stop> {
        let mut buf = BLANK;
        match self.wires.read(wire, &mut buf) {
            Ok(WireRead::Some(count)) => read_words(alloc, &buf, count),
            Ok(WireRead::NotYet) => told(alloc, "not yet"),
            Ok(WireRead::Ended) => told(alloc, "ended"),
            Err(_) => Err(Stop::Failed),
        }
    }

    fn write(&mut self, alloc: Global, wire: u64, text: &str) -> Result<String, Stop> {
        match self.wires.write(wire, text.as_bytes()) {
            Ok(count) => Ok(format!(in alloc; "wrote {count}")?),
            Err(_) => Err(Stop::Failed),
        }
    }

    /// The place of the wire that is named after this one.
    fn named(&self, alloc: Global, wire: u64) -> Result<String, Stop> {
        let Some(named) = self.wires.ready_after(wire) else {
            return told(alloc, "none");
        };
        let place = self.numbers.iter().position(|number| *number == named);
        Ok(format!(in alloc; "wire {}", place.ok_or(Stop::Failed)?)?)
    }

    fn awaited(&mut self, alloc: Global, wire: u64, before: u64) -> Result<String, Stop> {
        for _turn in 0..POLLS {
            self.poll(WAIT)?;
            if self.wires.ready_after(before) == Some(wire) {
                return told(alloc, "named");
            }
        }
        told(alloc, "never named")
    }
}

/// What was read: the bytes after that are as they were.
fn read_words(alloc: Global, buf: &[u8], count: usize) -> Result<String, Stop> {
    let (read, rest) = buf.split_at(count.min(buf.len()));
    if !BLANK.ends_with(rest) {
        return told(alloc, "read more than it tells");
    }
    Ok(format!(in alloc; "read {}", as_text(read))?)
}

fn numbers_words(alloc: Global, first: u64, second: u64) -> Result<String, Stop> {
    let slots = SLOTS as u64;
    let order = if first < second { "later" } else { "not later" };
    let slot = if first % slots == second % slots {
        "the same"
    } else {
        "another"
    };
    Ok(format!(in alloc; "{order}, {slot} slot")?)
}
