//! What wires in memory are asked, and what they answer.

use ht_forms::is_rising;
use ht_kit::{Stop, as_text, count, first_word, number, numbers};
use hw_door::{MemoryWire, MemoryWires, WireRead, Wires};
use std::alloc::Global;

/// How long `poll` may wait, which no form in memory does.
const WAIT: u64 = 100;

/// The most bytes that are read at once.
const MOST_READ: usize = 8;

/// Wires that give these, as the words say.
pub fn start(alloc: Global, wires: Vec<MemoryWire>, words: &str) -> Result<MemoryWires, Stop> {
    let (moments, rest) = first_word(words);
    let (failing, rest) = first_word(rest);
    let (bytes, calls) = first_word(rest);
    let moments = numbers(alloc, moments)?;
    let failing = numbers(alloc, failing)?;
    let bytes = count(bytes)?;
    let calls = count(calls)?;
    if !is_rising(&moments) {
        return Err(Stop::Refused);
    }
    Ok(MemoryWires::start(alloc, moments, wires, failing, bytes, calls)?)
}

/// What the wires answer to the words.
pub fn answer(alloc: Global, wires: &mut MemoryWires, words: &str) -> Result<String, Stop> {
    let (word, rest) = first_word(words);
    match word {
        "poll" => {
            let now = wires.poll(WAIT).ok().ok_or(Stop::Failed)?;
            Ok(format!(in alloc; "at {now}")?)
        }
        "accept" => match wires.accept().ok().ok_or(Stop::Failed)? {
            Some(wire) => Ok(format!(in alloc; "wire {wire}")?),
            None => Ok(String::from_str(alloc, "none")?),
        },
        "connect" => {
            let wire = wires.connect("example.org", 80).ok().ok_or(Stop::Failed)?;
            Ok(format!(in alloc; "wire {wire}")?)
        }
        _ => answer_of_wire(alloc, wires, word, rest),
    }
}

/// What one of the wires answers.
fn answer_of_wire(
    alloc: Global,
    wires: &mut MemoryWires,
    word: &str,
    rest: &str,
) -> Result<String, Stop> {
    let (wire, rest) = first_word(rest);
    let wire = number(wire)?;
    match word {
        "read" => read(alloc, wires, wire, count(rest)?),
        "write" => {
            let written = wires.write(wire, rest.as_bytes());
            let count = written.ok().ok_or(Stop::Failed)?;
            Ok(format!(in alloc; "wrote {count}")?)
        }
        "shut" => {
            wires.shut(wire);
            Ok(String::from_str(alloc, "shut")?)
        }
        "written" => {
            let text = as_text(wires.written(wire));
            Ok(format!(in alloc; "written {text}")?)
        }
        _ => Err(Stop::Refused),
    }
}

fn read(alloc: Global, wires: &mut MemoryWires, wire: u64, room: usize) -> Result<String, Stop> {
    let mut space = [0; MOST_READ];
    let room = room.min(space.len());
    let buf = &mut space[..room];
    match wires.read(wire, buf).ok().ok_or(Stop::Failed)? {
        WireRead::Some(count) => {
            let text = as_text(&buf[..count.min(buf.len())]);
            Ok(format!(in alloc; "read {text}")?)
        }
        WireRead::NotYet => Ok(String::from_str(alloc, "not yet")?),
        WireRead::Ended => Ok(String::from_str(alloc, "ended")?),
    }
}
