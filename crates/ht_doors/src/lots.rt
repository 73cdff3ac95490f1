//! Lots of memory and of the system.

use ht_kit::{Stop, first_word, numbers};
use hw_door::{Lots, MemoryLots, RandLots};
use std::alloc::Global;
use std::random::RandomSource;

/// Lots as the words say: the byte of each draw, and the numbers of the calls that are to fail.
pub fn start(alloc: Global, words: &str) -> Result<MemoryLots, Stop> {
    let (bytes, failing) = first_word(words);
    let mut draws = Vec::new(alloc);
    for byte in numbers(alloc, bytes)?.iter() {
        let byte = u8::try_from(*byte).ok().ok_or(Stop::Refused)?;
        draws.push([byte; 16])?;
    }
    Ok(MemoryLots::start(draws, numbers(alloc, failing)?))
}

/// What a draw of the lots gives.
pub fn draw(alloc: Global, lots: &mut MemoryLots) -> Result<String, Stop> {
    let draw = lots.draw().ok().ok_or(Stop::Failed)?;
    let mut text = String::from_str(alloc, "draw")?;
    for byte in draw.iter() {
        write!(text, " {byte}")?;
    }
    Ok(text)
}

/// Whether two draws of the system differ.
pub fn of_the_system(rt: &impl RandomSource) -> &'static str {
    let mut lots = RandLots::new(rt);
    match (lots.draw(), lots.draw()) {
        (Ok(first), Ok(second)) if first != second => "two draws that differ",
        (Ok(_), Ok(_)) => "one draw, twice",
        _ => "failed",
    }
}
