//! The words of a script. A word that is none of what is wanted is refused.

use crate::stop::Stop;
use std::alloc::Global;

/// The word before the first space, and what follows that.
pub fn first_word(words: &str) -> (&str, &str) {
    words.split_once(' ').unwrap_or((words, ""))
}

/// Decimal digits of a number up to 2^64-1.
pub fn number(word: &str) -> Result<u64, Stop> {
    word.parse::<u64>().ok().ok_or(Stop::Refused)
}

/// How many of what memory holds: bytes, say.
pub fn count(word: &str) -> Result<usize, Stop> {
    word.parse::<usize>().ok().ok_or(Stop::Refused)
}

/// Decimal digits of a number up to 2^32-1.
pub fn count_of_32_bits(word: &str) -> Result<u32, Stop> {
    word.parse::<u32>().ok().ok_or(Stop::Refused)
}

/// Numbers with a comma between two, or none for `-`.
pub fn numbers(alloc: Global, word: &str) -> Result<Vec<u64>, Stop> {
    let mut numbers = Vec::new(alloc);
    if word != "-" {
        for part in word.split(',') {
            numbers.push(number(part)?)?;
        }
    }
    Ok(numbers)
}

/// Counts with a comma between two, or none for `-`.
pub fn counts(alloc: Global, word: &str) -> Result<Vec<usize>, Stop> {
    let mut counts = Vec::new(alloc);
    if word != "-" {
        for part in word.split(',') {
            counts.push(count(part)?)?;
        }
    }
    Ok(counts)
}

/// `on` or `off`.
pub fn switch(word: &str) -> Result<bool, Stop> {
    match word {
        "on" => Ok(true),
        "off" => Ok(false),
        _ => Err(Stop::Refused),
    }
}

/// An answer in these words.
pub fn told(alloc: Global, words: &str) -> Result<String, Stop> {
    Ok(String::from_str(alloc, words)?)
}
