//! Bytes as words of a script, and as words of an answer.

use crate::stop::Stop;
use crate::words::first_word;
use hf_split::SEPARATOR;
use std::alloc::{AllocError, Global};

/// What stands for the separator of frames in a script, and in what is printed.
const MARK: char = '␞';

/// The bytes of hexadecimal digits.
pub fn from_digits(alloc: Global, word: &str) -> Result<Vec<u8>, Stop> {
    Ok(hex::decode(alloc, word)?)
}

/// The bytes of `hex DIGITS`, or of `text TEXT`, in which `␞` is a separator.
pub fn bytes_of(alloc: Global, words: &str) -> Result<Vec<u8>, Stop> {
    let (kind, rest) = first_word(words);
    match kind {
        "hex" => from_digits(alloc, rest),
        "text" => Ok(separated(alloc, rest)?),
        _ => Err(Stop::Refused),
    }
}

/// The bytes of a text, with a separator for each mark.
fn separated(alloc: Global, text: &str) -> Result<Vec<u8>, AllocError> {
    let mut bytes = Vec::new(alloc);
    for (place, part) in text.split(MARK).enumerate() {
        if place > 0 {
            bytes.extend_from_slice(&[SEPARATOR])?;
        }
        bytes.extend_from_slice(part.as_bytes())?;
    }
    Ok(bytes)
}

/// The bytes as text, with a mark for each separator.
pub fn shown(alloc: Global, bytes: &[u8]) -> Result<String, AllocError> {
    let mut shown = String::new(alloc);
    for (place, part) in as_text(bytes).split('\x1e').enumerate() {
        if place > 0 {
            shown.push(MARK)?;
        }
        shown.push_str(part)?;
    }
    Ok(shown)
}

/// The bytes as text, or `no text` if they are none.
pub fn as_text(bytes: &[u8]) -> &str {
    std::str::from_utf8(bytes).unwrap_or("no text")
}
