//! The words of a script. A word that is none of what is wanted is refused.

use ht_kit::{Stop, first_word, number};
use hv_value::Text;
use hw_door::{Address, Upgrade};
use hw_lanes::{BodyKind, Text8, Vec8};
use std::alloc::Global;

/// The bytes that a word of hex digits stands for, or `-` for none.
pub fn bytes(alloc: Global, word: &str) -> Result<Vec<u8>, Stop> {
    if word == "-" {
        return Ok(Vec::new(alloc));
    }
    hex::decode(alloc, word).ok().ok_or(Stop::Refused)
}

/// A body as such a word.
pub fn body(alloc: Global, word: &str) -> Result<Vec8, Stop> {
    Ok(Vec8::from_vec(bytes(alloc, word)?))
}

/// What a body is.
pub fn kind(word: &str) -> Result<BodyKind, Stop> {
    match word {
        "none" => Ok(BodyKind::None),
        "json" => Ok(BodyKind::Json),
        "octets" => Ok(BodyKind::Octets),
        _ => Err(Stop::Refused),
    }
}

/// A text that accepts a key, or `-` for none.
pub fn accept(alloc: Global, word: &str) -> Result<Option<Text8>, Stop> {
    if word == "-" {
        return Ok(None);
    }
    Ok(Some(Text8::of(alloc, word.as_bytes())?))
}

/// Where a dialer dials: `HOST PORT BASE TOKEN`. The base is `-` if it is empty, and the token if there is none.
pub fn address(alloc: Global, words: &str) -> Result<Address, Stop> {
    let (host, rest) = first_word(words);
    let (port, rest) = first_word(rest);
    let (base, token) = first_word(rest);
    let port = number(port)?;
    Ok(Address {
        host: Text::of(alloc, host)?,
        port: u16::try_from(port).ok().ok_or(Stop::Refused)?,
        base: Text::of(alloc, if base == "-" { "" } else { base })?,
        token: token_of(alloc, token)?,
    })
}

fn token_of(alloc: Global, word: &str) -> Result<Option<Text>, Stop> {
    if word == "-" {
        return Ok(None);
    }
    Ok(Some(Text::of(alloc, word)?))
}

/// The key and the seed of an ask for a WebSocket, or no words for any other ask.
pub fn upgrade(alloc: Global, words: &str) -> Result<Option<Upgrade>, Stop> {
    if words.is_empty() {
        return Ok(None);
    }
    let (key, seed) = first_word(words);
    Ok(Some(Upgrade {
        key: sixteen(alloc, key)?,
        seed: sixteen(alloc, seed)?,
    }))
}

fn sixteen(alloc: Global, word: &str) -> Result<[u8; 16], Stop> {
    let bytes = bytes(alloc, word)?;
    match bytes.as_slice().split_first_chunk::<16>() {
        Some((front, [])) => Ok(*front),
        _ => Err(Stop::Refused),
    }
}

/// The word of these bytes.
pub fn shown(alloc: Global, bytes: &[u8]) -> Result<String, Stop> {
    if bytes.is_empty() {
        return Ok(String::from_str(alloc, "-")?);
    }
    Ok(hex::encode(alloc, bytes)?)
}
