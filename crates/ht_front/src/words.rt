//! The words of a script. A word that is none of what is wanted is refused.

use hn_server_front::Token;
use ht_kit::Stop;
use hw_lanes::Method;
use std::alloc::Global;

pub fn yes_or_no(word: &str) -> Result<bool, Stop> {
    match word {
        "yes" => Ok(true),
        "no" => Ok(false),
        _ => Err(Stop::Refused),
    }
}

/// Two hexadecimal digits for each of sixteen bytes.
pub fn drawn(word: &str) -> Result<[u8; 16], Stop> {
    <[u8; 16] as hex::FromHex>::from_hex(word)
        .ok()
        .ok_or(Stop::Refused)
}

pub fn method(word: &str) -> Result<Method, Stop> {
    match word {
        "get" => Ok(Method::Get),
        "post" => Ok(Method::Post),
        "delete" => Ok(Method::Delete),
        "other" => Ok(Method::Other),
        _ => Err(Stop::Refused),
    }
}

pub fn token(alloc: Global, word: &str) -> Result<Token, Stop> {
    Ok(Token::of(alloc, word.as_bytes())?)
}
