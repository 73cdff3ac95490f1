//! The events of a script.

use ht_kit::{Stop, first_word, from_digits, number};
use hw_door::{Event, Heard};
use hw_lanes::{Method, Refusal, Request, Text8, Vec8};
use std::alloc::Global;

const SEPARATOR: u8 = 0x1e;

/// An event after its moment.
pub fn heard_of(alloc: Global, words: &str) -> Result<Heard, Stop> {
    let (moment, rest) = first_word(words);
    let now = number(moment)?;
    let event = event_of(alloc, rest)?;
    Ok(Heard { now, event })
}

fn event_of(alloc: Global, words: &str) -> Result<Event, Stop> {
    let (kind, rest) = first_word(words);
    if kind == "quiet" {
        return Ok(Event::Quiet);
    }
    let (lane, rest) = first_word(rest);
    let lane = number(lane)?;
    match kind {
        "request" => {
            let request = request_of(alloc, rest)?;
            Ok(Event::Request { lane, request })
        }
        "text" => {
            let bytes = Vec8::from_vec(text_of(alloc, rest)?);
            Ok(Event::Bytes { lane, bytes })
        }
        "bytes" => {
            let bytes = Vec8::from_vec(from_digits(alloc, rest)?);
            Ok(Event::Bytes { lane, bytes })
        }
        "lost" => Ok(Event::Lost { lane }),
        "drained" => Ok(Event::Drained { lane }),
        "refused" => {
            let status = rest.parse::<u16>().ok().ok_or(Stop::Refused)?;
            let refusal = Refusal {
                status,
                field: None,
            };
            Ok(Event::Refused { lane, refusal })
        }
        _ => Err(Stop::Refused),
    }
}

/// The bytes of a text, in which each `|` stands for a separator.
fn text_of(alloc: Global, text: &str) -> Result<Vec<u8>, Stop> {
    let mut out = Vec::new(alloc);
    for &byte in text.as_bytes() {
        out.push(if byte == b'|' { SEPARATOR } else { byte })?;
    }
    Ok(out)
}

fn request_of(alloc: Global, words: &str) -> Result<Request, Stop> {
    let (method, rest) = first_word(words);
    let (target, rest) = first_word(rest);
    let (path, query) = target.split_once('?').unwrap_or((target, ""));
    let method = match method {
        "GET" => Method::Get,
        "POST" => Method::Post,
        "DELETE" => Method::Delete,
        _ => Method::Other,
    };
    let mut request = Request {
        method,
        path: Text8::of(alloc, path.as_bytes())?,
        query: Text8::of(alloc, query.as_bytes())?,
        bearer: None,
        upgrade: None,
        shut: false,
        body: Vec8::from_vec(Vec::new(alloc)),
    };
    add_words(alloc, &mut request, rest)?;
    Ok(request)
}

/// The words of a request. A body is the rest of them.
fn add_words(alloc: Global, request: &mut Request, words: &str) -> Result<(), Stop> {
    let (head, body) = words.split_once("body=").unwrap_or((words, ""));
    request.body = Vec8::from_vec(text_of(alloc, body)?);
    for word in head.split(' ') {
        add_word(alloc, request, word)?;
    }
    Ok(())
}

fn add_word(alloc: Global, request: &mut Request, word: &str) -> Result<(), Stop> {
    if let Some(token) = word.strip_prefix("bearer=") {
        request.bearer = Some(Text8::of(alloc, token.as_bytes())?);
        return Ok(());
    }
    if let Some(key) = word.strip_prefix("upgrade=") {
        request.upgrade = Some(Text8::of(alloc, key.as_bytes())?);
        return Ok(());
    }
    match word {
        "shut" => {
            request.shut = true;
            Ok(())
        }
        "" => Ok(()),
        _ => Err(Stop::Refused),
    }
}
