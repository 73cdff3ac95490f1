//! What is heard, in words.

use crate::words::shown;
use ht_forms::refusal_told;
use ht_kit::Stop;
use hw_door::{Event, Heard};
use hw_lanes::{Method, Request, Text8};
use std::alloc::Global;
use std::str;

fn method(method: Method) -> &'static str {
    match method {
        Method::Get => "GET",
        Method::Post => "POST",
        Method::Delete => "DELETE",
        Method::Other => "OTHER",
    }
}

fn text(text: &Text8) -> &str {
    str::from_utf8(text.bytes()).unwrap_or("no text")
}

fn text_or_none(words: &Option<Text8>) -> &str {
    match words {
        Some(words) => text(words),
        None => "-",
    }
}

fn request(alloc: Global, lane: u64, request: &Request) -> Result<String, Stop> {
    let method = method(request.method);
    let path = text(&request.path);
    let query = text(&request.query);
    let bearer = text_or_none(&request.bearer);
    let upgrade = text_or_none(&request.upgrade);
    let shut = if request.shut { "shut" } else { "kept" };
    let body = shown(alloc, request.body.bytes())?;
    let head = format!(in alloc; "{method} {path} ?{query} {bearer} {upgrade}")?;
    Ok(format!(in alloc; "request {lane} {head} {shut} {body}")?)
}

fn event(alloc: Global, event: &Event) -> Result<String, Stop> {
    match event {
        Event::Request {
            lane,
            request: asked,
        } => request(alloc, *lane, asked),
        Event::Refused { lane, refusal } => {
            let refusal = refusal_told(alloc, *refusal)?;
            Ok(format!(in alloc; "refused {lane} {refusal}")?)
        }
        Event::Bytes { lane, bytes } => {
            let bytes = shown(alloc, bytes.bytes())?;
            Ok(format!(in alloc; "bytes {lane} {bytes}")?)
        }
        Event::Response { lane, status, body } => {
            let body = shown(alloc, body.bytes())?;
            Ok(format!(in alloc; "response {lane} {status} {body}")?)
        }
        Event::Upgraded { lane } => Ok(format!(in alloc; "upgraded {lane}")?),
        Event::Lost { lane } => Ok(format!(in alloc; "lost {lane}")?),
        Event::Drained { lane } => Ok(format!(in alloc; "drained {lane}")?),
        Event::Quiet => Ok(String::from_str(alloc, "quiet")?),
    }
}

/// The moment, and what was heard.
pub fn told(alloc: Global, heard: &Heard) -> Result<String, Stop> {
    let event = event(alloc, &heard.event)?;
    Ok(format!(in alloc; "at {} {event}", heard.now)?)
}
