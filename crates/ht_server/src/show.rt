//! What a server says, as one line.

use hd_server::Said;
use hw_door::Given;
use hw_lanes::{Reply, ReplyField};
use std::alloc::{AllocError, Global};

const SEPARATOR: u8 = 0x1e;

/// What is said, with `; ` between two, or `-` for nothing.
pub fn all_said(alloc: Global, words: &[Said]) -> Result<String, AllocError> {
    let mut text = String::new(alloc);
    for word in words {
        let one = match word {
            Said::Reply { lane, reply } => reply_shown(alloc, *lane, reply)?,
            Said::Bytes { lane, bytes, text } => {
                bytes_shown(alloc, *lane, bytes.bytes(), *text)?
            }
            Said::Shut { lane } => format!(in alloc; "shut {lane}")?,
        };
        add(&mut text, &one)?;
    }
    or_none(alloc, text)
}

/// What was given to a door, in the same form.
pub fn all_given(alloc: Global, given: &[Given]) -> Result<String, AllocError> {
    let mut text = String::new(alloc);
    for word in given {
        let one = match word {
            Given::Reply { lane, reply } => reply_shown(alloc, *lane, reply)?,
            Given::Bytes { lane, bytes, text } => {
                bytes_shown(alloc, *lane, bytes.bytes(), *text)?
            }
            Given::Shut { lane } => format!(in alloc; "shut {lane}")?,
            Given::Ask { lane, .. } => format!(in alloc; "ask {lane}")?,
        };
        add(&mut text, &one)?;
    }
    or_none(alloc, text)
}

fn add(text: &mut String, one: &str) -> Result<(), AllocError> {
    if !text.is_empty() {
        text.push_str("; ")?;
    }
    text.push_str(one)
}

fn or_none(alloc: Global, text: String) -> Result<String, AllocError> {
    if text.is_empty() {
        String::from_str(alloc, "-")
    } else {
        Ok(text)
    }
}

fn reply_shown(alloc: Global, lane: u64, reply: &Reply) -> Result<String, AllocError> {
    let status = reply.status;
    let kind = reply.kind;
    let body = shown(alloc, reply.body.bytes())?;
    let mut text = format!(in alloc; "reply {lane} {status} {kind:?}")?;
    if let Some(accept) = &reply.accept {
        let accept = shown(alloc, accept.bytes())?;
        text.push_str(" accept ")?;
        text.push_str(&accept)?;
    }
    if let Some(field) = reply.field {
        text.push_str(field_shown(field))?;
    }
    if reply.close {
        text.push_str(" close")?;
    }
    if !body.is_empty() {
        text.push(' ')?;
        text.push_str(&body)?;
    }
    Ok(text)
}

fn field_shown(field: ReplyField) -> &'static str {
    match field {
        ReplyField::AllowPost => " allow=POST",
        ReplyField::AllowGetPostDelete => " allow=GET,POST,DELETE",
        ReplyField::AuthenticateBearer => " authenticate=Bearer",
        ReplyField::WebSocketVersion => " version=13",
    }
}

fn bytes_shown(
    alloc: Global,
    lane: u64,
    bytes: &[u8],
    is_text: bool,
) -> Result<String, AllocError> {
    if is_text {
        let text = shown(alloc, bytes)?;
        return format!(in alloc; "text {lane} {text}");
    }
    let digits = hex::encode(alloc, bytes)?;
    format!(in alloc; "bytes {lane} {digits}")
}

/// Bytes as a text, with `|` for each separator.
fn shown(alloc: Global, bytes: &[u8]) -> Result<String, AllocError> {
    let mut text = String::new(alloc);
    for &byte in bytes {
        text.push(if byte == SEPARATOR {
            '|'
        } else {
            char::from(byte)
        })?;
    }
    Ok(text)
}
