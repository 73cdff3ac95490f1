//! Replies and asks of a script.
ghost use Rattle.std.specs.Prelude.{IfSome};
ghost use Rattle.ht_http.specs.Plain.{IsPlain};

use crate::report::line;
use hh_http::{write_ask, write_continue, write_reply};
use ht_forms::method;
use hw_lanes::{BodyKind, Reply, ReplyField, Text8, Vec8};
use std::alloc::{AllocError, Global};

/// The status that the word names, if such a reply may have a body.
fn plain_status(word: &str) -> Option<u16>
    ensures { IfSome result IsPlain }
{
    match word {
        "200" => Some(200),
        "202" => Some(202),
        "400" => Some(400),
        "401" => Some(401),
        "404" => Some(404),
        "405" => Some(405),
        "409" => Some(409),
        "411" => Some(411),
        "413" => Some(413),
        "431" => Some(431),
        "500" => Some(500),
        "503" => Some(503),
        _ => None,
    }
}

fn kind(word: &str) -> BodyKind {
    match word {
        "json" => BodyKind::Json,
        "octets" => BodyKind::Octets,
        _ => BodyKind::None,
    }
}

/// What a reply's head says beside its body.
#[derive(Clone, Copy)]
pub struct ReplyHead {
    field: Option<ReplyField>,
    close: bool,
}

/// The head with the field and the end that the words name.
pub fn head(field: &str, end: &str) -> ReplyHead {
    let field = match field {
        "allow-post" => Some(ReplyField::AllowPost),
        "allow-all" => Some(ReplyField::AllowGetPostDelete),
        "bearer" => Some(ReplyField::AuthenticateBearer),
        "version" => Some(ReplyField::WebSocketVersion),
        _ => None,
    };
    ReplyHead {
        field,
        close: end == "close",
    }
}

fn plain(
    alloc: Global,
    status: u16,
    kind: BodyKind,
    head: ReplyHead,
    body: &[u8],
) -> Result<Vec<u8>, AllocError>
    requires { IsPlain status }
{
    let reply = Reply {
        status,
        kind,
        body: Vec8::of(alloc, body)?,
        accept: None,
        field: head.field,
        close: head.close,
    };
    let mut out = Vec::new(alloc);
    write_reply(&reply, &mut out)?;
    Ok(out)
}

fn no_content(alloc: Global, head: ReplyHead) -> Result<Vec<u8>, AllocError> {
    let reply = Reply {
        status: 204,
        kind: BodyKind::None,
        body: Vec8::from_vec(Vec::new(alloc)),
        accept: None,
        field: head.field,
        close: head.close,
    };
    let mut out = Vec::new(alloc);
    write_reply(&reply, &mut out)?;
    Ok(out)
}

fn accepting(alloc: Global, head: ReplyHead, accept: &[u8]) -> Result<Vec<u8>, AllocError> {
    let reply = Reply {
        status: 101,
        kind: BodyKind::None,
        body: Vec8::from_vec(Vec::new(alloc)),
        accept: Some(Text8::of(alloc, accept)?),
        field: head.field,
        close: head.close,
    };
    let mut out = Vec::new(alloc);
    write_reply(&reply, &mut out)?;
    Ok(out)
}

/// The reply of this status: a 101 accepts the key that the bytes say, a 204 has no body, and the bytes are the body of others.
pub fn reply(
    alloc: Global,
    status: &str,
    kind_word: &str,
    head: ReplyHead,
    bytes: &[u8],
) -> Result<Option<Vec<u8>>, AllocError> {
    if status == "101" {
        return Ok(Some(accepting(alloc, head, bytes)?));
    }
    if status == "204" {
        return Ok(Some(no_content(alloc, head)?));
    }
    match plain_status(status) {
        Some(status) => Ok(Some(plain(alloc, status, kind(kind_word), head, bytes)?)),
        None => Ok(None),
    }
}

/// The text of a 100, if one is due.
pub fn continue_line(alloc: Global, due: bool) -> Result<String, AllocError> {
    if !due {
        return String::from_str(alloc, "nothing due");
    }
    let mut out = Vec::new(alloc);
    write_continue(&mut out)?;
    line(alloc, "continue", &out)
}

/// The key of these bytes, of which the first sixteen count.
fn key_of(bytes: &[u8]) -> [u8; 16] {
    let mut key = [0; 16];
    for (to, from) in key.iter_mut().zip(bytes) {
        *to = *from;
    }
    key
}

/// The request for this target, with a key if the bytes of one are there.
pub fn ask(
    alloc: Global,
    method_word: &str,
    host: &str,
    target: &str,
    key: &[u8],
) -> Result<Option<Vec<u8>>, AllocError> {
    let Some(method) = method(method_word) else {
        return Ok(None);
    };
    let key = if key.is_empty() {
        None
    } else {
        Some(key_of(key))
    };
    let mut out = Vec::new(alloc);
    write_ask(method, host, target, key, &mut out)?;
    Ok(Some(out))
}
