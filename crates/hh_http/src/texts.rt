//! Replies and asks as bytes. A text is made whole and then appended in one call, so that nothing is appended when out of memory.
ghost use Rattle.std.specs.Prelude.{◌≡◌, ◌≢◌, ◌++◌, [], OnOk, OnErr, IfOk, length, string_bytes, codes};
ghost use Rattle.http.specs.StatusCode.{IsStatusCode};
ghost use Rattle.hw_lanes.specs.Replies.{IsReply};
ghost use Rattle.hh_http.specs.Texts.{phrase_of, status_line, type_line, body_lines, field_line, close_line, content_lines, reply_lines, reply_text, continue_text, method_name, no_body_line, base64_of, accept_of_ask, key_lines, request_line, host_line, ask_text};

use crate::key::accept_key;
use base64::engine::general_purpose::STANDARD;
use http::StatusCode;
use hw_lanes::{BodyKind, Method, Reply, ReplyField, Text8};
use std::alloc::{AllocError, Global};

fn phrase_of_code(code: StatusCode) -> &'static str
    ensures { result.now ≡ phrase_of code }
{
    match code.canonical_reason() {
        Some(phrase) => phrase,
        None => "",
    }
}

fn phrase(status: u16) -> &'static str
    requires { IsStatusCode status }
    ensures { result.now ≡ phrase_of status }
{
    match StatusCode::from_u16(status) {
        Ok(code) => phrase_of_code(code),
        Err(_) => unreachable!(),
    }
}

fn status_line(alloc: Global, status: u16) -> Result<String, AllocError>
    requires { IsStatusCode status }
    ensures { IfOk result (λ line. string_bytes line ≡ status_line status) }
{
    let phrase = phrase(status);
    format!(in alloc; "HTTP/1.1 {status} {phrase}\r\n")
}

fn type_line(kind: BodyKind, body: &[u8]) -> &'static str
    ensures { result.now ≡ type_line kind body.now }
{
    if body.is_empty() {
        return "";
    }
    match kind {
        BodyKind::None => "",
        BodyKind::Json => "Content-Type: application/json\r\n",
        BodyKind::Octets => "Content-Type: application/octet-stream\r\n",
    }
}

fn put_accept(accept: &[u8], out: &mut Vec<u8>) -> Result<(), AllocError>
    ensures { OnOk result (out.new.items ≡ out.old.items
        ++ (codes "Upgrade: websocket\r\nConnection: Upgrade\r\nSec-WebSocket-Accept: " ++ (accept.now ++ codes "\r\n"))) }
{
    out.extend_from_slice(b"Upgrade: websocket\r\nConnection: Upgrade\r\nSec-WebSocket-Accept: ")?;
    out.extend_from_slice(accept)?;
    out.extend_from_slice(b"\r\n")
}

fn body_lines(alloc: Global, reply: &Reply) -> Result<String, AllocError>
    ensures { IfOk result (λ lines. string_bytes lines
        ≡ body_lines reply.now.kind reply.now.body) }
{
    let body = reply.body.bytes();
    let length = body.len();
    let kind = type_line(reply.kind, body);
    format!(in alloc; "Content-Length: {length}\r\n{kind}")
}

fn field_line(field: Option<ReplyField>) -> &'static str
    ensures { result.now ≡ field_line field }
{
    match field {
        None => "",
        Some(ReplyField::AllowPost) => "Allow: POST\r\n",
        Some(ReplyField::AllowGetPostDelete) => "Allow: GET, POST, DELETE\r\n",
        Some(ReplyField::AuthenticateBearer) => "WWW-Authenticate: Bearer\r\n",
        Some(ReplyField::WebSocketVersion) => "Sec-WebSocket-Version: 13\r\n",
    }
}

fn close_line(close: bool) -> &'static str
    ensures { result.now ≡ close_line close }
{
    if close { "Connection: close\r\n" } else { "" }
}

fn put_content(reply: &Reply, out: &mut Vec<u8>) -> Result<(), AllocError>
    ensures { OnOk result (out.new.items ≡ out.old.items ++ content_lines reply.now) }
{
    if reply.status == 204 {
        return Ok(());
    }
    let lines = body_lines(*out.allocator(), reply)?;
    out.extend_from_slice(lines.as_bytes())
}

fn put_lines(reply: &Reply, out: &mut Vec<u8>) -> Result<(), AllocError>
    ensures { OnOk result (out.new.items ≡ out.old.items ++ reply_lines reply.now.accept reply.now) }
{
    if let Some(accept) = &reply.accept {
        return put_accept(accept.bytes(), out);
    }
    out.extend_from_slice(field_line(reply.field).as_bytes())?;
    put_content(reply, out)?;
    out.extend_from_slice(close_line(reply.close).as_bytes())
}

fn reply_text(alloc: Global, reply: &Reply) -> Result<Vec<u8>, AllocError>
    requires { IsReply reply.now }
    ensures { IfOk result (λ text. text.items ≡ reply_text reply.now) }
{
    let mut text = status_line(alloc, reply.status)?.into_bytes();
    put_lines(reply, &mut text)?;
    text.extend_from_slice(b"\r\n")?;
    text.extend_from_slice(reply.body.bytes())?;
    Ok(text)
}

/// Appends a reply (RFC 9112, sections 4 to 6). A 101 accepts a WebSocket's key, and says no more. Any other has the reply's field, says
/// the length of its body, and its kind if it is not empty, unless it is a 204, and last that the connection ends (RFC 9112, section 9.6).
/// When out of memory `out` is as before.
pub fn write_reply(reply: &Reply, out: &mut Vec<u8>) -> Result<(), AllocError>
    requires { IsReply reply.now }
    ensures ok { OnOk result (out.new.items ≡ out.old.items ++ reply_text reply.now) }
    ensures err { OnErr result (out.new.items ≡ out.old.items) }
{
    let text = reply_text(*out.allocator(), reply)?;
    out.extend_from_slice(&text)
}

/// Appends the text of a 100, after which the peer sends the body of its request (RFC 9110, section 15.2.1). When out of memory `out` is
/// as before.
pub fn write_continue(out: &mut Vec<u8>) -> Result<(), AllocError>
    ensures ok { OnOk result (out.new.items ≡ out.old.items ++ continue_text) }
    ensures err { OnErr result (out.new.items ≡ out.old.items) }
{
    out.extend_from_slice(b"HTTP/1.1 100 Continue\r\n\r\n")
}

fn method_name(method: Method) -> &'static str
    ensures { result.now ≡ method_name method }
{
    match method {
        Method::Get => "GET",
        Method::Post => "POST",
        Method::Delete => "DELETE",
        Method::Other => "",
    }
}

fn no_body_line(method: Method) -> &'static str
    ensures { result.now ≡ no_body_line method }
{
    match method {
        Method::Get => "",
        Method::Post => "Content-Length: 0\r\n",
        Method::Delete => "",
        Method::Other => "",
    }
}

fn base64_of(alloc: Global, bytes: &[u8]) -> Result<String, AllocError>
    ensures { IfOk result (λ text. string_bytes text ≡ base64_of bytes.now) }
{
    STANDARD.encode(alloc, bytes)
}

fn key_lines(alloc: Global, key: Option<[u8; 16]>) -> Result<String, AllocError>
    ensures { IfOk result (λ lines. string_bytes lines ≡ key_lines key) }
{
    let Some(key) = key else {
        return Ok(String::new(alloc));
    };
    let text = base64_of(alloc, &key)?;
    let text = text.as_str();
    format!(in alloc;
        "Upgrade: websocket\r\nConnection: Upgrade\r\nSec-WebSocket-Key: {text}\r\nSec-WebSocket-Version: 13\r\n"
    )
}

/// The text of `Sec-WebSocket-Accept` by which an ask with this key is accepted (RFC 6455, section 4.1). It fails if it is out of memory.
pub fn accept_of_ask(alloc: Global, key: [u8; 16]) -> Result<Text8, AllocError>
    ensures { IfOk result (λ text. text ≡ accept_of_ask key) }
{
    let text = base64_of(alloc, &key)?;
    accept_key(alloc, text.as_bytes())
}

fn request_line(alloc: Global, name: &str, target: &str) -> Result<String, AllocError>
    ensures { IfOk result (λ line. string_bytes line ≡ request_line name.now target.now) }
{
    format!(in alloc; "{name} {target} HTTP/1.1\r\n")
}

fn host_line(alloc: Global, host: &str) -> Result<String, AllocError>
    ensures { IfOk result (λ line. string_bytes line ≡ host_line host.now) }
{
    format!(in alloc; "Host: {host}\r\n")
}

fn ask_text(
    alloc: Global,
    method: Method,
    host: &str,
    target: &str,
    key: Option<[u8; 16]>,
) -> Result<String, AllocError>
    ensures { IfOk result (λ text. string_bytes text ≡ ask_text method host.now target.now key) }
{
    let lines = key_lines(alloc, key)?;
    let host = host_line(alloc, host)?;
    let mut text = request_line(alloc, method_name(method), target)?;
    text.push_str(host.as_str())?;
    text.push_str(no_body_line(method))?;
    text.push_str(lines.as_str())?;
    text.push_str("\r\n")?;
    Ok(text)
}

/// Appends a request with no body for this target at this host (RFC 9112, section 3). With a key it asks for a WebSocket (RFC 6455,
/// section 4.1). Neither host nor target may hold a line end, which is not looked at. When out of memory `out` is as before.
pub fn write_ask(
    method: Method,
    host: &str,
    target: &str,
    key: Option<[u8; 16]>,
    out: &mut Vec<u8>,
) -> Result<(), AllocError>
    requires { method ≢ Method.Other }
    ensures ok { OnOk result (out.new.items ≡ out.old.items ++ ask_text method host.now target.now key) }
    ensures err { OnErr result (out.new.items ≡ out.old.items) }
{
    let text = ask_text(*out.allocator(), method, host, target, key)?;
    out.extend_from_slice(text.as_bytes())
}
