//! A request's head: what it says, or why it is refused.
ghost use Rattle.std.specs.Prelude.{◌≡◌, ◌+◌, ◌-◌, ◌^◌, ◌<◌, ◌↔◌, min, length, map, option_map, All, IfOk, IsTrue, Some, List, codes};
ghost use Rattle.httparse.specs.Spans.{IsHeaderWithin, IsRequestWithin, IsRequestOf, header_bytes, span_bytes};
ghost use Rattle.hh_http.specs.Heads.{first_named, agree, lengths, number_of, hosts, are_hosts_right, asks_upgrade, expects_continue, token_of, bearer_of, method_of, path_of, query_of};
ghost use Rattle.http1.specs.Fields.{Header};
ghost use Rattle.hh_http.specs.Asks.{Upgrading, Allows, Checks, NamesBy, request_grammar};

use crate::error::{HttpError, only_status, other_version};
use crate::fields::{first_named, known_fields, lists, stated_length};
use crate::limits::MOST_BODY;
use crate::message::{Head, Message};
use http1::text::eq_ignore_case;
use httparse::spans::{HeaderSpan, RequestSpans, parse_request};
use hw_lanes::{Method, Request, Text8, Vec8, query_value};
use std::alloc::{AllocError, Global};
use websocket::handshake::server::accept_key;

fn method(name: &[u8]) -> Method
    ensures { result ≡ method_of name.now }
{
    if name == b"GET".as_slice() {
        return Method::Get;
    }
    if name == b"POST".as_slice() {
        return Method::Post;
    }
    if name == b"DELETE".as_slice() {
        return Method::Delete;
    }
    Method::Other
}

/// The target before its first `?`, and after it.
fn split_target(target: &[u8]) -> (&[u8], &[u8])
    ensures path { result.0.now ≡ path_of target.now }
    ensures query { result.1.now ≡ query_of target.now }
{
    match target.iter().position(|&b| b == b'?') {
        Some(i) => (&target[..i], &target[i + 1..]),
        None => (target, &[]),
    }
}

/// The token of a value of `Authorization`, if its scheme is `Bearer` (RFC 6750, section 2.1).
fn token(value: &[u8]) -> Option<&[u8]>
    ensures { option_map (λ t. t.now) result ≡ token_of value.now }
{
    let scheme = b"bearer ";
    let length = value.len().min(scheme.len());
    if eq_ignore_case(&value[..length], scheme) {
        Some(&value[length..])
    } else {
        None
    }
}

fn bearer(
    alloc: Global,
    held: &[u8],
    headers: &[HeaderSpan],
    query: &[u8],
) -> Result<Option<Text8>, AllocError>
    requires { All (IsHeaderWithin (length held.now)) headers.now }
    ensures { IfOk result (λ text.
        text ≡ bearer_of (map (header_bytes held.now) headers.now) query.now) }
{
    if let Some(value) = first_named(held, headers, b"authorization")
        && let Some(token) = token(value)
    {
        return Ok(Some(Text8::of(alloc, token)?));
    }
    query_value(alloc, query, b"access_token")
}

/// Whether the value is there and is `13`, the version of RFC 6455.
fn is_thirteen(version: Option<&[u8]>) -> bool
    ensures { IsTrue result ↔ (option_map (λ v. v.now) version.entry ≡ Some (codes "13")) }
{
    match version {
        Some(version) => version == b"13".as_slice(),
        None => false,
    }
}

/// Whether the head asks for a WebSocket.
fn asks_upgrade(held: &[u8], name: &[u8], headers: &[HeaderSpan]) -> bool
    requires { All (IsHeaderWithin (length held.now)) headers.now }
    ensures { result ≡ asks_upgrade name.now (map (header_bytes held.now) headers.now) }
{
    name == b"GET".as_slice()
        && lists(held, headers, b"upgrade", b"websocket")
        && lists(held, headers, b"connection", b"upgrade")
}

/// The text that accepts the key of a head that asks for a WebSocket, or `None` if it asks for none.
fn upgrade(
    alloc: Global,
    held: &[u8],
    name: &[u8],
    headers: &[HeaderSpan],
) -> Result<Option<Text8>, HttpError>
    requires { All (IsHeaderWithin (length held.now)) headers.now }
    ensures { Upgrading name.now (map (header_bytes held.now) headers.now) result }
{
    if !asks_upgrade(held, name, headers) {
        return Ok(None);
    }
    if !is_thirteen(first_named(held, headers, b"sec-websocket-version")) {
        return Err(HttpError::Refused(other_version()));
    }
    let Some(key) = first_named(held, headers, b"sec-websocket-key") else {
        return Err(HttpError::Refused(only_status(400)));
    };
    match accept_key(key) {
        Ok(accept) => Ok(Some(Text8::of(alloc, &accept)?)),
        Err(_) => Err(HttpError::Refused(only_status(400))),
    }
}

/// The length of a body whose lengths say this number, or why there is no such body.
pub(crate) fn allowed_length(
    held: &[u8],
    headers: &[HeaderSpan],
    stated: u64,
) -> Result<usize, HttpError>
    requires spans { All (IsHeaderWithin (length held.now)) headers.now }
    requires agree { IsTrue (agree (lengths (map (header_bytes held.now) headers.now))) }
    requires stated { stated
        ≡ min (number_of (lengths (map (header_bytes held.now) headers.now))) (2 ^ 64 - 1) }
    ensures { Allows (map (header_bytes held.now) headers.now) result }
{
    if first_named(held, headers, b"transfer-encoding").is_some() {
        return Err(HttpError::Refused(only_status(411)));
    }
    if stated > MOST_BODY as u64 {
        return Err(HttpError::Refused(only_status(413)));
    }
    Ok(stated as usize)
}

/// Whether HTTP/1.`minor` has `count` fields `Host`, where two stand for more.
fn are_hosts_right(minor: u8, count: u8) -> bool
    ensures { (fields : List Header) → count ≡ min (hosts fields) 2 → result ≡ are_hosts_right minor fields }
{
    count == 1 || count == 0 && minor == 0
}

/// The text that accepts the key, if the head asks for a WebSocket, and the length of the body; or why the head is refused.
fn check(
    alloc: Global,
    held: &[u8],
    name: &[u8],
    minor: u8,
    headers: &[HeaderSpan],
) -> Result<(Option<Text8>, usize), HttpError>
    requires { All (IsHeaderWithin (length held.now)) headers.now }
    ensures { Checks name.now minor (map (header_bytes held.now) headers.now) result }
{
    let accept = upgrade(alloc, held, name, headers)?;
    let known = known_fields(held, headers);
    let Some(stated) = stated_length(held, headers, known.content_length) else {
        return Err(HttpError::Refused(only_status(400)));
    };
    if !are_hosts_right(minor, known.hosts) {
        return Err(HttpError::Refused(only_status(400)));
    }
    match allowed_length(held, headers, stated) {
        Ok(length) => Ok((accept, length)),
        Err(HttpError::Refused(refusal)) => Err(HttpError::Refused(refusal)),
        Err(HttpError::NoMemory) => Err(HttpError::NoMemory),
    }
}

/// Whether the body is sent once a 100 came.
fn expects_continue(held: &[u8], minor: u8, headers: &[HeaderSpan]) -> bool
    requires { All (IsHeaderWithin (length held.now)) headers.now }
    ensures { result ≡ expects_continue minor (map (header_bytes held.now) headers.now) }
{
    minor == 1 && lists(held, headers, b"expect", b"100-continue")
}

/// The request of a head, without its body.
fn request(
    alloc: Global,
    held: &[u8],
    spans: RequestSpans,
    headers: &[HeaderSpan],
    upgrade: Option<Text8>,
) -> Result<Request, AllocError>
    requires within { IsRequestWithin held.now headers.now spans }
    requires spans { All (IsHeaderWithin (length held.now)) headers.now }
    ensures names { IfOk result (NamesBy (span_bytes held.now spans.method)
        (span_bytes held.now spans.path) spans.version (map (header_bytes held.now) headers.now)) }
    ensures upgrade { IfOk result (λ q. q.upgrade ≡ upgrade) }
{
    let (path, query) = split_target(spans.path.of(held));
    Ok(Request {
        method: method(spans.method.of(held)),
        path: Text8::of(alloc, path)?,
        query: Text8::of(alloc, query)?,
        bearer: bearer(alloc, held, headers, query)?,
        upgrade,
        shut: spans.version == 0 || lists(held, headers, b"connection", b"close"),
        body: Vec8::from_vec(Vec::new(alloc)),
    })
}

impl Message for Request {
    type Spans = RequestSpans;

    ghost use Rattle.hh_http.specs.Lawful.{request-grammar};

    ghost grammar = { request_grammar };

    ghost covers = { λ held headers spans. IsRequestWithin held headers spans × IsRequestOf held headers spans };

    fn parse(held: &[u8], headers: &mut [HeaderSpan]) -> httparse::Result<RequestSpans> {
        parse_request(held, headers)
    }

    fn judge(
        alloc: Global,
        held: &[u8],
        spans: RequestSpans,
        headers: &[HeaderSpan],
    ) -> Result<Head<Request>, HttpError> {
        let headers = &headers[..spans.headers];
        let (accept, length) = check(alloc, held, spans.method.of(held), spans.version, headers)?;
        let expects = expects_continue(held, spans.version, headers);
        let message = request(alloc, held, spans, headers, accept)?;
        Ok(Head {
            message,
            start: spans.len,
            end: spans.len + length,
            expects,
        })
    }

    fn with_body(mut self, body: Vec8) -> Request {
        self.body = body;
        self
    }

    fn is_last(&self) -> bool {
        self.upgrade.is_some()
    }

    ghost lawful = { request-grammar };
}
