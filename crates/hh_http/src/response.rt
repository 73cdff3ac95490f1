//! A response's head: what it says, or why it is refused.
ghost use Rattle.std.specs.Prelude.{length, map, option_map, All, IfOk};
ghost use Rattle.httparse.specs.Spans.{IsHeaderWithin, IsResponseWithin, IsResponseOf, header_bytes};
ghost use Rattle.hh_http.specs.Responses.{NamesBy, Measures, response_grammar};

use crate::error::{HttpError, only_status};
use crate::fields::{first_named, known_fields, stated_length};
use crate::head::allowed_length;
use crate::message::{Head, Message};
use httparse::spans::{HeaderSpan, ResponseSpans, parse_response};
use hw_lanes::{Text8, Vec8};
use std::alloc::{AllocError, Global};

/// The status of a response that accepts a WebSocket (RFC 9110, section 15.2.2).
pub(crate) const SWITCHING: u16 = 101;

/// A whole response.
#[derive(Drop, PartialEq, Eq)]
pub struct Response {
    pub status: u16,
    /// The value of the first `Sec-WebSocket-Accept`. At 101 it is to be [`accept_key`](crate::accept_key) of the key that was sent.
    pub accept: Option<Text8>,
    pub body: Vec8,
}

/// The length of the body, or why the head is refused.
fn body_length(held: &[u8], headers: &[HeaderSpan]) -> Result<usize, HttpError>
    requires { All (IsHeaderWithin (length held.now)) headers.now }
    ensures { Measures (map (header_bytes held.now) headers.now) result }
{
    let known = known_fields(held, headers);
    match stated_length(held, headers, known.content_length) {
        Some(length) => allowed_length(held, headers, length),
        None => Err(HttpError::Refused(only_status(400))),
    }
}

/// The response of a head, without its body.
fn without_body(
    alloc: Global,
    held: &[u8],
    status: u16,
    headers: &[HeaderSpan],
) -> Result<Response, AllocError>
    requires { All (IsHeaderWithin (length held.now)) headers.now }
    ensures { IfOk result (NamesBy status (map (header_bytes held.now) headers.now)) }
{
    let accept = match first_named(held, headers, b"sec-websocket-accept") {
        Some(text) => Some(Text8::of(alloc, text)?),
        None => None,
    };
    Ok(Response {
        status,
        accept,
        body: Vec8::from_vec(Vec::new(alloc)),
    })
}

impl Message for Response {
    type Spans = ResponseSpans;

    ghost use Rattle.hh_http.specs.Lawful.{response-grammar};

    ghost grammar = { response_grammar };

    ghost covers = { λ held headers spans. IsResponseWithin held headers spans × IsResponseOf held headers spans };

    fn parse(held: &[u8], headers: &mut [HeaderSpan]) -> httparse::Result<ResponseSpans> {
        parse_response(held, headers)
    }

    fn judge(
        alloc: Global,
        held: &[u8],
        spans: ResponseSpans,
        headers: &[HeaderSpan],
    ) -> Result<Head<Response>, HttpError> {
        let headers = &headers[..spans.headers];
        let length = body_length(held, headers)?;
        let message = without_body(alloc, held, spans.code, headers)?;
        Ok(Head {
            message,
            start: spans.len,
            end: spans.len + length,
            expects: false,
        })
    }

    fn with_body(mut self, body: Vec8) -> Response {
        self.body = body;
        self
    }

    fn is_last(&self) -> bool {
        self.status == SWITCHING
    }

    ghost lawful = { response-grammar };
}
