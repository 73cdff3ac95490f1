//! What a request asks for, before any token, user or draw is looked at.
ghost use Rattle.std.specs.Prelude.{◌≡◌, true, IfOk, Some as Given};
ghost use Rattle.hd_server.specs.Table.{asks_reconnect, has_version, is_base, is_negotiate, is_version};
ghost use Rattle.hn_server_front.specs.Routes.{RoutesTo, is_entry_at};

use crate::token::Token;
use hw_lanes::{Method, Request, query_value};
use std::alloc::{AllocError, Global};

/// The path of a negotiate, past the base.
const NEGOTIATE: &[u8] = b"/negotiate";

/// What a request is for.
#[derive(Drop)]
pub enum Route {
    /// A reply of this status, whatever else holds.
    Refuse(u16),
    /// A new token; `asked`: one whose connection can be resumed.
    Negotiate { asked: bool },
    /// A WebSocket for a connection without a token.
    Open,
    /// A WebSocket for a token's connection.
    Socket { token: Token },
    Poll { token: Token },
    Post { token: Token },
    Delete { token: Token },
}

impl Route {
    /// Where a request leads, at a server of this base.
    pub(crate) fn of(alloc: Global, base: &[u8], request: &Request) -> Result<Route, AllocError>
        ensures { IfOk result (λ route. RoutesTo base.now request.now route) }
    {
        let path = request.path.bytes();
        if path == base {
            return at_base(alloc, base, request);
        }
        if path.strip_prefix(base) == Some(NEGOTIATE) {
            return negotiate(alloc, base, request);
        }
        Ok(Route::Refuse(404))
    }

    /// Whether the request would make a connection, so that it matters who asks.
    pub fn is_entry(&self) -> bool
        ensures { result ≡ is_entry_at self.now }
    {
        match self {
            Route::Negotiate { asked: _ } => true,
            Route::Open => true,
            _ => false,
        }
    }
}

/// Where a negotiate leads.
fn negotiate(alloc: Global, base: &[u8], request: &Request) -> Result<Route, AllocError>
    ensures { IfOk result (λ route. is_negotiate base.now request.now ≡ true → RoutesTo base.now request.now route) }
{
    if request.method != Method::Post {
        return Ok(Route::Refuse(405));
    }
    if !has_version_in(alloc, request)? {
        return Ok(Route::Refuse(400));
    }
    Ok(Route::Negotiate {
        asked: asks_to_reconnect(alloc, request)?,
    })
}

/// Where a request for the base leads.
fn at_base(alloc: Global, base: &[u8], request: &Request) -> Result<Route, AllocError>
    ensures { IfOk result (λ route. is_base base.now request.now ≡ true → RoutesTo base.now request.now route) }
{
    let id = query_value(alloc, request.query.bytes(), b"id")?;
    if request.upgrade.is_some() && id.is_none() {
        return Ok(Route::Open);
    }
    if request.method == Method::Other {
        return Ok(Route::Refuse(405));
    }
    let Some(token) = id else {
        return Ok(Route::Refuse(400));
    };
    if request.upgrade.is_some() {
        return Ok(Route::Socket { token });
    }
    match request.method {
        Method::Get => Ok(Route::Poll { token }),
        Method::Post => Ok(Route::Post { token }),
        Method::Delete => Ok(Route::Delete { token }),
        Method::Other => Ok(Route::Refuse(405)),
    }
}

/// Whether the request names a version of the negotiation that there can be.
fn has_version_in(alloc: Global, request: &Request) -> Result<bool, AllocError>
    ensures { IfOk result (λ has. has ≡ has_version request.now) }
{
    let Some(text) = query_value(alloc, request.query.bytes(), b"negotiateVersion")? else {
        return Ok(false);
    };
    Ok(is_a_version(text.bytes()))
}

/// Whether the text is decimal digits of a number from 1 to 2^64 - 1.
fn is_a_version(text: &[u8]) -> bool
    ensures { result ≡ is_version (Given text.now) }
{
    // `parse` takes a sign too.
    if !text.iter().all(|b| b.is_ascii_digit()) {
        return false;
    }
    let Ok(digits) = str::from_utf8(text) else {
        return false;
    };
    match digits.parse::<u64>() {
        Ok(number) => number > 0,
        Err(_) => false,
    }
}

/// Whether the request asks that its connection can be resumed.
fn asks_to_reconnect(alloc: Global, request: &Request) -> Result<bool, AllocError>
    ensures { IfOk result (λ asks. asks ≡ asks_reconnect request.now) }
{
    match query_value(alloc, request.query.bytes(), b"useStatefulReconnect")? {
        Some(text) => Ok(text.bytes() == b"true".as_slice()),
        None => Ok(false),
    }
}
