//! Requests and replies, as a server sees them.

ghost use Rattle.std.specs.Prelude.{◌≡◌, IfOk};

use crate::bytes::{Text8, Vec8};
use std::alloc::AllocError;

/// What a request asks for.
#[derive(Clone, Copy, Debug, PartialEq, Eq)]
pub enum Method {
    Get,
    Post,
    Delete,
    /// Any other.
    Other,
}

/// A whole request.
#[derive(Drop, PartialEq, Eq)]
pub struct Request {
    pub method: Method,
    /// The target's bytes before its first `?`.
    pub path: Text8,
    /// The target's bytes after its first `?`, not decoded, or none.
    pub query: Text8,
    /// The access token, of the `Authorization` header or else of the query.
    pub bearer: Option<Text8>,
    /// The text of `Sec-WebSocket-Accept`, if this asks for a WebSocket.
    pub upgrade: Option<Text8>,
    /// The connection ends after the reply, unless that is 101.
    pub shut: bool,
    pub body: Vec8,
}

/// A copy of a text, if there is one.
fn copy_text(text: &Option<Text8>) -> Result<Option<Text8>, AllocError>
    ensures { IfOk result (λ t. t ≡ text.now) }
{
    match text {
        Some(text) => Ok(Some(text.copy()?)),
        None => Ok(None),
    }
}

impl Request {
    /// A copy. It takes no `alloc`: the bytes keep theirs.
    pub fn copy(&self) -> Result<Request, AllocError>
        ensures { IfOk result (λ r. r ≡ self.now) }
    {
        Ok(Request {
            method: self.method,
            path: self.path.copy()?,
            query: self.query.copy()?,
            bearer: copy_text(&self.bearer)?,
            upgrade: copy_text(&self.upgrade)?,
            shut: self.shut,
            body: self.body.copy()?,
        })
    }
}

/// What a body is.
#[derive(Clone, Copy, Debug, PartialEq, Eq)]
pub enum BodyKind {
    /// There is none, or its kind isn't said.
    None,
    Json,
    Octets,
}

/// A field of a refusal's head that says what would not be refused.
#[derive(Clone, Copy, Debug, PartialEq, Eq)]
pub enum ReplyField {
    /// `Allow: POST` (RFC 9110, section 10.2.1).
    AllowPost,
    /// `Allow: GET, POST, DELETE`.
    AllowGetPostDelete,
    /// `WWW-Authenticate: Bearer` (RFC 9110, section 11.6.1; RFC 6750, section 3).
    AuthenticateBearer,
    /// `Sec-WebSocket-Version: 13` (RFC 6455, section 4.4).
    WebSocketVersion,
}

/// How a request is refused.
#[derive(Clone, Copy, Debug, PartialEq, Eq)]
pub struct Refusal {
    pub status: u16,
    pub field: Option<ReplyField>,
}

/// A reply to a request.
#[derive(Drop, PartialEq, Eq)]
pub struct Reply {
    pub status: u16,
    pub kind: BodyKind,
    pub body: Vec8,
    /// The text of `Sec-WebSocket-Accept`, at 101.
    pub accept: Option<Text8>,
    pub field: Option<ReplyField>,
    /// The connection ends after this reply, and its head says so (`Connection: close`, RFC 9112, section 9.6), unless the status is 101.
    pub close: bool,
}
