//! The body that tells a token.
ghost use Rattle.std.specs.Prelude.{◌≡◌, IfOk};
ghost use Rattle.hn_server_front.specs.Bodies.{body_for};

use crate::token::Token;
use hw_lanes::Vec8;
use std::alloc::{AllocError, Global};

/// Over what a connection may go.
#[derive(Clone, Copy, Debug, PartialEq, Eq)]
pub(crate) enum Transports {
    All,
    /// WebSockets alone.
    Sockets,
}

const ALL: &[u8] =
    b"{\"availableTransports\":[{\"transferFormats\":[\"Text\",\"Binary\"],\"transport\":\"WebSockets\"},\
    {\"transferFormats\":[\"Text\",\"Binary\"],\"transport\":\"LongPolling\"}],\"connectionId\":\"";

const SOCKETS: &[u8] =
    b"{\"availableTransports\":[{\"transferFormats\":[\"Text\",\"Binary\"],\"transport\":\"WebSockets\"}],\"connectionId\":\"";

/// The body that tells a connection and its token; `reconnect`: that it can be resumed (TransportProtocols.md, "POST
/// endpoint-base/negotiate").
pub(crate) fn body(
    alloc: Global,
    transports: Transports,
    conn: u64,
    token: &Token,
    reconnect: bool,
) -> Result<Vec8, AllocError>
    ensures { IfOk result (λ body. body ≡ body_for transports conn token.now reconnect) }
{
    let number = format!(in alloc; "{conn}")?;
    let front = match transports {
        Transports::All => ALL,
        Transports::Sockets => SOCKETS,
    };
    let end: &[u8] = if reconnect {
        b",\"useStatefulReconnect\":true}"
    } else {
        b"}"
    };
    let pieces: [&[u8]; 6] = [
        front,
        number.as_bytes(),
        b"\",\"connectionToken\":\"",
        token.bytes(),
        b"\",\"negotiateVersion\":1",
        end,
    ];
    Ok(Vec8::from_vec(pieces.concat(alloc)?))
}
