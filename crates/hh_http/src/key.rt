//! The text that accepts a WebSocket's key.
ghost use Rattle.std.specs.Prelude.{◌≡◌, IfOk};
ghost use Rattle.websocket.specs.Handshake.{accept_key_of};

use hw_lanes::Text8;
use std::alloc::{AllocError, Global};
use websocket::handshake::derive_accept_key;

/// The text of `Sec-WebSocket-Accept` for the text of `Sec-WebSocket-Key` (RFC 6455, section 4.2.2): base64 of the SHA-1 of the
/// key and a fixed text. It fails if it is out of memory.
pub fn accept_key(alloc: Global, key: &[u8]) -> Result<Text8, AllocError>
    ensures { IfOk result (λ text. text ≡ accept_key_of key.now) }
{
    Text8::of(alloc, &derive_accept_key(key))
}
