//! Tokens, by which requests name connections.
ghost use Rattle.std.specs.Prelude.{◌≡◌, ◌++◌, IfOk};
ghost use Rattle.hd_server.specs.Texts.{eight_bytes, token_of};

use base64::engine::general_purpose::URL_SAFE_NO_PAD;
use hw_lanes::Text8;
use std::alloc::{AllocError, Global};

/// The text by which a request names a connection. It need not be one that was told.
pub type Token = Text8;

/// The token of a connection and of what was drawn for it: their 24 bytes, the number's highest first, in the letters of base64 that
/// a path may bear, without padding (RFC 4648, section 5).
pub(crate) fn token_for(alloc: Global, drawn: [u8; 16], conn: u64) -> Result<Token, AllocError>
    ensures { IfOk result (λ t. t ≡ token_of drawn conn) }
{
    let text = URL_SAFE_NO_PAD.encode(alloc, &bytes_of(drawn, conn))?;
    Ok(Token::from_vec(text.into_bytes()))
}

/// The bytes that a token spells: those that were drawn, and the number's, the highest first.
fn bytes_of(drawn: [u8; 16], conn: u64) -> [u8; 24]
    ensures { result ≡ drawn ++ eight_bytes conn }
{
    let mut bytes = [0; 24];
    bytes[..16].copy_from_slice(&drawn);
    bytes[16..].copy_from_slice(&conn.to_be_bytes());
    bytes
}
