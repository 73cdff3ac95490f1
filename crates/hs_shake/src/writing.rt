//! The handshakes that are written: each is one of a few texts, followed by the record separator.
ghost use Rattle.std.specs.Prelude.{◌≡◌, ◌++◌, OnOk, OnErr, IfSome, option_map};
ghost use Rattle.hf_split.specs.Cuts.{wrapped};
ghost use Rattle.hf_split.specs.declared.framing.Framing.TheVariants.{Record};
ghost use Rattle.hs_shake.specs.Requests.{protocol_name, request_frame};
ghost use Rattle.hs_shake.specs.Responses.{IsAnswered, answer_frame};

use crate::laws::texts_are_plain;
use crate::shake::{Shake, ShakeError};
use hf_split::{Framing, wrap};
use hm_message::Codec;
use std::alloc::AllocError;

/// No handshake that is written has more bytes, without its separator.
pub const MOST_HANDSHAKE: usize = 64;

/// The name of the codec's protocol in a request (HubProtocol.md, "Overview").
fn protocol_name(codec: Codec) -> &'static str
    ensures { result.now ≡ protocol_name codec }
{
    match codec {
        Codec::Json => "json",
        Codec::Pack => "messagepack",
    }
}

/// Appends a request with its separator, for any version. When out of memory `out` holds what it held.
pub fn write_request(shake: &Shake, out: &mut Vec<u8>) -> Result<(), AllocError>
    ensures ok { OnOk result (out.new.items
        ≡ out.old.items ++ (wrapped Record (request_frame shake.now.codec shake.now.version)).spelling) }
    ensures err { OnErr result (out.new.items ≡ out.old.items) }
{
    texts_are_plain();
    let name = protocol_name(shake.codec);
    let version = shake.version;
    let text = format!(in *out.allocator(); "{{\"protocol\":\"{name}\",\"version\":{version}}}")?;
    wrap(Framing::Record, text.as_bytes(), out)
}

/// The response to a request, with its separator: `{}` if there is no fault, else an object whose `error` is the fault's text.
/// A fault is one of [`read_request`](crate::read_request), other than `NoMemory`. It takes no memory.
pub fn response(fault: Option<&ShakeError>) -> &'static [u8]
    requires { IfSome fault (λ e. IsAnswered e.now) }
    ensures { result.now ≡ (wrapped Record (answer_frame (option_map (λ e. e.now) fault.entry))).spelling }
{
    match fault {
        None => b"{}\x1e",
        Some(ShakeError::NotJson) => b"{\"error\":\"The handshake is not JSON.\"}\x1e",
        Some(ShakeError::Missing(_)) => b"{\"error\":\"The handshake lacks a field.\"}\x1e",
        Some(ShakeError::Wrong(_)) => b"{\"error\":\"The handshake lacks a field.\"}\x1e",
        Some(ShakeError::Unspoken) => b"{\"error\":\"The protocol is not known.\"}\x1e",
        Some(ShakeError::Version(_)) => b"{\"error\":\"The version is not known.\"}\x1e",
        Some(ShakeError::Refused(_)) => unreachable!(),
        Some(ShakeError::NoMemory) => unreachable!(),
    }
}

/// Appends the [`response`] to a request. When out of memory `out` holds what it held.
pub fn write_response(fault: Option<&ShakeError>, out: &mut Vec<u8>) -> Result<(), AllocError>
    requires { IfSome fault (λ e. IsAnswered e.now) }
    ensures ok { OnOk result (out.new.items
        ≡ out.old.items ++ (wrapped Record (answer_frame (option_map (λ e. e.now) fault.entry))).spelling) }
    ensures err { OnErr result (out.new.items ≡ out.old.items) }
{
    out.extend_from_slice(response(fault))
}
