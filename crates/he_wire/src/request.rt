//! The request of a handshake, with its separator (HubProtocol.md, "Overview").
ghost use Rattle.std.specs.Prelude.{◌≡◌, ◌≤◌, [], vec_len, vec_capacity};
ghost use Rattle.hs_shake.specs.Requests.{protocol_name, request_frame};
ghost use Rattle.he_wire.specs.Spelling.{with_separator};

use crate::control_buffer::MOST_CONTROL;
use crate::room::{put, put_digits};
use hm_message::Codec;
use hs_shake::Shake;

/// The name of a codec's protocol.
fn protocol_name(codec: Codec) -> &'static [u8]
    ensures { result.now ≡ protocol_name codec }
{
    match codec {
        Codec::Json => b"json",
        Codec::Pack => b"messagepack",
    }
}

/// Writes the request into an empty buffer.
pub(crate) fn put_request(shake: Shake, out: &mut Vec<u8>)
    requires empty { out.old.items ≡ [] }
    requires room { MOST_CONTROL ≤ vec_capacity out.old }
    ensures items { out.new.items ≡ with_separator (request_frame shake.codec shake.version) }
    ensures len { vec_len out.new ≤ MOST_CONTROL }
    ensures capacity { vec_capacity out.old ≤ vec_capacity out.new }
{
    put(b"{\"protocol\":\"", out);
    put(protocol_name(shake.codec), out);
    put(b"\",\"version\":", out);
    put_digits(u64::from(shake.version), out);
    put(b"}\x1e", out);
}
