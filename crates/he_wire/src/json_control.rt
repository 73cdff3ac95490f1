//! Control frames in JSON (HubProtocol.md, "JSON Encoding"), each with its separator. Properties stand in byte order of their names.
ghost use Rattle.std.specs.Prelude.{◌≡◌, ◌+◌, ◌≤◌, ◌++◌, [], Some, None, vec_len, vec_capacity};
ghost use Rattle.hm_message.specs.declared.message.Message.TheVariants as message;
ghost use Rattle.hm_message.specs.declared.message.Codec.TheVariants.{Json};
ghost use Rattle.hm_codec.specs.Frames.{framed};
ghost use Rattle.hd_delivery.specs.Frames.{error_of};
ghost use Rattle.he_wire.specs.Controls.{message_of, allow_text, error_text};

use crate::control_buffer::{Control, MOST_CONTROL};
use crate::room::{put, put_digits};
use hd_delivery::Reason;

fn put_ack(upto: u64, out: &mut Vec<u8>)
    requires empty { out.old.items ≡ [] }
    requires room { MOST_CONTROL ≤ vec_capacity out.old }
    ensures items { out.new.items ≡ framed Json (message.Ack upto) }
    ensures len { vec_len out.new ≤ MOST_CONTROL }
    ensures capacity { vec_capacity out.old ≤ vec_capacity out.new }
{
    put(b"{\"sequenceId\":", out);
    put_digits(upto, out);
    put(b",\"type\":8}\x1e", out);
}

fn put_sequence(first: u64, out: &mut Vec<u8>)
    requires empty { out.old.items ≡ [] }
    requires room { MOST_CONTROL ≤ vec_capacity out.old }
    ensures items { out.new.items ≡ framed Json (message.Sequence first None) }
    ensures len { vec_len out.new ≤ MOST_CONTROL }
    ensures capacity { vec_capacity out.old ≤ vec_capacity out.new }
{
    put(b"{\"sequenceId\":", out);
    put_digits(first, out);
    put(b",\"type\":9}\x1e", out);
}

/// A Sequence that tells how much was received.
fn put_resumed(first: u64, received: u64, out: &mut Vec<u8>)
    requires empty { out.old.items ≡ [] }
    requires room { MOST_CONTROL ≤ vec_capacity out.old }
    ensures items { out.new.items ≡ framed Json (message.Sequence first (Some received)) }
    ensures len { vec_len out.new ≤ MOST_CONTROL }
    ensures capacity { vec_capacity out.old ≤ vec_capacity out.new }
{
    put(b"{\"received\":", out);
    put_digits(received, out);
    put(b",\"sequenceId\":", out);
    put_digits(first, out);
    put(b",\"type\":9}\x1e", out);
}

/// The first property of a Close, which stands only where the other end may connect again.
fn allow_property(allow: bool) -> &'static [u8]
    ensures { result.now ≡ allow_text allow }
{
    if allow {
        b"\"allowReconnect\":true,"
    } else {
        b""
    }
}

/// The error of a Close, as its property.
fn put_error(reason: Reason, out: &mut Vec<u8>)
    requires room { vec_len out.old + 30 ≤ vec_capacity out.old }
    ensures items { out.new.items ≡ out.old.items ++ error_text (error_of reason) }
    ensures len { vec_len out.new ≤ vec_len out.old + 30 }
    ensures capacity { vec_capacity out.old ≤ vec_capacity out.new }
{
    let Some(text) = reason.text() else {
        return;
    };
    put(b"\"error\":\"", out);
    put(text.as_bytes(), out);
    put(b"\",", out);
}

fn put_close(reason: Reason, allow: bool, out: &mut Vec<u8>)
    requires empty { out.old.items ≡ [] }
    requires room { MOST_CONTROL ≤ vec_capacity out.old }
    ensures items { out.new.items ≡ framed Json (message.Close (error_of reason) allow) }
    ensures len { vec_len out.new ≤ MOST_CONTROL }
    ensures capacity { vec_capacity out.old ≤ vec_capacity out.new }
{
    put(b"{", out);
    put(allow_property(allow), out);
    put_error(reason, out);
    put(b"\"type\":7}\x1e", out);
}

fn put_ping(out: &mut Vec<u8>)
    requires empty { out.old.items ≡ [] }
    requires room { MOST_CONTROL ≤ vec_capacity out.old }
    ensures items { out.new.items ≡ framed Json message.Ping }
    ensures len { vec_len out.new ≤ MOST_CONTROL }
    ensures capacity { vec_capacity out.old ≤ vec_capacity out.new }
{
    put(b"{\"type\":6}\x1e", out);
}

/// Writes the frame into an empty buffer.
pub(crate) fn put_json(control: Control, out: &mut Vec<u8>)
    requires empty { out.old.items ≡ [] }
    requires room { MOST_CONTROL ≤ vec_capacity out.old }
    ensures items { out.new.items ≡ framed Json (message_of control) }
    ensures len { vec_len out.new ≤ MOST_CONTROL }
    ensures capacity { vec_capacity out.old ≤ vec_capacity out.new }
{
    match control {
        Control::Ack { upto } => put_ack(upto, out),
        Control::Sequence {
            first,
            received: None,
        } => put_sequence(first, out),
        Control::Sequence {
            first,
            received: Some(received),
        } => put_resumed(first, received, out),
        Control::Ping => put_ping(out),
        Control::Close { reason, allow } => put_close(reason, allow, out),
    }
}
