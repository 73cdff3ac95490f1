//! Control frames in MessagePack (HubProtocol.md, "MessagePack (MsgPack) encoding"), each after its length of one byte.
ghost use Rattle.std.specs.Prelude.{◌≡◌, ◌+◌, ◌≤◌, ◌++◌, ◌∷◌, [], Some, None, length, pos, vec_len, vec_capacity};
ghost use Rattle.std.specs.Int.{w16, w32, w64, to_be_bytes};
ghost use Rattle.hm_message.specs.declared.message.Message.TheVariants as message;
ghost use Rattle.hm_message.specs.declared.message.Codec.TheVariants.{Pack};
ghost use Rattle.hm_codec.specs.Frames.{framed};
ghost use Rattle.hm_pack.specs.Frame.{frame_of, text_written};
ghost use Rattle.hv_pack.specs.Writing.{int_text, shortest, bool_text};
ghost use Rattle.hd_delivery.specs.Frames.{error_of};
ghost use Rattle.he_wire.specs.Controls.{message_of};

use crate::control_buffer::{Control, MOST_CONTROL};
use crate::room::put;
use hd_delivery::Reason;

/// The error of a Close has at most this many bytes: a marker and a text.
const MOST_ERROR: usize = 20;

/// A number has at most its marker and eight bytes.
const MOST_NUMBER: usize = 9;

/// None of these frames has more bytes without its length: the longest, a Close with an error, has 23.
const MOST_FRAME: usize = 32;

// Markers of the MessagePack specification, "Formats".
const UINT_8: u8 = 0xcc;

const UINT_16: u8 = 0xcd;

const UINT_32: u8 = 0xce;

const UINT_64: u8 = 0xcf;

const FIX_STR: u8 = 0xa0;

const NIL: u8 = 0xc0;

const FALSE: u8 = 0xc2;

const TRUE: u8 = 0xc3;

const FIX_ARRAY: u8 = 0x90;

// The numbers of the messages' types, of which each frame has one after the count of its elements.
const PING: u8 = 6;

const CLOSE: u8 = 7;

const ACK: u8 = 8;

const SEQUENCE: u8 = 9;

/// A marker and the two bytes after it, the higher first.
fn put_two(marker: u8, n: u16, out: &mut Vec<u8>)
    requires { vec_len out.old + 3 ≤ vec_capacity out.old }
    ensures items { out.new.items ≡ out.old.items ++ marker ∷ to_be_bytes w16 n }
    ensures len { vec_len out.new ≡ vec_len out.old + 3 }
    ensures capacity { vec_capacity out.old ≤ vec_capacity out.new }
{
    let [a, b] = n.to_be_bytes();
    put(&[marker, a, b], out);
}

/// A marker and the four bytes after it, the highest first.
fn put_four(marker: u8, n: u32, out: &mut Vec<u8>)
    requires { vec_len out.old + 5 ≤ vec_capacity out.old }
    ensures items { out.new.items ≡ out.old.items ++ marker ∷ to_be_bytes w32 n }
    ensures len { vec_len out.new ≡ vec_len out.old + 5 }
    ensures capacity { vec_capacity out.old ≤ vec_capacity out.new }
{
    let [a, b, c, d] = n.to_be_bytes();
    put(&[marker, a, b, c, d], out);
}

/// A marker and the eight bytes after it, the highest first.
fn put_eight(marker: u8, n: u64, out: &mut Vec<u8>)
    requires { vec_len out.old + 9 ≤ vec_capacity out.old }
    ensures items { out.new.items ≡ out.old.items ++ marker ∷ to_be_bytes w64 n }
    ensures len { vec_len out.new ≡ vec_len out.old + 9 }
    ensures capacity { vec_capacity out.old ≤ vec_capacity out.new }
{
    let [a, b, c, d, e, f, g, h] = n.to_be_bytes();
    put(&[marker, a, b, c, d, e, f, g, h], out);
}

/// Appends the number in the shortest form.
#[tactic(auto, unfolding(hv_pack::specs::Writing::int_text))]
fn put_number(n: u64, out: &mut Vec<u8>)
    requires { vec_len out.old + MOST_NUMBER ≤ vec_capacity out.old }
    ensures items { out.new.items ≡ out.old.items ++ int_text (pos n) }
    ensures len { vec_len out.new ≤ vec_len out.old + MOST_NUMBER }
    ensures capacity { vec_capacity out.old ≤ vec_capacity out.new }
{
    match n {
        0..=0x7f => put(&[n as u8], out),
        0x80..=0xff => put(&[UINT_8, n as u8], out),
        0x100..=0xffff => put_two(UINT_16, n as u16, out),
        0x1_0000..=0xffff_ffff => put_four(UINT_32, n as u32, out),
        _ => put_eight(UINT_64, n, out),
    }
}

/// The text of an error, or null.
fn put_error(reason: Reason, out: &mut Vec<u8>)
    requires { vec_len out.old + MOST_ERROR ≤ vec_capacity out.old }
    ensures items { out.new.items ≡ out.old.items ++ shortest (text_written (error_of reason)) }
    ensures len { vec_len out.new ≤ vec_len out.old + MOST_ERROR }
    ensures capacity { vec_capacity out.old ≤ vec_capacity out.new }
{
    match reason.text() {
        None => put(&[NIL], out),
        Some(text) => {
            put(&[FIX_STR + text.len() as u8], out);
            put(text.as_bytes(), out);
        }
    }
}

/// The byte of a truth value.
fn bool_byte(value: bool) -> u8
    ensures { bool_text value ≡ result ∷ [] }
{
    if value { TRUE } else { FALSE }
}

fn put_ack(upto: u64, out: &mut Vec<u8>)
    requires { vec_len out.old + MOST_FRAME ≤ vec_capacity out.old }
    ensures items { out.new.items ≡ out.old.items ++ frame_of (message.Ack upto) }
    ensures len { vec_len out.new ≤ vec_len out.old + MOST_FRAME }
    ensures capacity { vec_capacity out.old ≤ vec_capacity out.new }
{
    put(&[FIX_ARRAY + 2, ACK], out);
    put_number(upto, out);
}

fn put_sequence(first: u64, out: &mut Vec<u8>)
    requires { vec_len out.old + MOST_FRAME ≤ vec_capacity out.old }
    ensures items { out.new.items ≡ out.old.items ++ frame_of (message.Sequence first None) }
    ensures len { vec_len out.new ≤ vec_len out.old + MOST_FRAME }
    ensures capacity { vec_capacity out.old ≤ vec_capacity out.new }
{
    put(&[FIX_ARRAY + 2, SEQUENCE], out);
    put_number(first, out);
}

/// A Sequence that tells how much was received.
fn put_resumed(first: u64, received: u64, out: &mut Vec<u8>)
    requires { vec_len out.old + MOST_FRAME ≤ vec_capacity out.old }
    ensures items { out.new.items ≡ out.old.items ++ frame_of (message.Sequence first (Some received)) }
    ensures len { vec_len out.new ≤ vec_len out.old + MOST_FRAME }
    ensures capacity { vec_capacity out.old ≤ vec_capacity out.new }
{
    put(&[FIX_ARRAY + 3, SEQUENCE], out);
    put_number(first, out);
    put_number(received, out);
}

fn put_ping(out: &mut Vec<u8>)
    requires { vec_len out.old + MOST_FRAME ≤ vec_capacity out.old }
    ensures items { out.new.items ≡ out.old.items ++ frame_of message.Ping }
    ensures len { vec_len out.new ≤ vec_len out.old + MOST_FRAME }
    ensures capacity { vec_capacity out.old ≤ vec_capacity out.new }
{
    put(&[FIX_ARRAY + 1, PING], out);
}

fn put_close(reason: Reason, allow: bool, out: &mut Vec<u8>)
    requires { vec_len out.old + MOST_FRAME ≤ vec_capacity out.old }
    ensures items { out.new.items ≡ out.old.items ++ frame_of (message.Close (error_of reason) allow) }
    ensures len { vec_len out.new ≤ vec_len out.old + MOST_FRAME }
    ensures capacity { vec_capacity out.old ≤ vec_capacity out.new }
{
    put(&[FIX_ARRAY + 3, CLOSE], out);
    put_error(reason, out);
    put(&[bool_byte(allow)], out);
}

/// Appends the frame without its length.
fn put_frame(control: Control, out: &mut Vec<u8>)
    requires { vec_len out.old + MOST_FRAME ≤ vec_capacity out.old }
    ensures items { out.new.items ≡ out.old.items ++ frame_of (message_of control) }
    ensures len { vec_len out.new ≤ vec_len out.old + MOST_FRAME }
    ensures capacity { vec_capacity out.old ≤ vec_capacity out.new }
{
    match control {
        Control::Ack { upto } => put_ack(upto, out),
        Control::Sequence {
            first,
            received: None,
        } => put_sequence(first, out),
        Control::Sequence {
            first,
            received: Some(received),
        } => put_resumed(first, received, out),
        Control::Ping => put_ping(out),
        Control::Close { reason, allow } => put_close(reason, allow, out),
    }
}

/// Writes the frame into an empty buffer.
pub(crate) fn put_pack(control: Control, out: &mut Vec<u8>)
    requires empty { out.old.items ≡ [] }
    requires room { MOST_CONTROL ≤ vec_capacity out.old }
    ensures items { out.new.items ≡ framed Pack (message_of control) }
    ensures len { vec_len out.new ≤ MOST_CONTROL }
    ensures capacity { vec_capacity out.old ≤ vec_capacity out.new }
{
    // the place of the length
    put(&[0], out);
    put_frame(control, out);
    out[0] = (out.len() - 1) as u8;
}
