//! Messages that are told by comparing bytes: Pings, and Acks, Sequences and cancellations that have no more than their
//! number or their id. The type stands first, as ASP.NET Core and its clients write it, or last, as
//! [`write_message`](crate::write_message) does. Whatever has another text is left to the reading of all frames.
ghost use Rattle.std.specs.Prelude.{◌≡◌, ◌<◌, ◌^◌, ◌++◌, IfOk, IfSome, IsTrue, codes, true};
ghost use Rattle.std.specs.Fmt.{decimal};
ghost use Rattle.std.specs.List.{list_all};
ghost use Rattle.std.specs.Str.{IsUtf8};
ghost use Rattle.json.specs.Run.{is_plain};
ghost use Rattle.hm_message.specs.Message.{Fits};
ghost use Rattle.hm_json.specs.Says.{Says};

use hm_message::{Headers, Message};
use hv_value::{Text, last_pair_counts};
use itoa::Buffer;
use std::alloc::{AllocError, Global};

/// The place of the type's digit where the type stands first: elsewhere a letter of the first name stands there.
const DIGIT: usize = 8;

/// What stands between these two parts of a frame, if it begins with the one and ends with the other.
fn between<'a>(frame: &'a [u8], before: &[u8], after: &[u8]) -> Option<&'a [u8]>
    ensures { IfSome result (λ part. frame.now ≡ before.now ++ (part.now ++ after.now)) }
{
    let rest = frame.strip_prefix(before)?;
    let part = rest.strip_suffix(after)?;
    Some(part)
}

/// The number whose digits these are, if they have no needless zeros and it is below 2^64.
fn number(digits: &[u8]) -> Option<u64>
    ensures { IfSome result (λ n. (digits.now ≡ decimal n) × (n < 2 ^ 64)) }
{
    // Whatever else these bytes are, the number that this gives isn't printed as they stand.
    let mut number: u64 = 0;
    for digit in digits {
        let value = u64::from(digit.wrapping_sub(b'0'));
        number = number.wrapping_mul(10).wrapping_add(value);
    }
    let mut printed = Buffer::new();
    if printed.format(number).as_bytes() == digits {
        Some(number)
    } else {
        None
    }
}

fn is_plain_byte(byte: u8) -> bool
    ensures { result ≡ is_plain byte }
{
    !(byte == b'"' || byte == b'\\' || byte < b' ')
}

/// Whether each of these bytes stands in a string as it is.
fn are_plain(bytes: &[u8]) -> bool
    ensures { result ≡ list_all is_plain bytes.now }
{
    bytes.iter().all(|&byte| is_plain_byte(byte))
}

fn number_between(frame: &[u8], before: &[u8], after: &[u8]) -> Option<u64>
    ensures { IfSome result (λ n. (frame.now ≡ before.now ++ (decimal n ++ after.now)) × (n < 2 ^ 64)) }
{
    let digits = between(frame, before, after)?;
    number(digits)
}

/// The id between these two parts of a frame, if nothing is escaped in it.
fn id_between(
    alloc: Global,
    frame: &[u8],
    before: &[u8],
    after: &[u8],
) -> Result<Option<Text>, AllocError>
    ensures { IfOk result (λ found. IfSome found
        (λ id. (frame.now ≡ before.now ++ (id ++ after.now)) × IsUtf8 id × (list_all is_plain id ≡ true))) }
{
    let Some(part) = between(frame, before, after) else {
        return Ok(None);
    };
    if !are_plain(part) {
        return Ok(None);
    }
    let Ok(text) = str::from_utf8(part) else {
        return Ok(None);
    };
    let id = Text::of(alloc, text)?;
    Ok(Some(id))
}

fn is_ping(frame: &[u8]) -> bool
    ensures { IsTrue result → frame.now ≡ codes "{\"type\":6}" }
{
    match frame {
        b"{\"type\":6}" => true,
        _ => false,
    }
}

fn ping(frame: &[u8]) -> Option<Message>
    ensures { IfSome result (λ m. Says frame.now m × Fits m) }
{
    last_pair_counts();
    if is_ping(frame) {
        Some(Message::Ping)
    } else {
        None
    }
}

fn ack(frame: &[u8]) -> Option<Message>
    ensures { IfSome result (λ m. Says frame.now m × Fits m) }
{
    last_pair_counts();
    let upto = number_between(frame, b"{\"type\":8,\"sequenceId\":", b"}")?;
    Some(Message::Ack { upto })
}

fn ack_with_the_type_last(frame: &[u8]) -> Option<Message>
    ensures { IfSome result (λ m. Says frame.now m × Fits m) }
{
    last_pair_counts();
    let upto = number_between(frame, b"{\"sequenceId\":", b",\"type\":8}")?;
    Some(Message::Ack { upto })
}

fn sequence(frame: &[u8]) -> Option<Message>
    ensures { IfSome result (λ m. Says frame.now m × Fits m) }
{
    last_pair_counts();
    let first = number_between(frame, b"{\"type\":9,\"sequenceId\":", b"}")?;
    Some(Message::Sequence {
        first,
        received: None,
    })
}

fn sequence_with_the_type_last(frame: &[u8]) -> Option<Message>
    ensures { IfSome result (λ m. Says frame.now m × Fits m) }
{
    last_pair_counts();
    let first = number_between(frame, b"{\"sequenceId\":", b",\"type\":9}")?;
    Some(Message::Sequence {
        first,
        received: None,
    })
}

fn cancellation(alloc: Global, frame: &[u8]) -> Result<Option<Message>, AllocError>
    ensures { IfOk result (λ found. IfSome found (λ m. Says frame.now m × Fits m)) }
{
    last_pair_counts();
    let found = id_between(alloc, frame, b"{\"type\":5,\"invocationId\":\"", b"\"}")?;
    match found {
        Some(id) => Ok(Some(Message::CancelInvocation {
            headers: Headers::none(alloc),
            id,
        })),
        None => Ok(None),
    }
}

fn cancellation_with_the_type_last(
    alloc: Global,
    frame: &[u8],
) -> Result<Option<Message>, AllocError>
    ensures { IfOk result (λ found. IfSome found (λ m. Says frame.now m × Fits m)) }
{
    last_pair_counts();
    let found = id_between(alloc, frame, b"{\"invocationId\":\"", b"\",\"type\":5}")?;
    match found {
        Some(id) => Ok(Some(Message::CancelInvocation {
            headers: Headers::none(alloc),
            id,
        })),
        None => Ok(None),
    }
}

/// An Ack or a Sequence whose type stands last.
fn numbered_with_the_type_last(frame: &[u8]) -> Option<Message>
    ensures { IfSome result (λ m. Says frame.now m × Fits m) }
{
    match ack_with_the_type_last(frame) {
        Some(message) => Some(message),
        None => sequence_with_the_type_last(frame),
    }
}

/// The message of a frame that is told by its bytes, or `None` if it has to be read.
pub(crate) fn short_message(alloc: Global, frame: &[u8]) -> Result<Option<Message>, AllocError>
    ensures { IfOk result (λ found. IfSome found (λ m. Says frame.now m × Fits m)) }
{
    if frame.len() <= DIGIT {
        return Ok(None);
    }
    match frame[DIGIT] {
        b'5' => cancellation(alloc, frame),
        b'6' => Ok(ping(frame)),
        b'8' => Ok(ack(frame)),
        b'9' => Ok(sequence(frame)),
        // Of `sequenceId`.
        b'c' => Ok(numbered_with_the_type_last(frame)),
        // Of `invocationId`.
        b't' => cancellation_with_the_type_last(alloc, frame),
        _ => Ok(None),
    }
}
