//! Sends calls of 200 bytes from one end to another in memory, with Acks back, or writes and reads them by the codec alone: a measure of
//! `he_end`. Or holds ends at rest.

ghost use Rattle.std.specs.Prelude.{◌≡◌, true, IfSome};
ghost use Rattle.hm_message.specs.Message.{is_sequenced, Fits};

use crate::length::Length;
use hd_delivery::{Got, Side};
use he_end::{Config, End};
use hm_codec::{read_message, write_message};
use hm_message::{Codec, Message, Read};
use hq_resend::Limits;
use std::alloc::Global;

/// How many calls are sent before an Ack.
const BATCH: u32 = 64;

/// How often so many are sent in the whole.
const ROUNDS: u32 = 1_000;

/// An end has fewer frames than this to say at once, and a frame gives fewer answers.
const MANY: u32 = 100;

/// How many bytes the length before a MessagePack frame of 128 to 16,383 bytes has.
const PREFIX: usize = 2;

/// Frames of 32 KiB; 1,024 messages and 100,000 bytes are held.
fn limits() -> Option<Limits> {
    Limits::of(32_768, 1_024, 100_000)
}

/// What each end is begun with.
fn config(codec: Codec) -> Option<Config>
    ensures { IfSome result (λ c. c.version ≡ 2) }
{
    Some(Config {
        codec,
        version: 2,
        reconnect: true,
        limits: limits()?,
    })
}

/// A call of a method with one text, whose frame has 200 bytes in this codec.
fn call(alloc: Global, codec: Codec) -> Option<Message>
    ensures sequenced { IfSome result (λ m. is_sequenced m ≡ true) }
    ensures fits { IfSome result (λ m. Fits m) }
{
    let letters = match codec {
        Codec::Json => 158,
        Codec::Pack => 188,
    };
    let letters = vec![in alloc; b'x'; letters].ok()?;
    let letters = std::str::from_utf8(&letters).ok()?;
    let text = format!(in alloc;
        "{{\"arguments\":[\"{letters}\"],\"target\":\"say\",\"type\":1}}"
    ).ok()?;
    match read_message(alloc, Codec::Json, text.as_bytes()) {
        Ok(Read::Message(message)) if message.is_sequenced() && message.fits() => Some(message),
        _ => None,
    }
}

// ---- the codec alone

/// The frame without its framing.
fn unframed(codec: Codec, bytes: &[u8]) -> Option<&[u8]> {
    match codec {
        Codec::Json => bytes.get(..bytes.len().checked_sub(1)?),
        Codec::Pack => bytes.get(PREFIX..),
    }
}

/// Writes the call and reads it again, and answers how often. `None` if it isn't read, or out of memory.
fn by_codec(alloc: Global, codec: Codec, call: &Message, rounds: u32) -> Option<u64>
    requires { Fits call.now }
{
    let mut count: u64 = 0;
    for _ in 0..rounds.saturating_mul(BATCH) {
        let mut bytes = Vec::new(alloc);
        write_message(alloc, codec, call, &mut bytes).ok()?;
        match read_message(alloc, codec, unframed(codec, &bytes)?) {
            Ok(Read::Message(_)) => count = count.saturating_add(1),
            _ => return None,
        }
    }
    Some(count)
}

// ---- two ends

/// Has an end take all that it was fed, and answers how many messages that were.
fn take(alloc: Global, end: &mut End) -> Option<u64> {
    let mut count: u64 = 0;
    for _ in 0..MANY {
        match end.next(alloc) {
            Ok(Some(Got::Message(_))) => count = count.saturating_add(1),
            Ok(Some(_)) => {}
            Ok(None) => return Some(count),
            Err(_) => return None,
        }
    }
    None
}

/// Carries all that one end has to say to the other, and answers how many messages that were.
fn carry(alloc: Global, from: &mut End, to: &mut End) -> Option<u64> {
    let mut count: u64 = 0;
    for _ in 0..MANY {
        let Some(bytes) = from.next_out() else {
            return Some(count);
        };
        if to.feed(bytes) < bytes.len() {
            return None;
        }
        count = count.saturating_add(take(alloc, to)?);
    }
    None
}

/// Sends the call so many times.
fn send(alloc: Global, end: &mut End, call: &Message) -> Option<()>
    requires sequenced { is_sequenced call.now ≡ true }
    requires fits { Fits call.now }
{
    for _ in 0..BATCH {
        end.send(alloc, call).ok()?;
    }
    Some(())
}

/// A client's end and a server's on one link, whose handshake is complete.
fn meet(alloc: Global, codec: Codec) -> Option<(End, End)> {
    let mut client = End::start(alloc, Side::Client, config(codec)?).ok()?;
    let mut server = End::start(alloc, Side::Server, config(codec)?).ok()?;
    client.attach(0).ok()?;
    server.attach(0).ok()?;
    carry(alloc, &mut client, &mut server)?;
    carry(alloc, &mut server, &mut client)?;
    Some((client, server))
}

/// Sends the calls from a client to a server, and answers how many came.
fn by_ends(alloc: Global, codec: Codec, call: &Message, rounds: u32) -> Option<u64>
    requires sequenced { is_sequenced call.now ≡ true }
    requires fits { Fits call.now }
{
    let (mut client, mut server) = meet(alloc, codec)?;
    let mut count: u64 = 0;
    for _ in 0..rounds {
        send(alloc, &mut client, call)?;
        count = count.saturating_add(carry(alloc, &mut client, &mut server)?);
        carry(alloc, &mut server, &mut client)?;
    }
    Some(count)
}

/// So many servers' ends at rest. Their clients are let go.
fn all_at_rest(alloc: Global, codec: Codec, count: u32) -> Option<Vec<End>> {
    let mut ends = Vec::new(alloc);
    for _ in 0..count {
        let (_, server) = meet(alloc, codec)?;
        ends.push(server).ok()?;
    }
    Some(ends)
}

// ---- what is measured

/// How many calls the codec alone wrote and read.
pub fn measured_codec(alloc: Global, codec: Codec, length: Length) -> Option<String> {
    let call = call(alloc, codec)?;
    let count = by_codec(alloc, codec, &call, length.of(ROUNDS))?;
    format!(in alloc; "{count}").ok()
}

/// How many calls came from one end to the other.
pub fn measured(alloc: Global, codec: Codec, length: Length) -> Option<String> {
    let call = call(alloc, codec)?;
    let count = by_ends(alloc, codec, &call, length.of(ROUNDS))?;
    format!(in alloc; "{count}").ok()
}

/// How many ends are at rest.
pub fn measured_at_rest(alloc: Global, count: u32) -> Option<String> {
    let ends = all_at_rest(alloc, Codec::Json, count)?;
    format!(in alloc; "{}", ends.len()).ok()
}
