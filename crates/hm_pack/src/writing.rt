//! Writes a message as one frame, in the shortest spelling: the array's head, and its elements one
//! after another. No tree of the message is made, and nothing is copied first.
ghost use Rattle.std.specs.Prelude.{◌≡◌, ◌<◌, ◌^◌, ◌++◌, pos, OnOk, OnErr};
ghost use Rattle.hd_facts.specs.Prefixes.{IsPrefix};
ghost use Rattle.hv_value.specs.Tree.{int, list, trees};
ghost use Rattle.hv_value.specs.Order.{IsInOrder, AllInOrder};
ghost use Rattle.hv_pack.specs.Writing.{shortest, trees_text, trees_count, IsWritable, AreWritable};
ghost use Rattle.hm_message.specs.Message.{Fits};
ghost use Rattle.hm_pack.specs.Says.{Says};
ghost use Rattle.hm_message.specs.Trees.{texts, IsInRange, AreInRange};
ghost use Rattle.hm_pack.specs.Frame.{frame_of, headers_written, text_written, received_written, call_written, ending_written, written, elements_of, array_of};

use crate::places;
use hm_message::{Ending, Headers, Message, values_are_trees};
use hv_pack::{
    put_bool, put_list_head, put_map_head, put_nil, put_number, put_text, put_value, put_values,
    shortest_reads_back,
};
use hv_value::{Items, Text, Texts, map_has_the_keys};
use std::alloc::{AllocError, Global};

fn put_headers(out: &mut Vec<u8>, headers: &Headers) -> Result<(), AllocError>
    ensures ok { OnOk result
        (out.new.items ≡ out.old.items ++ shortest (headers_written headers.now)) }
    ensures fits { OnOk result (IsWritable (headers_written headers.now)) }
    ensures in_order { OnOk result (IsInOrder (headers_written headers.now)) }
    ensures unchanged { IsPrefix out.old.items out.new.items }
{
    map_has_the_keys();
    let pairs = headers.pairs();
    put_map_head(out, pairs.len())?;
    for (key, value) in pairs {
        put_text(out, key)?;
        put_text(out, value)?;
    }
    Ok(())
}

fn put_texts(out: &mut Vec<u8>, strings: &Texts) -> Result<(), AllocError>
    ensures ok { OnOk result
        (out.new.items ≡ out.old.items ++ shortest (list (trees (texts strings.now)))) }
    ensures fits { OnOk result (IsWritable (list (trees (texts strings.now)))) }
    ensures unchanged { IsPrefix out.old.items out.new.items }
{
    let strings = strings.texts();
    put_list_head(out, strings.len())?;
    for string in strings {
        put_text(out, string)?;
    }
    Ok(())
}

fn put_items(out: &mut Vec<u8>, items: &Items) -> Result<(), AllocError>
    ensures ok { OnOk result (out.new.items ≡ out.old.items ++ shortest (list (trees items.now))) }
    ensures fits { OnOk result (IsWritable (list (trees items.now))) }
    ensures in_order { OnOk result (AllInOrder (trees items.now)) }
    ensures unchanged { IsPrefix out.old.items out.new.items }
{
    let values = items.values();
    put_list_head(out, values.len())?;
    put_values(out, values)?;
    Ok(())
}

fn put_optional(out: &mut Vec<u8>, s: &Option<Text>) -> Result<(), AllocError>
    ensures ok { OnOk result (out.new.items ≡ out.old.items ++ shortest (text_written s.now)) }
    ensures fits { OnOk result (IsWritable (text_written s.now)) }
    ensures unchanged { IsPrefix out.old.items out.new.items }
{
    match s {
        Some(s) => put_text(out, s),
        None => put_nil(out),
    }
}

fn put_whole(out: &mut Vec<u8>, n: u64) -> Result<(), AllocError>
    ensures ok { OnOk result (out.new.items ≡ out.old.items ++ shortest (int (pos n))) }
    ensures fits { OnOk result (IsWritable (int (pos n))) }
    ensures in_range { OnOk result (n < 2 ^ 64) }
    ensures unchanged { IsPrefix out.old.items out.new.items }
{
    put_number(out, n)
}

/// What is called, and with what.
fn put_call(
    out: &mut Vec<u8>,
    target: &Text,
    arguments: &Items,
    streams: &Texts,
) -> Result<(), AllocError>
    ensures ok { OnOk result (out.new.items ≡ out.old.items
        ++ trees_text (trees (call_written target.now arguments.now streams.now))) }
    ensures fits { OnOk result
        (AreWritable (trees (call_written target.now arguments.now streams.now))) }
    ensures in_order { OnOk result
        (AllInOrder (trees (call_written target.now arguments.now streams.now))) }
    ensures unchanged { IsPrefix out.old.items out.new.items }
{
    put_text(out, target)?;
    put_items(out, arguments)?;
    put_texts(out, streams)?;
    Ok(())
}

/// The kind of result, and what stands after it.
fn put_ending(out: &mut Vec<u8>, ending: &Ending) -> Result<(), AllocError>
    ensures ok { OnOk result
        (out.new.items ≡ out.old.items ++ trees_text (trees (ending_written ending.now))) }
    ensures fits { OnOk result (AreWritable (trees (ending_written ending.now))) }
    ensures in_order { OnOk result (AllInOrder (trees (ending_written ending.now))) }
    ensures unchanged { IsPrefix out.old.items out.new.items }
{
    match ending {
        Ending::Error(error) => {
            put_whole(out, places::ERROR_RESULT as u64)?;
            put_text(out, error)?;
            Ok(())
        }
        Ending::Void => put_whole(out, places::VOID_RESULT as u64),
        Ending::Result(result) => {
            // So its maps are in order.
            prove!(result.depth() <= 64);
            put_whole(out, places::VALUE_RESULT as u64)?;
            put_value(out, result)?;
            Ok(())
        }
    }
}

/// The count of the message's elements.
fn count(m: &Message) -> usize
    ensures { result ≡ trees_count (trees (elements_of m.now)) }
{
    match m {
        Message::Invocation { .. } | Message::StreamInvocation { .. } => 6,
        Message::StreamItem { .. } => 4,
        Message::Completion { ending, .. } => match ending {
            Ending::Void => 4,
            Ending::Error(_) => 5,
            Ending::Result(_) => 5,
        },
        Message::CancelInvocation { .. } => 3,
        Message::Ping => 1,
        Message::Close { .. } => 3,
        Message::Ack { .. } => 2,
        Message::Sequence { received, .. } => match received {
            Some(_) => 3,
            None => 2,
        },
    }
}

/// The elements after the type.
fn put_elements(out: &mut Vec<u8>, m: &Message) -> Result<(), AllocError>
    ensures ok { OnOk result
        (out.new.items ≡ out.old.items ++ trees_text (trees (written m.now))) }
    ensures fits { OnOk result (AreWritable (trees (written m.now))) }
    ensures in_order { OnOk result (AllInOrder (trees (written m.now))) }
    ensures in_range { OnOk result (IsInRange m.now) }
    ensures unchanged { IsPrefix out.old.items out.new.items }
{
    match m {
        Message::Invocation {
            headers,
            id,
            target,
            arguments,
            streams,
        } => {
            put_headers(out, headers)?;
            put_optional(out, id)?;
            put_call(out, target, arguments, streams)?;
        }
        Message::StreamItem { headers, id, item } => {
            // So its maps are in order.
            prove!(item.depth() <= 64);
            put_headers(out, headers)?;
            put_text(out, id)?;
            put_value(out, item)?;
        }
        Message::Completion {
            headers,
            id,
            ending,
        } => {
            put_headers(out, headers)?;
            put_text(out, id)?;
            put_ending(out, ending)?;
        }
        Message::StreamInvocation {
            headers,
            id,
            target,
            arguments,
            streams,
        } => {
            put_headers(out, headers)?;
            put_text(out, id)?;
            put_call(out, target, arguments, streams)?;
        }
        Message::CancelInvocation { headers, id } => {
            put_headers(out, headers)?;
            put_text(out, id)?;
        }
        Message::Ping => (),
        Message::Close { error, allow } => {
            put_optional(out, error)?;
            put_bool(out, *allow)?;
        }
        Message::Ack { upto } => put_whole(out, *upto)?,
        Message::Sequence { first, received } => {
            put_whole(out, *first)?;
            if let Some(received) = received {
                put_whole(out, *received)?;
            }
        }
    }
    Ok(())
}

fn put_message(out: &mut Vec<u8>, m: &Message) -> Result<(), AllocError>
    ensures ok { OnOk result (out.new.items ≡ out.old.items ++ frame_of m.now) }
    ensures fits { OnOk result (IsWritable (array_of m.now)) }
    ensures in_order { OnOk result (IsInOrder (array_of m.now)) }
    ensures in_range { OnOk result (IsInRange m.now) }
    ensures unchanged { IsPrefix out.old.items out.new.items }
{
    let count = count(m);
    put_list_head(out, count)?;
    put_whole(out, u64::from(m.kind().number()))?;
    put_elements(out, m)?;
    Ok(())
}

/// Appends the message's frame (HubProtocol.md, "MessagePack (MsgPack) encoding") with no length
/// before it, in the shortest spelling: six elements of an Invocation and a StreamInvocation, three
/// of a Close, four of a Completion with no result. Empty headers and stream ids are written, and an
/// absent id or error is nil. It takes memory only where `out` must grow.
///
/// A text, bytes, a list or a map of 2^32 or more bytes, values or pairs has no spelling, and is
/// answered as out of memory. After an error, which is out of memory, `out` holds what it held.
pub fn write_message(alloc: Global, m: &Message, out: &mut Vec<u8>) -> Result<(), AllocError>
    requires { Fits m.now }
    ensures ok { OnOk result (out.new.items ≡ out.old.items ++ frame_of m.now) }
    // What is written says the message itself.
    ensures again { OnOk result (Says (frame_of m.now) m.now) }
    ensures writable { OnOk result (IsWritable (array_of m.now)) }
    ensures err { OnErr result (out.new.items ≡ out.old.items) }
{
    values_are_trees();
    shortest_reads_back();
    let _ = alloc;
    let held = out.len();
    match put_message(out, m) {
        Ok(()) => Ok(()),
        Err(no_memory) => {
            out.truncate(held);
            Err(no_memory)
        }
    }
}
