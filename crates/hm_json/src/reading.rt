//! The reading of a frame as a message.
ghost use Rattle.std.specs.Prelude.{◌≡◌, IfOk, IfErr, Ok, Err, Some, None, option_map};
ghost use Rattle.hv_value.specs.Tree.{map, pairs};
ghost use Rattle.hv_value.specs.View.{tree};
ghost use Rattle.hm_message.specs.Kind.{kind_of, number as number_of};
ghost use Rattle.hm_message.specs.Message.{Fits};
ghost use Rattle.hm_message.specs.declared.kind.Kind.TheVariants as kinds;
ghost use Rattle.hm_message.specs.Meaning.{first};
ghost use Rattle.hm_json.specs.Properties.{error as error_of, outcome, type_of, faults};
ghost use Rattle.hm_json.specs.Refusals.{MemoryOr};
ghost use Rattle.hm_json.specs.Says.{SaysOf, UnknownOf, WhyOf, Says, Unknown, Why, Holds, Ends, IsMessage, IsUnknown, IsFaulty};
ghost use Rattle.hm_message.specs.Reads.{MessageIs, UnknownIs};

use crate::calls::{begins_as_call, call};
use crate::properties::{
    flag, headers, number, optional_text, property, take_any, take_items, take_property, text,
    texts, whole,
};
use crate::refusal::Refusal;
use crate::short_frames::short_message;
use hm_message::{Ending, Field, Kind, Message, Read, number_in, values_are_trees};
use hv_json::read_value_in;
use hv_value::{Entries, Text, Value};
use json::Scratch;
use std::alloc::{AllocError, Global};

fn invocation(alloc: Global, object: Entries) -> Result<Message, Refusal>
    ensures kind { IfOk result (λ m. kind_of m ≡ kinds.Invocation) }
    ensures ok { IfOk result (λ m. Holds (map (pairs object)) m) }
    ensures err { IfErr result
        (λ e. MemoryOr e (first (faults kinds.Invocation (map (pairs object))) ≡ Some e)) }
{
    let headers = headers(alloc, &object)?;
    let id = optional_text(&object, Field::InvocationId)?;
    let target = text(&object, Field::Target)?;
    let streams = texts(alloc, &object, Field::StreamIds);
    let arguments = take_items(object, Field::Arguments)?;
    Ok(Message::Invocation {
        headers,
        id,
        target,
        arguments,
        streams: streams?,
    })
}

fn stream_item(alloc: Global, object: Entries) -> Result<Message, Refusal>
    ensures kind { IfOk result (λ m. kind_of m ≡ kinds.StreamItem) }
    ensures ok { IfOk result (λ m. Holds (map (pairs object)) m) }
    ensures err { IfErr result
        (λ e. MemoryOr e (first (faults kinds.StreamItem (map (pairs object))) ≡ Some e)) }
{
    let headers = headers(alloc, &object)?;
    let id = text(&object, Field::InvocationId)?;
    let item = take_any(object, Field::Item)?;
    Ok(Message::StreamItem { headers, id, item })
}

fn completion(alloc: Global, object: Entries) -> Result<Message, Refusal>
    ensures kind { IfOk result (λ m. kind_of m ≡ kinds.Completion) }
    ensures ok { IfOk result (λ m. Holds (map (pairs object)) m) }
    ensures err { IfErr result
        (λ e. MemoryOr e (first (faults kinds.Completion (map (pairs object))) ≡ Some e)) }
{
    let headers = headers(alloc, &object)?;
    let id = text(&object, Field::InvocationId)?;
    let error = optional_text(&object, Field::Error)?;
    let ending = match (error, take_property(object, "result")) {
        (Some(_), Some(_)) => return Err(Refusal::Both),
        (Some(error), None) => Ending::Error(error),
        (None, Some(result)) => Ending::Result(result),
        (None, None) => Ending::Void,
    };
    Ok(Message::Completion {
        headers,
        id,
        ending,
    })
}

fn stream_invocation(alloc: Global, object: Entries) -> Result<Message, Refusal>
    ensures kind { IfOk result (λ m. kind_of m ≡ kinds.StreamInvocation) }
    ensures ok { IfOk result (λ m. Holds (map (pairs object)) m) }
    ensures err { IfErr result
        (λ e. MemoryOr e (first (faults kinds.StreamInvocation (map (pairs object))) ≡ Some e)) }
{
    let headers = headers(alloc, &object)?;
    let id = text(&object, Field::InvocationId)?;
    let target = text(&object, Field::Target)?;
    let streams = texts(alloc, &object, Field::StreamIds);
    let arguments = take_items(object, Field::Arguments)?;
    Ok(Message::StreamInvocation {
        headers,
        id,
        target,
        arguments,
        streams: streams?,
    })
}

fn cancel_invocation(alloc: Global, object: &Entries) -> Result<Message, Refusal>
    ensures kind { IfOk result (λ m. kind_of m ≡ kinds.CancelInvocation) }
    ensures ok { IfOk result (λ m. Holds (map (pairs object.now)) m) }
    ensures err { IfErr result
        (λ e. MemoryOr e (first (faults kinds.CancelInvocation (map (pairs object.now))) ≡ Some e)) }
{
    Ok(Message::CancelInvocation {
        headers: headers(alloc, object)?,
        id: text(object, Field::InvocationId)?,
    })
}

fn close(object: &Entries) -> Result<Message, Refusal>
    ensures kind { IfOk result (λ m. kind_of m ≡ kinds.Close) }
    ensures ok { IfOk result (λ m. Holds (map (pairs object.now)) m) }
    ensures err { IfErr result
        (λ e. MemoryOr e (first (faults kinds.Close (map (pairs object.now))) ≡ Some e)) }
{
    Ok(Message::Close {
        error: optional_text(object, Field::Error)?,
        allow: flag(object, Field::AllowReconnect)?,
    })
}

fn sequence(object: &Entries) -> Result<Message, Refusal>
    ensures kind { IfOk result (λ m. kind_of m ≡ kinds.Sequence) }
    ensures ok { IfOk result (λ m. Holds (map (pairs object.now)) m) }
    ensures err { IfErr result
        (λ e. first (faults kinds.Sequence (map (pairs object.now))) ≡ Some e) }
{
    let first = number(object, Field::SequenceId)?;
    let received = match property(object, "received") {
        Some(value) => number_in(value),
        None => None,
    };
    Ok(Message::Sequence { first, received })
}

/// The message of this type.
fn message(alloc: Global, object: Entries, kind: Kind) -> Result<Message, Refusal>
    ensures kind { IfOk result (λ m. kind_of m ≡ kind) }
    ensures ok { IfOk result (λ m. Holds (map (pairs object)) m) }
    ensures err { IfErr result
        (λ e. MemoryOr e (first (faults kind (map (pairs object))) ≡ Some e)) }
{
    match kind {
        Kind::Invocation => invocation(alloc, object),
        Kind::StreamItem => stream_item(alloc, object),
        Kind::Completion => completion(alloc, object),
        Kind::StreamInvocation => stream_invocation(alloc, object),
        Kind::CancelInvocation => cancel_invocation(alloc, &object),
        Kind::Ping => Ok(Message::Ping),
        Kind::Close => close(&object),
        Kind::Ack => {
            let upto = number(&object, Field::SequenceId)?;
            Ok(Message::Ack { upto })
        }
        Kind::Sequence => sequence(&object),
    }
}

/// What a frame of this object says.
fn said(alloc: Global, object: Entries) -> Result<Read, Refusal>
    ensures message { IfOk result
        (λ r. MessageIs r (λ m. SaysOf (map (pairs object)) m × Fits m)) }
    ensures unknown { IfOk result (λ r. UnknownIs r (λ n. UnknownOf (map (pairs object)) n)) }
    ensures refused { IfErr result (λ e. MemoryOr e (WhyOf (map (pairs object)) e)) }
{
    values_are_trees();
    // What was read fits, and can be written again, since the object's values nest at most 63 deep.
    let _members = object.pairs();
    let n = whole(&object, Field::Kind)?;
    let Some(kind) = Kind::numbered(n) else {
        return Ok(Read::Unknown(n));
    };
    let message = message(alloc, object, kind)?;
    Ok(Read::Message(message))
}

/// What a frame says, whichever it is.
fn read_any(alloc: Global, scratch: &mut Scratch, frame: &[u8]) -> Result<Read, Refusal>
    ensures message { IfOk result (λ r. MessageIs r (λ m. Says frame.now m × Fits m)) }
    ensures unknown { IfOk result (λ r. UnknownIs r (λ n. Unknown frame.now n)) }
    ensures refused { IfErr result (λ e. MemoryOr e (Why frame.now e)) }
{
    let value = read_value_in(alloc, scratch, frame)?;
    match value {
        Value::Map(object) => said(alloc, object),
        _ => Err(Refusal::NotObject),
    }
}

/// What a frame says that isn't a short one.
fn read_long(alloc: Global, scratch: &mut Scratch, frame: &[u8]) -> Result<Read, Refusal>
    ensures message { IfOk result (λ r. MessageIs r (λ m. Says frame.now m × Fits m)) }
    ensures unknown { IfOk result (λ r. UnknownIs r (λ n. Unknown frame.now n)) }
    ensures refused { IfErr result (λ e. MemoryOr e (Why frame.now e)) }
{
    if !begins_as_call(frame) {
        return read_any(alloc, scratch, frame);
    }
    match call(alloc, scratch, frame)? {
        Some(message) => Ok(Read::Message(message)),
        None => read_any(alloc, scratch, frame),
    }
}

/// As [`read_message`], with a scratch that is kept from frame to frame, so that whoever reads many
/// makes it once. Nothing of what it holds is read again.
pub fn read_message_in(alloc: Global, scratch: &mut Scratch, frame: &[u8]) -> Result<Read, Refusal>
    ensures message { IfOk result (λ r. MessageIs r (λ m. Says frame.now m × Fits m)) }
    ensures unknown { IfOk result (λ r. UnknownIs r (λ n. Unknown frame.now n)) }
    ensures refused { IfErr result (λ e. MemoryOr e (Why frame.now e)) }
{
    match short_message(alloc, frame)? {
        Some(message) => Ok(Read::Message(message)),
        None => read_long(alloc, scratch, frame),
    }
}

/// What a frame of one JSON object says (HubProtocol.md, "JSON Encoding"). Properties come in any
/// order, and those that aren't of the message's type are ignored. Headers are read of every type
/// that has an id, as the document says that messages can carry them.
///
/// A refusal is the first in this order: of the text, of the type, of the other properties in the
/// order in which [`Message`] has them. `NoMemory` may come at any point.
pub fn read_message(alloc: Global, frame: &[u8]) -> Result<Read, Refusal>
    ensures message { IfOk result (λ r. MessageIs r (λ m. Says frame.now m × Fits m)) }
    ensures unknown { IfOk result (λ r. UnknownIs r (λ n. Unknown frame.now n)) }
    ensures refused { IfErr result (λ e. MemoryOr e (Why frame.now e)) }
{
    // No scratch is made for what needs none: it is 16 KiB.
    match short_message(alloc, frame)? {
        Some(message) => Ok(Read::Message(message)),
        None => {
            let mut scratch = Scratch::new(alloc);
            read_long(alloc, &mut scratch, frame)
        }
    }
}
