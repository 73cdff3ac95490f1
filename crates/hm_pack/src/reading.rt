//! Reads frames: one array, whose type says what its other elements must be.
ghost use Rattle.std.specs.Prelude.{◌≡◌, ◌≢◌, List, drop, IfOk, IfErr, Ok, Err, Some, None};
ghost use Rattle.hv_value.specs.Tree.{Tree};
ghost use Rattle.hv_value.specs.View.{trees_of};
ghost use Rattle.hm_message.specs.Kind.{kind_of, number as number_of};
ghost use Rattle.hm_message.specs.Message.{Fits};
ghost use Rattle.hm_message.specs.declared.kind.Kind.TheVariants as kinds;
ghost use Rattle.hv_pack.specs.declared.error.PackError.TheVariants as errors;
ghost use Rattle.hm_pack.specs.declared.refusal.PackRefusal.TheVariants as refusals;
ghost use Rattle.hm_message.specs.Meaning.{first};
ghost use Rattle.hm_pack.specs.Elements.{ending as ending_of, type_of, faults};
ghost use Rattle.hm_pack.specs.Refusals.{MemoryOr};
ghost use Rattle.hm_pack.specs.Places.{type_place, headers_place, result_kind_place};
ghost use Rattle.hm_pack.specs.Says.{Says, Unknown, Why, Holds, Ends, IsMessage, IsUnknown, IsFaulty};
ghost use Rattle.hm_message.specs.Reads.{MessageIs, UnknownIs};

use crate::elements::{
    any, element, elements, flag, headers, items, number, optional_text, text, texts, whole,
};
use crate::places;
use crate::refusal::PackRefusal;
use hm_message::{Ending, Field, Kind, Message, Read, number_in, values_are_trees};
use hv_pack::read_value;
use hv_value::Value;
use std::alloc::Global;

fn invocation(alloc: Global, array: &mut Vec<Value>) -> Result<Message, PackRefusal>
    ghost ts: { List Tree }
    requires { drop headers_place (trees_of array.old.items) ≡ drop headers_place ts }
    ensures kind { IfOk result (λ m. kind_of m ≡ kinds.Invocation) }
    ensures ok { IfOk result (λ m. Holds ts m) }
    ensures err { IfErr result
        (λ e. MemoryOr e (first (faults kinds.Invocation ts) ≡ Some e)) }
{
    Ok(Message::Invocation {
        headers: headers(alloc, array)?,
        id: optional_text(array, places::ID, Field::InvocationId)?,
        target: text(array, places::TARGET, Field::Target)?,
        arguments: items(array, places::ARGUMENTS, Field::Arguments)?,
        streams: texts(alloc, array, places::STREAMS, Field::StreamIds)?,
    })
}

fn stream_item(alloc: Global, array: &mut Vec<Value>) -> Result<Message, PackRefusal>
    ghost ts: { List Tree }
    requires { drop headers_place (trees_of array.old.items) ≡ drop headers_place ts }
    ensures kind { IfOk result (λ m. kind_of m ≡ kinds.StreamItem) }
    ensures ok { IfOk result (λ m. Holds ts m) }
    ensures err { IfErr result
        (λ e. MemoryOr e (first (faults kinds.StreamItem ts) ≡ Some e)) }
{
    Ok(Message::StreamItem {
        headers: headers(alloc, array)?,
        id: text(array, places::ID, Field::InvocationId)?,
        item: any(array, places::ITEM, Field::Item)?,
    })
}

/// How an invocation ends, by the kind of result and what stands after it.
fn ending(array: &mut Vec<Value>) -> Result<Ending, PackRefusal>
    ghost ts: { List Tree }
    requires { drop result_kind_place (trees_of array.old.items) ≡ drop result_kind_place ts }
    ensures ok { IfOk result (λ e. Ends ts e) }
    ensures err { IfErr result (λ e. MemoryOr e (ending_of ts ≡ Some e)) }
{
    match whole(array, places::RESULT_KIND, Field::Ending)? {
        places::ERROR_RESULT => Ok(Ending::Error(text(array, places::OUTCOME, Field::Error)?)),
        places::VOID_RESULT => Ok(Ending::Void),
        places::VALUE_RESULT => Ok(Ending::Result(any(array, places::OUTCOME, Field::Ending)?)),
        n => Err(PackRefusal::ResultKind(n)),
    }
}

fn completion(alloc: Global, array: &mut Vec<Value>) -> Result<Message, PackRefusal>
    ghost ts: { List Tree }
    requires { drop headers_place (trees_of array.old.items) ≡ drop headers_place ts }
    ensures kind { IfOk result (λ m. kind_of m ≡ kinds.Completion) }
    ensures ok { IfOk result (λ m. Holds ts m) }
    ensures err { IfErr result
        (λ e. MemoryOr e (first (faults kinds.Completion ts) ≡ Some e)) }
{
    Ok(Message::Completion {
        headers: headers(alloc, array)?,
        id: text(array, places::ID, Field::InvocationId)?,
        ending: ending(array)?,
    })
}

fn stream_invocation(alloc: Global, array: &mut Vec<Value>) -> Result<Message, PackRefusal>
    ghost ts: { List Tree }
    requires { drop headers_place (trees_of array.old.items) ≡ drop headers_place ts }
    ensures kind { IfOk result (λ m. kind_of m ≡ kinds.StreamInvocation) }
    ensures ok { IfOk result (λ m. Holds ts m) }
    ensures err { IfErr result
        (λ e. MemoryOr e (first (faults kinds.StreamInvocation ts) ≡ Some e)) }
{
    Ok(Message::StreamInvocation {
        headers: headers(alloc, array)?,
        id: text(array, places::ID, Field::InvocationId)?,
        target: text(array, places::TARGET, Field::Target)?,
        arguments: items(array, places::ARGUMENTS, Field::Arguments)?,
        streams: texts(alloc, array, places::STREAMS, Field::StreamIds)?,
    })
}

fn cancel_invocation(alloc: Global, array: &mut Vec<Value>) -> Result<Message, PackRefusal>
    ghost ts: { List Tree }
    requires { drop headers_place (trees_of array.old.items) ≡ drop headers_place ts }
    ensures kind { IfOk result (λ m. kind_of m ≡ kinds.CancelInvocation) }
    ensures ok { IfOk result (λ m. Holds ts m) }
    ensures err { IfErr result
        (λ e. MemoryOr e (first (faults kinds.CancelInvocation ts) ≡ Some e)) }
{
    Ok(Message::CancelInvocation {
        headers: headers(alloc, array)?,
        id: text(array, places::ID, Field::InvocationId)?,
    })
}

fn close(array: &mut Vec<Value>) -> Result<Message, PackRefusal>
    ghost ts: { List Tree }
    requires { drop headers_place (trees_of array.old.items) ≡ drop headers_place ts }
    ensures kind { IfOk result (λ m. kind_of m ≡ kinds.Close) }
    ensures ok { IfOk result (λ m. Holds ts m) }
    ensures err { IfErr result (λ e. MemoryOr e (first (faults kinds.Close ts) ≡ Some e)) }
{
    Ok(Message::Close {
        error: optional_text(array, places::CLOSE_ERROR, Field::Error)?,
        allow: flag(array, places::ALLOW, Field::AllowReconnect)?,
    })
}

fn sequence(array: &mut Vec<Value>) -> Result<Message, PackRefusal>
    ghost ts: { List Tree }
    requires { drop headers_place (trees_of array.old.items) ≡ drop headers_place ts }
    ensures kind { IfOk result (λ m. kind_of m ≡ kinds.Sequence) }
    ensures ok { IfOk result (λ m. Holds ts m) }
    ensures err { IfErr result (λ e. first (faults kinds.Sequence ts) ≡ Some e) }
{
    let first = number(array, places::SEQUENCE_ID, Field::SequenceId)?;
    let received = match element(array, places::RECEIVED) {
        Some(value) => number_in(&value),
        None => None,
    };
    Ok(Message::Sequence { first, received })
}

/// The message of this type.
fn message(alloc: Global, array: &mut Vec<Value>, kind: Kind) -> Result<Message, PackRefusal>
    ghost ts: { List Tree }
    requires { drop headers_place (trees_of array.old.items) ≡ drop headers_place ts }
    ensures kind { IfOk result (λ m. kind_of m ≡ kind) }
    ensures ok { IfOk result (λ m. Holds ts m) }
    ensures err { IfErr result (λ e. MemoryOr e (first (faults kind ts) ≡ Some e)) }
{
    match kind {
        Kind::Invocation => invocation(alloc, array),
        Kind::StreamItem => stream_item(alloc, array),
        Kind::Completion => completion(alloc, array),
        Kind::StreamInvocation => stream_invocation(alloc, array),
        Kind::CancelInvocation => cancel_invocation(alloc, array),
        Kind::Ping => Ok(Message::Ping),
        Kind::Close => close(array),
        Kind::Ack => {
            let upto = number(array, places::SEQUENCE_ID, Field::SequenceId)?;
            Ok(Message::Ack { upto })
        }
        Kind::Sequence => sequence(array),
    }
}

/// What the elements of an array say.
fn read_elements(alloc: Global, array: &mut Vec<Value>) -> Result<Read, PackRefusal>
    ghost ts: { List Tree }
    requires { drop type_place (trees_of array.old.items) ≡ drop type_place ts }
    ensures message { IfOk result (λ r. MessageIs r (λ m. IsMessage ts m)) }
    ensures unknown { IfOk result (λ r. UnknownIs r (λ n. IsUnknown ts n)) }
    ensures refused { IfErr result (λ e. MemoryOr e (IsFaulty ts e)) }
{
    let n = whole(array, places::KIND, Field::Kind)?;
    let Some(kind) = Kind::numbered(n) else {
        return Ok(Read::Unknown(n));
    };
    Ok(Read::Message(message(alloc, array, kind)?))
}

/// What a frame of one MessagePack array says (HubProtocol.md, "MessagePack (MsgPack) encoding"),
/// in any spelling. An Invocation and a StreamInvocation may end before their stream ids, a Close
/// before its `AllowReconnect`; elements past those of the message are dropped. Nil stands for an
/// Invocation's id and a Close's error that aren't there, and nowhere else.
///
/// A refusal is the first in this order: of the value, of what stands behind it, of its being no
/// array, of the elements from left to right. `NoMemory` may come at any point.
pub fn read_message(alloc: Global, frame: &[u8]) -> Result<Read, PackRefusal>
    ensures message { IfOk result (λ r. MessageIs r (λ m. Says frame.now m × Fits m)) }
    ensures unknown { IfOk result (λ r. UnknownIs r (λ n. Unknown frame.now n)) }
    ensures refused { IfErr result (λ e. MemoryOr e (Why frame.now e)) }
    // Want of memory has one name.
    ensures no_memory { IfErr result (λ e. e ≢ refusals.Value errors.NoMemory) }
{
    values_are_trees();
    let (value, end) = read_value(alloc, frame, 0)?;
    // So what was read fits, and can be written again.
    prove!(value.depth() <= 64);
    if end < frame.len() {
        return Err(PackRefusal::Trailing { at: end });
    }
    let mut array = elements(value)?;
    read_elements(alloc, &mut array)
}
