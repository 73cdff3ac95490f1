//! Writing a message's frame: its properties by the kit's writer in byte order of their names, with no tree between.
ghost use Rattle.std.specs.Prelude.{◌≡◌, ◌<◌, ◌^◌, ◌++◌, ◌∷◌, [], pos, OnOk, OnErr};
ghost use Rattle.hm_message.specs.Kind.{number, kind_of};
ghost use Rattle.hm_message.specs.declared.message.Message.TheVariants as message;
ghost use Rattle.hm_message.specs.declared.message.Field.TheVariants as field;
ghost use Rattle.hv_value.specs.Tree.{int, list, map, pairs, text, trees};
ghost use Rattle.hv_value.specs.View.{tree};
ghost use Rattle.hv_value.specs.Order.{IsInOrder};
ghost use Rattle.hv_json.specs.Sent.{HasWholes, items_sent, members_sent, sent};
ghost use Rattle.hm_message.specs.Message.{Fits, message_image};
ghost use Rattle.hm_message.specs.Trees.{header_pairs, texts, AreInRange, IsInRange};
ghost use Rattle.hm_json.specs.Frame.{frame_of, object_of, property_of, headers_written, streams_written, text_written, received_written, allow_written};
ghost use Rattle.hm_json.specs.Says.{Says};
ghost use Rattle.hm_json.specs.Written.{Puts, error_written, result_written, properties_in_order, in_name_order};

use hm_message::{Ending, Field, Headers, Message, values_are_trees};
use hv_json::{printed_is_text, put_items, put_value, written_is_read_again};
use hv_value::{
    Items, Text, Texts, Value, last_pair_counts, map_has_the_keys, map_keys_are_in_order,
};
use json::Writer;
use std::alloc::{AllocError, Global};
use std::mem;

fn put_text(writer: &mut Writer, field: Field, s: &Text) -> Result<(), AllocError>
    ensures put { OnOk result (Puts writer.old.tokens writer.new.tokens (property_of field (text s.now))) }
    ensures before { writer.new.before ≡ writer.old.before }
{
    writer.key(field.name())?;
    writer.string(s.as_str())?;
    Ok(())
}

fn put_optional(writer: &mut Writer, field: Field, s: &Option<Text>) -> Result<(), AllocError>
    ensures put { OnOk result (Puts writer.old.tokens writer.new.tokens (text_written field s.now)) }
    ensures before { writer.new.before ≡ writer.old.before }
{
    match s {
        Some(s) => {
            put_text(writer, field, s)?;
            Ok(())
        }
        None => Ok(()),
    }
}

fn put_number(writer: &mut Writer, name: &str, n: u64) -> Result<(), AllocError>
    ensures put { OnOk result (Puts writer.old.tokens writer.new.tokens ((name.now, int (pos n)) ∷ [])) }
    ensures in_range { n < 2 ^ 64 }
    ensures before { writer.new.before ≡ writer.old.before }
{
    writer.key(name)?;
    writer.u64(n)?;
    Ok(())
}

fn put_property(
    alloc: Global,
    writer: &mut Writer,
    field: Field,
    value: &Value,
) -> Result<(), AllocError>
    ensures put { OnOk result (Puts writer.old.tokens writer.new.tokens (property_of field (tree value.now))) }
    ensures before { writer.new.before ≡ writer.old.before }
{
    // So its maps are in order.
    prove!(value.depth() <= 64);
    writer.key(field.name())?;
    put_value(alloc, writer, value)?;
    Ok(())
}

fn put_arguments(alloc: Global, writer: &mut Writer, arguments: &Items) -> Result<(), AllocError>
    ensures put { OnOk result (Puts writer.old.tokens writer.new.tokens
        (property_of field.Arguments (list (trees arguments.now)))) }
    ensures before { writer.new.before ≡ writer.old.before }
{
    writer.key(Field::Arguments.name())?;
    writer.begin_array()?;
    put_items(alloc, writer, arguments.values())?;
    Ok(())
}

/// The headers' pairs, and the bracket that closes their object.
fn put_members(writer: &mut Writer, members: &[(Text, Text)]) -> Result<(), AllocError>
    ensures ok { OnOk result
        (writer.new.tokens ≡ writer.old.tokens ++ members_sent (pairs (header_pairs members.now))) }
    ensures before { writer.new.before ≡ writer.old.before }
{
    for (key, value) in members {
        writer.key(key.as_str())?;
        writer.string(value.as_str())?;
    }
    writer.end_object()
}

fn put_headers(writer: &mut Writer, headers: &Headers) -> Result<(), AllocError>
    ensures put { OnOk result (Puts writer.old.tokens writer.new.tokens (headers_written headers.now)) }
    ensures before { writer.new.before ≡ writer.old.before }
{
    map_has_the_keys();
    let members = headers.pairs();
    if members.is_empty() {
        return Ok(());
    }
    writer.key(Field::Headers.name())?;
    writer.begin_object()?;
    put_members(writer, members)?;
    Ok(())
}

/// The texts, and the bracket that closes their array.
fn put_texts(writer: &mut Writer, strings: &[Text]) -> Result<(), AllocError>
    ensures ok { OnOk result
        (writer.new.tokens ≡ writer.old.tokens ++ items_sent (trees (texts strings.now))) }
    ensures before { writer.new.before ≡ writer.old.before }
{
    for string in strings {
        writer.string(string.as_str())?;
    }
    writer.end_array()
}

fn put_streams(writer: &mut Writer, streams: &Texts) -> Result<(), AllocError>
    ensures put { OnOk result (Puts writer.old.tokens writer.new.tokens (streams_written streams.now)) }
    ensures before { writer.new.before ≡ writer.old.before }
{
    let strings = streams.texts();
    if strings.is_empty() {
        return Ok(());
    }
    writer.key(Field::StreamIds.name())?;
    writer.begin_array()?;
    put_texts(writer, strings)?;
    Ok(())
}

fn put_error(writer: &mut Writer, ending: &Ending) -> Result<(), AllocError>
    ensures put { OnOk result (Puts writer.old.tokens writer.new.tokens (error_written ending.now)) }
    ensures before { writer.new.before ≡ writer.old.before }
{
    match ending {
        Ending::Error(error) => {
            put_text(writer, Field::Error, error)?;
            Ok(())
        }
        Ending::Void => Ok(()),
        Ending::Result(_) => Ok(()),
    }
}

fn put_result(alloc: Global, writer: &mut Writer, ending: &Ending) -> Result<(), AllocError>
    ensures put { OnOk result (Puts writer.old.tokens writer.new.tokens (result_written ending.now)) }
    ensures before { writer.new.before ≡ writer.old.before }
{
    match ending {
        Ending::Result(result) => {
            put_property(alloc, writer, Field::Ending, result)?;
            Ok(())
        }
        Ending::Void => Ok(()),
        Ending::Error(_) => Ok(()),
    }
}

fn put_allow(writer: &mut Writer, allow: bool) -> Result<(), AllocError>
    ensures put { OnOk result (Puts writer.old.tokens writer.new.tokens (allow_written allow)) }
    ensures before { writer.new.before ≡ writer.old.before }
{
    if !allow {
        return Ok(());
    }
    writer.key(Field::AllowReconnect.name())?;
    writer.boolean(true)?;
    Ok(())
}

fn put_received(writer: &mut Writer, received: Option<u64>) -> Result<(), AllocError>
    ensures put { OnOk result (Puts writer.old.tokens writer.new.tokens (received_written received)) }
    ensures in_range { AreInRange received }
    ensures before { writer.new.before ≡ writer.old.before }
{
    match received {
        Some(received) => {
            put_number(writer, "received", received)?;
            Ok(())
        }
        None => Ok(()),
    }
}

fn put_invocation(
    alloc: Global,
    writer: &mut Writer,
    headers: &Headers,
    id: &Option<Text>,
    target: &Text,
    arguments: &Items,
    streams: &Texts,
) -> Result<(), AllocError>
    ensures put { OnOk result (Puts writer.old.tokens writer.new.tokens
        (properties_in_order (message.Invocation headers.now id.now target.now arguments.now streams.now))) }
    ensures before { writer.new.before ≡ writer.old.before }
{
    put_arguments(alloc, writer, arguments)?;
    put_headers(writer, headers)?;
    put_optional(writer, Field::InvocationId, id)?;
    put_streams(writer, streams)?;
    put_text(writer, Field::Target, target)?;
    Ok(())
}

fn put_stream_invocation(
    alloc: Global,
    writer: &mut Writer,
    headers: &Headers,
    id: &Text,
    target: &Text,
    arguments: &Items,
    streams: &Texts,
) -> Result<(), AllocError>
    ensures put { OnOk result (Puts writer.old.tokens writer.new.tokens
        (properties_in_order (message.StreamInvocation headers.now id.now target.now arguments.now streams.now))) }
    ensures before { writer.new.before ≡ writer.old.before }
{
    put_arguments(alloc, writer, arguments)?;
    put_headers(writer, headers)?;
    put_text(writer, Field::InvocationId, id)?;
    put_streams(writer, streams)?;
    put_text(writer, Field::Target, target)?;
    Ok(())
}

fn put_stream_item(
    alloc: Global,
    writer: &mut Writer,
    headers: &Headers,
    id: &Text,
    item: &Value,
) -> Result<(), AllocError>
    ensures put { OnOk result (Puts writer.old.tokens writer.new.tokens
        (headers_written headers.now ++ property_of field.InvocationId (text id.now) ++ property_of field.Item (tree item.now))) }
    ensures before { writer.new.before ≡ writer.old.before }
{
    put_headers(writer, headers)?;
    put_text(writer, Field::InvocationId, id)?;
    put_property(alloc, writer, Field::Item, item)?;
    Ok(())
}

fn put_completion(
    alloc: Global,
    writer: &mut Writer,
    headers: &Headers,
    id: &Text,
    ending: &Ending,
) -> Result<(), AllocError>
    ensures put { OnOk result (Puts writer.old.tokens writer.new.tokens
        (properties_in_order (message.Completion headers.now id.now ending.now))) }
    ensures before { writer.new.before ≡ writer.old.before }
{
    put_error(writer, ending)?;
    put_headers(writer, headers)?;
    put_text(writer, Field::InvocationId, id)?;
    put_result(alloc, writer, ending)?;
    Ok(())
}

fn put_cancel(writer: &mut Writer, headers: &Headers, id: &Text) -> Result<(), AllocError>
    ensures put { OnOk result (Puts writer.old.tokens writer.new.tokens
        (properties_in_order (message.CancelInvocation headers.now id.now))) }
    ensures before { writer.new.before ≡ writer.old.before }
{
    put_headers(writer, headers)?;
    put_text(writer, Field::InvocationId, id)?;
    Ok(())
}

fn put_close(writer: &mut Writer, error: &Option<Text>, allow: bool) -> Result<(), AllocError>
    ensures put { OnOk result (Puts writer.old.tokens writer.new.tokens (properties_in_order (message.Close error.now allow))) }
    ensures before { writer.new.before ≡ writer.old.before }
{
    put_allow(writer, allow)?;
    put_optional(writer, Field::Error, error)?;
    Ok(())
}

fn put_sequence(writer: &mut Writer, first: u64, received: Option<u64>) -> Result<(), AllocError>
    ensures put { OnOk result (Puts writer.old.tokens writer.new.tokens (properties_in_order (message.Sequence first received))) }
    ensures in_range { OnOk result (IsInRange (message.Sequence first received)) }
    ensures before { writer.new.before ≡ writer.old.before }
{
    put_received(writer, received)?;
    put_number(writer, Field::SequenceId.name(), first)?;
    Ok(())
}

/// The properties other than the type, in byte order of their names.
fn put_properties(alloc: Global, writer: &mut Writer, m: &Message) -> Result<(), AllocError>
    ensures put { OnOk result (Puts writer.old.tokens writer.new.tokens (properties_in_order m.now)) }
    ensures in_range { OnOk result (IsInRange m.now) }
    ensures before { writer.new.before ≡ writer.old.before }
{
    match m {
        Message::Invocation {
            headers,
            id,
            target,
            arguments,
            streams,
        } => {
            put_invocation(alloc, writer, headers, id, target, arguments, streams)?;
            Ok(())
        }
        Message::StreamItem { headers, id, item } => {
            put_stream_item(alloc, writer, headers, id, item)?;
            Ok(())
        }
        Message::Completion {
            headers,
            id,
            ending,
        } => {
            put_completion(alloc, writer, headers, id, ending)?;
            Ok(())
        }
        Message::StreamInvocation {
            headers,
            id,
            target,
            arguments,
            streams,
        } => {
            put_stream_invocation(alloc, writer, headers, id, target, arguments, streams)?;
            Ok(())
        }
        Message::CancelInvocation { headers, id } => {
            put_cancel(writer, headers, id)?;
            Ok(())
        }
        Message::Ping => Ok(()),
        Message::Close { error, allow } => {
            put_close(writer, error, *allow)?;
            Ok(())
        }
        Message::Ack { upto } => {
            put_number(writer, Field::SequenceId.name(), *upto)?;
            Ok(())
        }
        Message::Sequence { first, received } => {
            put_sequence(writer, *first, *received)?;
            Ok(())
        }
    }
}

/// The message's object.
fn put_message(alloc: Global, writer: &mut Writer, m: &Message) -> Result<(), AllocError>
    ensures ok { OnOk result (writer.new.tokens ≡ writer.old.tokens ++ sent (object_of m.now)) }
    ensures wholes { OnOk result (HasWholes (object_of m.now)) }
    ensures in_order { OnOk result (IsInOrder (object_of m.now)) }
    ensures in_range { OnOk result (IsInRange m.now) }
    ensures before { writer.new.before ≡ writer.old.before }
{
    map_has_the_keys();
    map_keys_are_in_order();
    writer.begin_object()?;
    put_properties(alloc, writer, m)?;
    put_number(writer, Field::Kind.name(), u64::from(m.kind().number()))?;
    writer.end_object()?;
    Ok(())
}

/// Appends the message's frame (HubProtocol.md, "JSON Encoding") with no separator: compact JSON
/// text (RFC 8259) in which the names stand in byte order. Headers, stream ids, an id, an error and
/// a result that aren't there are left out, and an `allowReconnect` that is false. When out of
/// memory `out` holds what it held.
pub fn write_message(alloc: Global, m: &Message, out: &mut Vec<u8>) -> Result<(), AllocError>
    requires { Fits m.now }
    ensures ok { OnOk result (out.new.items ≡ out.old.items ++ frame_of m.now) }
    // What is written says the message with each of its bytes as the text of their base64.
    ensures again { OnOk result (Says (frame_of m.now) (message_image m.now)) }
    ensures err { OnErr result (out.new.items ≡ out.old.items) }
{
    values_are_trees();
    last_pair_counts();
    printed_is_text();
    written_is_read_again();
    let held = out.len();
    let mut writer = Writer::new(mem::replace(out, Vec::new(alloc)));
    let put = put_message(alloc, &mut writer, m);
    *out = writer.into_inner();
    if put.is_err() {
        out.truncate(held);
    }
    put
}
