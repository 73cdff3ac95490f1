//! The writing of values: their tokens by the kit's writer, with no tree between.
ghost use Rattle.std.specs.Prelude.{◌≡◌, ◌++◌, Ok, OnOk, OnErr};
ghost use Rattle.hv_value.specs.Tree.{int, bytes, trees, pairs};
ghost use Rattle.hv_value.specs.View.{tree, trees_of, entries};
ghost use Rattle.hv_value.specs.Image.{image};
ghost use Rattle.hv_json.specs.Reading.{reading};
ghost use Rattle.hv_json.specs.Sent.{sent, items_sent, members_sent, HasWholes, AllHaveWholes, PairsHaveWholes};
ghost use Rattle.hv_json.specs.Writing.{json_text};

use crate::laws::{printed_is_text, text_is_of_image, written_is_read_again};
use base64::engine::general_purpose::STANDARD;
use hv_value::{Text, Value, Whole, no_item_is_deeper, no_pair_is_deeper};
use json::Writer;
use std::alloc::{AllocError, Global};
use std::mem;

fn put_whole(writer: &mut Writer, n: Whole) -> Result<(), AllocError>
    ensures ok { OnOk result (writer.new.tokens ≡ writer.old.tokens ++ sent (int n)) }
    ensures whole { HasWholes (int n) }
    ensures before { writer.new.before ≡ writer.old.before }
{
    let n = n.get();
    if n >= 0 {
        writer.u64(n as u64)
    } else {
        writer.i64(n as i64)
    }
}

#[tactic(auto, unfolding(hv_value::specs::Image::base64))]
fn put_bytes(alloc: Global, writer: &mut Writer, blob: &[u8]) -> Result<(), AllocError>
    ensures ok { OnOk result (writer.new.tokens ≡ writer.old.tokens ++ sent (bytes blob.now)) }
    ensures before { writer.new.before ≡ writer.old.before }
{
    let text = STANDARD.encode(alloc, blob)?;
    writer.string(&text)
}

/// Appends the tokens of the value's image: its `Bytes` are strings of their standard base64 with padding (RFC 4648,
/// section 4). Out of memory it may have appended a part of them, and what stood before the writer stays.
#[cycle(put)]
pub fn put_value(alloc: Global, writer: &mut Writer, value: &Value) -> Result<(), AllocError>
    ensures ok { OnOk result (writer.new.tokens ≡ writer.old.tokens ++ sent (tree value.now)) }
    // With the order of its keys and its depth, this is what makes it readable.
    ensures whole { OnOk result (HasWholes (tree value.now)) }
    ensures before { writer.new.before ≡ writer.old.before }
{
    match value {
        Value::Null => writer.null(),
        Value::Bool(b) => writer.boolean(*b),
        Value::Int(n) => put_whole(writer, *n),
        Value::Text(text) => writer.string(text.as_str()),
        Value::Bytes(blob) => put_bytes(alloc, writer, blob.bytes()),
        Value::List(items) => {
            writer.begin_array()?;
            put_items(alloc, writer, items.values())
        }
        Value::Map(entries) => {
            writer.begin_object()?;
            put_members(alloc, writer, entries.pairs())
        }
    }
}

/// Appends the tokens of the values' images and the bracket that closes their array: the caller has written the one that
/// opens it. Out of memory as [`put_value`].
#[cycle(put)]
pub fn put_items(alloc: Global, writer: &mut Writer, values: &[Value]) -> Result<(), AllocError>
    ensures ok { OnOk result
        (writer.new.tokens ≡ writer.old.tokens ++ items_sent (trees (trees_of values.now))) }
    ensures whole { OnOk result (AllHaveWholes (trees (trees_of values.now))) }
    ensures before { writer.new.before ≡ writer.old.before }
{
    no_item_is_deeper();
    for value in values {
        put_value(alloc, writer, value)?;
    }
    writer.end_array()
}

#[cycle(put)]
fn put_members(
    alloc: Global,
    writer: &mut Writer,
    members: &[(Text, Value)],
) -> Result<(), AllocError>
    ensures ok { OnOk result
        (writer.new.tokens ≡ writer.old.tokens ++ members_sent (pairs (entries members.now))) }
    ensures whole { OnOk result (PairsHaveWholes (pairs (entries members.now))) }
    ensures before { writer.new.before ≡ writer.old.before }
{
    no_pair_is_deeper();
    for (key, value) in members {
        writer.key(key.as_str())?;
        put_value(alloc, writer, value)?;
    }
    writer.end_object()
}

/// Appends the compact text of the value's image (RFC 8259): no space between tokens, keys in
/// byte order, and `Bytes` as strings of their standard base64 with padding (RFC 4648, section 4).
/// Out of memory `out` holds what it held.
pub fn write_value(alloc: Global, v: &Value, out: &mut Vec<u8>) -> Result<(), AllocError>
    ensures ok { OnOk result (out.new.items ≡ out.old.items ++ json_text (tree v.now)) }
    // It is the text of the image, and is read again as the image.
    ensures of_image { OnOk result (json_text (tree v.now) ≡ json_text (image (tree v.now))) }
    ensures again { OnOk result (reading (json_text (tree v.now)) ≡ Ok (image (tree v.now))) }
    ensures err { OnErr result (out.new.items ≡ out.old.items) }
{
    printed_is_text();
    text_is_of_image();
    written_is_read_again();
    // So it is read back: what is deeper, or has its keys in another order, wouldn't be.
    prove!(v.depth() <= 64);
    let held = out.len();
    let mut writer = Writer::new(mem::replace(out, Vec::new(alloc)));
    let put = put_value(alloc, &mut writer, v);
    *out = writer.into_inner();
    if put.is_err() {
        out.truncate(held);
    }
    put
}
