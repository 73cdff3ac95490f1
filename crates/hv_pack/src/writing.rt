//! The shortest spelling of a value, and the parts of which it is put together, for whoever writes a list or a map with no tree
//! of it. A part that fails may leave a first piece of its own behind what stood; `write_value` takes such a piece back.
ghost use Rattle.std.specs.Prelude.{◌≡◌, ◌<◌, ◌≤◌, ◌^◌, ◌++◌, ◌∷◌, [], length, OnOk, OnErr, pos, negsuc};
ghost use Rattle.std.specs.Int.{w16, w32, w64, to_be_bytes};
ghost use Rattle.std.specs.Str.{IsUtf8};
ghost use Rattle.hd_facts.specs.Prefixes.{IsPrefix};
ghost use Rattle.hv_value.specs.Whole.{IsWhole};
ghost use Rattle.hv_value.specs.Tree.{null, boolean, trees, pairs};
ghost use Rattle.hv_pack.specs.Packs.{IsSpelling};
ghost use Rattle.hv_value.specs.View.{tree, trees_of, entries};
ghost use Rattle.hv_pack.specs.Writing.{text_head, bytes_head, list_head, map_head, int_text, string_text, shortest, trees_text, pairs_text, IsWritable, AreWritable, PairsAreWritable};

use crate::marker::{
    ARRAY_16, ARRAY_32, BIN_8, BIN_16, BIN_32, FALSE, FIX_ARRAY, FIX_MAP, FIX_STR, INT_8, INT_16,
    INT_32, INT_64, MAP_16, MAP_32, NIL, STR_8, STR_16, STR_32, TRUE, UINT_8, UINT_16, UINT_32,
    UINT_64,
};
use hv_value::{
    MOST_LEVELS, Text, Value, Whole, no_item_is_deeper, no_pair_is_deeper,
    pairs_in_order_are_their_map,
};
use std::alloc::{AllocError, Global};

fn put_bytes(out: &mut Vec<u8>, bytes: &[u8]) -> Result<(), AllocError>
    ensures ok { OnOk result (out.new.items ≡ out.old.items ++ bytes.now) }
    ensures unchanged { IsPrefix out.old.items out.new.items }
{
    out.extend_from_slice(bytes)
}

fn put_byte(out: &mut Vec<u8>, byte: u8) -> Result<(), AllocError>
    ensures ok { OnOk result (out.new.items ≡ out.old.items ++ byte ∷ []) }
    ensures unchanged { IsPrefix out.old.items out.new.items }
{
    Ok(out.push(byte)?)
}

/// A marker and the two bytes after it, the higher first.
fn put_two(out: &mut Vec<u8>, marker: u8, n: u16) -> Result<(), AllocError>
    ensures ok { OnOk result (out.new.items ≡ out.old.items ++ marker ∷ to_be_bytes w16 n) }
    ensures unchanged { IsPrefix out.old.items out.new.items }
{
    let [a, b] = n.to_be_bytes();
    put_bytes(out, &[marker, a, b])
}

/// A marker and the four bytes after it, the highest first.
fn put_four(out: &mut Vec<u8>, marker: u8, n: u32) -> Result<(), AllocError>
    ensures ok { OnOk result (out.new.items ≡ out.old.items ++ marker ∷ to_be_bytes w32 n) }
    ensures unchanged { IsPrefix out.old.items out.new.items }
{
    let [a, b, c, d] = n.to_be_bytes();
    put_bytes(out, &[marker, a, b, c, d])
}

/// A marker and the eight bytes after it, the highest first.
fn put_eight(out: &mut Vec<u8>, marker: u8, n: u64) -> Result<(), AllocError>
    ensures ok { OnOk result (out.new.items ≡ out.old.items ++ marker ∷ to_be_bytes w64 n) }
    ensures unchanged { IsPrefix out.old.items out.new.items }
{
    let [a, b, c, d, e, f, g, h] = n.to_be_bytes();
    put_bytes(out, &[marker, a, b, c, d, e, f, g, h])
}

#[tactic(auto, unfolding(crate::specs::Writing::text_head))]
fn put_text_head(out: &mut Vec<u8>, len: usize) -> Result<(), AllocError>
    ensures ok { OnOk result (out.new.items ≡ out.old.items ++ text_head len) }
    ensures fits { OnOk result (len < 2 ^ 32) }
    ensures unchanged { IsPrefix out.old.items out.new.items }
{
    match len {
        0..=0x1f => put_byte(out, FIX_STR + len as u8),
        0x20..=0xff => put_bytes(out, &[STR_8, len as u8]),
        0x100..=0xffff => put_two(out, STR_16, len as u16),
        0x1_0000..=0xffff_ffff => put_four(out, STR_32, len as u32),
        _ => Err(AllocError),
    }
}

#[tactic(auto, unfolding(crate::specs::Writing::bytes_head))]
fn put_bytes_head(out: &mut Vec<u8>, len: usize) -> Result<(), AllocError>
    ensures ok { OnOk result (out.new.items ≡ out.old.items ++ bytes_head len) }
    ensures fits { OnOk result (len < 2 ^ 32) }
    ensures unchanged { IsPrefix out.old.items out.new.items }
{
    match len {
        0..=0xff => put_bytes(out, &[BIN_8, len as u8]),
        0x100..=0xffff => put_two(out, BIN_16, len as u16),
        0x1_0000..=0xffff_ffff => put_four(out, BIN_32, len as u32),
        _ => Err(AllocError),
    }
}

/// Appends the marker and the count of a list of `len` values, in the shortest form (MessagePack specification, "array format
/// family"). The values are to follow.
///
/// A list of 2^32 or more values has none, and is answered as out of memory. After an error `out` holds what it held, and
/// perhaps a first piece of this part.
#[tactic(auto, unfolding(crate::specs::Writing::list_head))]
pub fn put_list_head(out: &mut Vec<u8>, len: usize) -> Result<(), AllocError>
    ensures ok { OnOk result (out.new.items ≡ out.old.items ++ list_head len) }
    ensures fits { OnOk result (len < 2 ^ 32) }
    ensures unchanged { IsPrefix out.old.items out.new.items }
{
    match len {
        0..=0xf => put_byte(out, FIX_ARRAY + len as u8),
        0x10..=0xffff => put_two(out, ARRAY_16, len as u16),
        0x1_0000..=0xffff_ffff => put_four(out, ARRAY_32, len as u32),
        _ => Err(AllocError),
    }
}

/// Appends the marker and the count of a map of `len` pairs, in the shortest form (MessagePack specification, "map format
/// family"). The pairs are to follow, their keys in byte order.
///
/// A map of 2^32 or more pairs has none, and is answered as out of memory. After an error `out` holds what it held, and perhaps
/// a first piece of this part.
#[tactic(auto, unfolding(crate::specs::Writing::map_head))]
pub fn put_map_head(out: &mut Vec<u8>, len: usize) -> Result<(), AllocError>
    ensures ok { OnOk result (out.new.items ≡ out.old.items ++ map_head len) }
    ensures fits { OnOk result (len < 2 ^ 32) }
    ensures unchanged { IsPrefix out.old.items out.new.items }
{
    match len {
        0..=0xf => put_byte(out, FIX_MAP + len as u8),
        0x10..=0xffff => put_two(out, MAP_16, len as u16),
        0x1_0000..=0xffff_ffff => put_four(out, MAP_32, len as u32),
        _ => Err(AllocError),
    }
}

/// Appends the number in the shortest form (MessagePack specification, "int format family").
///
/// After an error, which is out of memory, `out` holds what it held, and perhaps a first piece of this part.
#[tactic(auto, unfolding(crate::specs::Writing::int_text))]
pub fn put_number(out: &mut Vec<u8>, n: u64) -> Result<(), AllocError>
    ensures ok { OnOk result (out.new.items ≡ out.old.items ++ int_text (pos n)) }
    ensures unchanged { IsPrefix out.old.items out.new.items }
{
    match n {
        0..=0x7f => put_byte(out, n as u8),
        0x80..=0xff => put_bytes(out, &[UINT_8, n as u8]),
        0x100..=0xffff => put_two(out, UINT_16, n as u16),
        0x1_0000..=0xffff_ffff => put_four(out, UINT_32, n as u32),
        _ => put_eight(out, UINT_64, n),
    }
}

/// The number -1 - k.
#[tactic(auto, unfolding(crate::specs::Writing::int_text))]
fn put_negative(out: &mut Vec<u8>, k: u64) -> Result<(), AllocError>
    requires { k < 2 ^ 63 }
    ensures ok { OnOk result (out.new.items ≡ out.old.items ++ int_text (negsuc k)) }
    ensures unchanged { IsPrefix out.old.items out.new.items }
{
    match k {
        0..=0x1f => put_byte(out, u8::MAX - k as u8),
        0x20..=0x7f => put_bytes(out, &[INT_8, u8::MAX - k as u8]),
        0x80..=0x7fff => put_two(out, INT_16, u16::MAX - k as u16),
        0x8000..=0x7fff_ffff => put_four(out, INT_32, u32::MAX - k as u32),
        _ => put_eight(out, INT_64, u64::MAX - k),
    }
}

fn put_int(out: &mut Vec<u8>, n: Whole) -> Result<(), AllocError>
    ensures ok { OnOk result (out.new.items ≡ out.old.items ++ int_text n) }
    ensures fits { OnOk result (IsWhole n) }
    ensures unchanged { IsPrefix out.old.items out.new.items }
{
    let n = n.get();
    if n >= 0 {
        put_number(out, n as u64)
    } else {
        put_negative(out, (-1 - n) as u64)
    }
}

/// Appends the text in the shortest form (MessagePack specification, "str format family").
///
/// A text of 2^32 or more bytes has none, and is answered as out of memory. After an error `out` holds what it held, and perhaps
/// a first piece of this part.
pub fn put_text(out: &mut Vec<u8>, text: &Text) -> Result<(), AllocError>
    ensures ok { OnOk result (out.new.items ≡ out.old.items ++ string_text text.now) }
    ensures fits { OnOk result (length text.now < 2 ^ 32) }
    ensures utf8 { OnOk result (IsUtf8 text.now) }
    ensures unchanged { IsPrefix out.old.items out.new.items }
{
    let text = text.as_str();
    put_text_head(out, text.len())?;
    put_bytes(out, text.as_bytes())?;
    Ok(())
}

/// Appends nil.
///
/// After an error, which is out of memory, `out` holds what it held.
pub fn put_nil(out: &mut Vec<u8>) -> Result<(), AllocError>
    ensures ok { OnOk result (out.new.items ≡ out.old.items ++ shortest null) }
    ensures unchanged { IsPrefix out.old.items out.new.items }
{
    put_byte(out, NIL)
}

/// Appends true or false.
///
/// After an error, which is out of memory, `out` holds what it held.
pub fn put_bool(out: &mut Vec<u8>, b: bool) -> Result<(), AllocError>
    ensures ok { OnOk result (out.new.items ≡ out.old.items ++ shortest (boolean b)) }
    ensures unchanged { IsPrefix out.old.items out.new.items }
{
    if b {
        put_byte(out, TRUE)
    } else {
        put_byte(out, FALSE)
    }
}

/// Appends the value's shortest spelling, as [`write_value`] does.
///
/// A text, bytes, a list or a map of 2^32 or more bytes, values or pairs has none, and is answered as out of memory. After an
/// error `out` holds what it held, and perhaps a first piece of this part.
#[cycle(put)]
pub fn put_value(out: &mut Vec<u8>, value: &Value) -> Result<(), AllocError>
    ensures ok { OnOk result (out.new.items ≡ out.old.items ++ shortest (tree value.now)) }
    ensures fits { OnOk result (IsWritable (tree value.now)) }
    ensures unchanged { IsPrefix out.old.items out.new.items }
{
    match value {
        Value::Null => put_nil(out),
        Value::Bool(b) => put_bool(out, *b),
        Value::Int(n) => put_int(out, *n),
        Value::Text(text) => put_text(out, text),
        Value::Bytes(bytes) => {
            let bytes = bytes.bytes();
            put_bytes_head(out, bytes.len())?;
            put_bytes(out, bytes)?;
            Ok(())
        }
        Value::List(items) => {
            let values = items.values();
            put_list_head(out, values.len())?;
            put_values(out, values)?;
            Ok(())
        }
        Value::Map(entries) => {
            let pairs = entries.pairs();
            put_map_head(out, pairs.len())?;
            put_pairs(out, pairs)?;
            Ok(())
        }
    }
}

/// Appends the shortest spellings of the values, one after the other, with no count before them.
///
/// A text, bytes, a list or a map of 2^32 or more bytes, values or pairs has none, and is answered as out of memory. After an
/// error `out` holds what it held, and perhaps a first piece of this part.
#[cycle(put)]
pub fn put_values(out: &mut Vec<u8>, values: &[Value]) -> Result<(), AllocError>
    ensures ok { OnOk result
        (out.new.items ≡ out.old.items ++ trees_text (trees (trees_of values.now))) }
    ensures fits { OnOk result (AreWritable (trees (trees_of values.now))) }
    ensures unchanged { IsPrefix out.old.items out.new.items }
{
    no_item_is_deeper();
    for value in values {
        put_value(out, value)?;
    }
    Ok(())
}

#[cycle(put)]
fn put_pairs(out: &mut Vec<u8>, members: &[(Text, Value)]) -> Result<(), AllocError>
    ensures ok { OnOk result
        (out.new.items ≡ out.old.items ++ pairs_text (pairs (entries members.now))) }
    ensures fits { OnOk result (PairsAreWritable (pairs (entries members.now))) }
    ensures unchanged { IsPrefix out.old.items out.new.items }
{
    no_pair_is_deeper();
    for (key, value) in members {
        put_text(out, key)?;
        put_value(out, value)?;
    }
    Ok(())
}

/// Appends the shortest spelling, with a map's keys in byte order (MessagePack specification,
/// "Serialization"). A text, bytes, a list or a map of 2^32 or more bytes, values or pairs has
/// none, and is answered as out of memory. After an error `out` holds what it held.
pub fn write_value(alloc: Global, v: &Value, out: &mut Vec<u8>) -> Result<(), AllocError>
    ensures ok { OnOk result (out.new.items ≡ out.old.items ++ shortest (tree v.now)) }
    // What is written is a spelling of the value, so it is read again, whatever follows it.
    ensures spells { OnOk result (IsSpelling (tree v.now) (shortest (tree v.now))) }
    ensures fits { OnOk result (IsWritable (tree v.now)) }
    ensures err { OnErr result (out.new.items ≡ out.old.items) }
{
    pairs_in_order_are_their_map();
    // So it is read back: what is deeper, or has its keys in another order, has no such spelling.
    prove!(v.depth() <= MOST_LEVELS);
    let _ = alloc;
    let held = out.len();
    match put_value(out, v) {
        Ok(()) => Ok(()),
        Err(no_memory) => {
            out.truncate(held);
            Err(no_memory)
        }
    }
}
