//! The reading of JSON text: quickly where it has no fault, and by `serde_json`'s tree where it may have one.
ghost use Rattle.std.specs.Prelude.{◌≡◌, ◌≤◌, false, Ok, IfOk, IfErr, IfSome, option_map};
ghost use Rattle.serde_json.specs.Data.{depth as nesting, items_depth, members_depth};
ghost use Rattle.serde_json.specs.Written.{has_float, items_have_float, members_have_float};
ghost use Rattle.serde_json.specs.View.{view, items_view, members_view, number_view};
ghost use Rattle.serde_json.specs.Find.{is_float};
ghost use Rattle.hv_value.specs.Tree.{int, depth, depth_of_all, depth_of_values};
ghost use Rattle.hv_value.specs.View.{tree, trees_of as values_of, entries};
ghost use Rattle.hv_json.specs.Reading.{Refuses, json, reading, tree_of, trees_of, pairs_of, int_of};

use crate::one_pass::{Fallback, quick};
use hv_value::{
    Items, MOST_LEVELS, Text, Value, ValueError, Whole, depth_of_one_more_item,
    depth_of_one_more_pair,
};
use json::{Reader, Scratch, Token};
use serde_json::{Map, Number, Value as Json};
use std::alloc::{AllocError, Global};
use thiserror::Error;

/// Why bytes are no value: the first of the reasons that holds, or `NoMemory`.
#[derive(Clone, Copy, Debug, Drop, PartialEq, Eq, Error)]
pub enum JsonError {
    /// They aren't JSON text (RFC 8259) that `serde_json` reads. This is also said of a
    /// number that no finite double is near, and of more than 127 levels.
    #[error("not JSON text")]
    NotJson,
    /// A number of what is read has a fraction or an exponent, is `-0`, or is whole and not from
    /// -2^63 to 2^64 - 1.
    #[error("a number is no whole number from -2^63 to 2^64 - 1")]
    Fraction,
    /// Its arrays and objects nest deeper than 64.
    #[error("arrays and objects nest deeper than 64 levels")]
    TooDeep,
    #[error("out of memory")]
    NoMemory,
}

#[cycle(fraction)]
fn has_fraction(json: &Json) -> bool
    ensures { result ≡ has_float (view json.now) }
{
    match json {
        Json::Number(n) => n.is_f64(),
        Json::Array(items) => some_fraction(items),
        Json::Object(members) => some_member_fraction(members),
        _ => false,
    }
}

#[cycle(fraction)]
fn some_fraction(items: &[Json]) -> bool
    ensures { result ≡ items_have_float (items_view items.now) }
{
    for item in items {
        if has_fraction(item) {
            return true;
        }
    }
    false
}

#[cycle(fraction)]
fn some_member_fraction(members: &Map<String, Json>) -> bool
    ensures { result ≡ members_have_float (members_view members.now.entries) }
{
    for (_, member) in members.iter() {
        if has_fraction(member) {
            return true;
        }
    }
    false
}

/// How deep arrays and objects nest.
#[cycle(depth)]
fn depth_of(json: &Json) -> u32
    requires { nesting (view json.now) ≤ 127 }
    ensures { result ≡ nesting (view json.now) }
{
    match json {
        Json::Array(items) => 1 + deepest(items),
        Json::Object(members) => 1 + deepest_member(members),
        _ => 0,
    }
}

#[cycle(depth)]
fn deepest(items: &[Json]) -> u32
    requires { items_depth (items_view items.now) ≤ 126 }
    ensures { result ≡ items_depth (items_view items.now) }
{
    let mut deepest = 0;
    for item in items {
        let depth = depth_of(item);
        if depth > deepest {
            deepest = depth;
        }
    }
    deepest
}

#[cycle(depth)]
fn deepest_member(members: &Map<String, Json>) -> u32
    requires { members_depth (members_view members.now.entries) ≤ 126 }
    ensures { result ≡ members_depth (members_view members.now.entries) }
{
    let mut deepest = 0;
    for (_, member) in members.iter() {
        let depth = depth_of(member);
        if depth > deepest {
            deepest = depth;
        }
    }
    deepest
}

/// The value of JSON that is known to have one.
#[cycle(convert)]
fn convert(alloc: Global, json: &Json) -> Result<Value, AllocError>
    requires whole { has_float (view json.now) ≡ false }
    requires shallow { nesting (view json.now) ≤ 64 }
    ensures ok { IfOk result (λ v. tree v ≡ tree_of (view json.now)) }
    ensures depth { IfOk result (λ v. depth (tree v) ≤ nesting (view json.now)) }
{
    match json {
        Json::Null => Ok(Value::Null),
        Json::Bool(b) => Ok(Value::Bool(*b)),
        Json::Number(n) => Ok(Value::Int(whole(*n))),
        Json::String(text) => Ok(Value::Text(Text::of(alloc, text)?)),
        Json::Array(items) => {
            let values = convert_items(alloc, items)?;
            let Ok(items) = Items::of(values) else {
                unreachable!()
            };
            Ok(Value::List(items))
        }
        Json::Object(members) => {
            let pairs = convert_members(alloc, members)?;
            match Value::map_from(pairs) {
                Ok(map) => Ok(map),
                Err(ValueError::NoMemory) => Err(AllocError),
                Err(ValueError::TooDeep) => unreachable!(),
            }
        }
    }
}

fn whole(n: Number) -> Whole
    requires { is_float (number_view n) ≡ false }
    ensures { int result ≡ int_of (number_view n) }
{
    if let Some(n) = n.as_u64() {
        return Whole::from(n);
    }
    match n.as_i64() {
        Some(n) => Whole::from(n),
        None => unreachable!(),
    }
}

#[cycle(convert)]
fn convert_items(alloc: Global, items: &[Json]) -> Result<Vec<Value>, AllocError>
    requires whole { items_have_float (items_view items.now) ≡ false }
    requires shallow { items_depth (items_view items.now) ≤ 63 }
    ensures ok { IfOk result (λ v. values_of v.items ≡ trees_of (items_view items.now)) }
    ensures depth { IfOk result
        (λ v. depth_of_all (values_of v.items) ≤ items_depth (items_view items.now)) }
{
    depth_of_one_more_item();
    let mut values = Vec::new(alloc);
    for item in items {
        values.push(convert(alloc, item)?)?;
    }
    Ok(values)
}

#[cycle(convert)]
fn convert_members(
    alloc: Global,
    members: &Map<String, Json>,
) -> Result<Vec<(Text, Value)>, AllocError>
    requires whole { members_have_float (members_view members.now.entries) ≡ false }
    requires shallow { members_depth (members_view members.now.entries) ≤ 63 }
    ensures ok { IfOk result (λ v. entries v.items ≡ pairs_of (members_view members.now.entries)) }
    ensures depth { IfOk result
        (λ v. depth_of_values (entries v.items) ≤ members_depth (members_view members.now.entries)) }
{
    depth_of_one_more_pair();
    let mut pairs = Vec::new(alloc);
    for (key, member) in members.iter() {
        pairs.push((Text::of(alloc, key)?, convert(alloc, member)?))?;
    }
    Ok(pairs)
}

/// The JSON that `serde_json` reads in the bytes.
fn parse(alloc: Global, bytes: &[u8]) -> Result<Option<Json>, AllocError>
    ensures read { IfOk result (λ o. option_map view o ≡ json bytes.now) }
    ensures nests { IfOk result (λ o. IfSome o (λ v. nesting (view v) ≤ 127)) }
{
    match Json::from_slice(alloc, bytes) {
        Ok(json) => Ok(Some(json)),
        Err(e) => {
            if e.is_memory() {
                return Err(AllocError);
            }
            Ok(None)
        }
    }
}

/// The value of JSON text that has no fault, if the quick reading sees that.
fn read_quickly(alloc: Global, scratch: &mut Scratch, bytes: &[u8]) -> Result<Value, Fallback>
    ensures { IfOk result (λ v. reading bytes.now ≡ Ok (tree v)) }
{
    let Ok(text) = simdutf8::basic::from_utf8(bytes) else {
        return Err(Fallback::Other);
    };
    let mut reader = Reader::new(text, scratch)?;
    let value = quick(alloc, &mut reader, MOST_LEVELS)?;
    if reader.next().is_some() {
        return Err(Fallback::Other);
    }
    Ok(value)
}

/// The value, or why there is none, by a tree of JSON that is judged as a whole.
#[inline(never)]
#[tactic(auto, unfolding(crate::specs::Reading::reading))]
fn read_slowly(alloc: Global, bytes: &[u8]) -> Result<Value, JsonError>
    ensures ok { IfOk result (λ v. reading bytes.now ≡ Ok (tree v)) }
    ensures err { IfErr result (λ e. Refuses e (reading bytes.now)) }
{
    let Some(json) = parse(alloc, bytes)? else {
        return Err(JsonError::NotJson);
    };
    if has_fraction(&json) {
        return Err(JsonError::Fraction);
    }
    if depth_of(&json) > MOST_LEVELS {
        return Err(JsonError::TooDeep);
    }
    Ok(convert(alloc, &json)?)
}

/// As [`read_value`], with room for unescaped strings that is kept from text to text, so that
/// whoever reads many allocates it once. What `scratch` held before changes nothing.
pub fn read_value_in(alloc: Global, scratch: &mut Scratch, bytes: &[u8]) -> Result<Value, JsonError>
    ensures ok { IfOk result (λ v. reading bytes.now ≡ Ok (tree v)) }
    ensures err { IfErr result (λ e. Refuses e (reading bytes.now)) }
{
    match read_quickly(alloc, scratch, bytes) {
        Ok(value) => Ok(value),
        Err(Fallback::NoMemory) => Err(JsonError::NoMemory),
        Err(Fallback::Other) => read_slowly(alloc, bytes),
    }
}

/// The value of JSON text (RFC 8259) in UTF-8. Of the members of an object with one name
/// the last counts; one that it replaces must be JSON that `serde_json` reads, but is neither
/// `Fraction` nor `TooDeep`. No `Bytes` are read: a string is `Text`, also where it is base64.
pub fn read_value(alloc: Global, bytes: &[u8]) -> Result<Value, JsonError>
    ensures ok { IfOk result (λ v. reading bytes.now ≡ Ok (tree v)) }
    ensures err { IfErr result (λ e. Refuses e (reading bytes.now)) }
{
    let mut scratch = Scratch::new(alloc);
    read_value_in(alloc, &mut scratch, bytes)
}

impl From<AllocError> for JsonError {
    ghost use Rattle.std.specs.Prelude.{◌≡◌};
    ghost use Rattle.hv_json.specs.declared.reading.JsonError.TheVariants.{NoMemory};

    ghost from_gives = { λ _ e. e ≡ NoMemory };

    fn from(_e: AllocError) -> JsonError {
        JsonError::NoMemory
    }
}
