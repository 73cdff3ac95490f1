//! Reading: one pass over the bytes, which stops at the first fault. A count is not believed: a list or a map has as much memory
//! as the values that were read want, and little more.
ghost use Rattle.std.specs.Prelude.{◌≡◌, ◌≤◌, ◌+◌, ◌<◌, ◌^◌, ◌*◌, length, drop, ℕ, Ok, Err, IfOk, IfErr, MatchResult, ◌≢◌, ◌⊎◌};
ghost use Rattle.hv_pack.specs.Packs.{IsSpelled};
ghost use Rattle.hv_pack.specs.Why.{IsRefused};
ghost use Rattle.hv_pack.specs.declared.error.PackError.{PackError};
ghost use Rattle.hv_pack.specs.declared.error.PackError.TheVariants.{NoMemory};
ghost use Rattle.hv_value.specs.Tree.{Tree, depth, depth_of_all, depth_of_values};
ghost use Rattle.std.specs.Int.{byte_len, cast_signed};
ghost use Rattle.hv_value.specs.View.{tree, trees_of, entries};
ghost use Rattle.hv_pack.specs.Marker.{width};
ghost use Rattle.hv_pack.specs.Reading.{Gives, number_at, count_at, chunk_at, text_at, key_at, many, pairs_at, list_at, map_at, inner, value_at, read_at, placed};

use crate::error::PackError;
use crate::input::Input;
use crate::marker::{Count, Marker, Size, row};
use hv_value::{
    Blob, Items, MOST_LEVELS, Text, Value, ValueError, Whole, depth_of_one_more_item,
    depth_of_one_more_pair,
};
use std::alloc::Global;

/// How many values or pairs a list or a map has room for before they are read, unless its count is lower. It grows with what is
/// read, so that a count takes no more memory than that.
const FIRST_ROOM: u64 = 8;

#[inline(never)]
fn number(input: &mut Input<'_>, at: usize, size: Size) -> Result<u64, PackError>
    ensures read { Gives (λ n. (n, input.new.rest.now)) result
        (number_at at (width size) input.old.rest.now) }
    ensures fits { IfOk result (λ n. n < 2 ^ (8 * byte_len (width size))) }
    ensures end { input.new.end ≡ input.old.end }
{
    Ok(match size {
        Size::One => u64::from(u8::from_be_bytes(input.array(at)?)),
        Size::Two => u64::from(u16::from_be_bytes(input.array(at)?)),
        Size::Four => u64::from(u32::from_be_bytes(input.array(at)?)),
        Size::Eight => u64::from_be_bytes(input.array(at)?),
    })
}

fn count(input: &mut Input<'_>, at: usize, count: Count) -> Result<u64, PackError>
    ensures read { Gives (λ n. (n, input.new.rest.now)) result
        (count_at at count input.old.rest.now) }
    ensures end { input.new.end ≡ input.old.end }
{
    match count {
        Count::Here(n) => Ok(u64::from(n)),
        Count::Behind(size) => number(input, at, size),
    }
}

#[tactic(auto, unfolding(crate::specs::Reading::chunk_at))]
fn chunk<'a>(input: &mut Input<'a>, at: usize, len: Count) -> Result<&'a [u8], PackError>
    ensures read { Gives (λ t. (t.now, input.new.rest.now)) result
        (chunk_at at len input.old.rest.now) }
    ensures end { input.new.end ≡ input.old.end }
{
    let len = count(input, at, len)?;
    input.cut(at, len as usize)
}

#[tactic(auto, unfolding(crate::specs::Reading::text_at))]
fn text(alloc: Global, input: &mut Input<'_>, at: usize, len: Count) -> Result<Text, PackError>
    ensures read { Gives (λ t. (t, input.new.rest.now)) result
        (text_at at len input.old.rest.now) }
    ensures end { input.new.end ≡ input.old.end }
{
    let text = chunk(input, at, len)?;
    match str::from_utf8(text) {
        Ok(text) => Ok(Text::of(alloc, text)?),
        Err(_) => Err(PackError::NotUtf8 { at }),
    }
}

#[tactic(auto, unfolding(crate::specs::Reading::key_at))]
fn key(alloc: Global, input: &mut Input<'_>) -> Result<Text, PackError>
    ensures read { Gives (λ k. (k, input.new.rest.now)) result
        (key_at input.old.end input.old.rest.now) }
    ensures end { input.new.end ≡ input.old.end }
{
    let at = input.place();
    let [first, rest @ ..] = input.rest else {
        return Err(PackError::Short { at: input.end });
    };
    input.rest = rest;
    match row(*first) {
        Marker::Text(len) => text(alloc, input, at, len),
        _ => Err(PackError::Key { at }),
    }
}

/// The number of these bits in two's complement.
fn signed(n: u64, size: Size) -> i64
    requires { n < 2 ^ (8 * byte_len (width size)) }
    ensures { result ≡ cast_signed (width size) n }
{
    match size {
        Size::One => i64::from((n as u8).cast_signed()),
        Size::Two => i64::from((n as u16).cast_signed()),
        Size::Four => i64::from((n as u32).cast_signed()),
        Size::Eight => n.cast_signed(),
    }
}

#[cycle(value)]
fn value(alloc: Global, input: &mut Input<'_>, room: u32) -> Result<Value, PackError>
    requires room { room ≤ 64 }
    ensures read { Gives (λ v. (tree v, input.new.rest.now)) result
        (value_at input.old.end room input.old.rest.now) }
    ensures end { input.new.end ≡ input.old.end }
    ensures shallow { IfOk result (λ v. depth (tree v) ≤ room) }
{
    let at = input.place();
    let [first, rest @ ..] = input.rest else {
        return Err(PackError::Short { at: input.end });
    };
    input.rest = rest;
    match row(*first) {
        Marker::Null => Ok(Value::Null),
        Marker::Bool(b) => Ok(Value::Bool(b)),
        Marker::Small(n) => Ok(Value::Int(Whole::from(i64::from(n)))),
        Marker::Unsigned(size) => {
            let n = number(input, at, size)?;
            Ok(Value::Int(Whole::from(n)))
        }
        Marker::Signed(size) => {
            let n = number(input, at, size)?;
            Ok(Value::Int(Whole::from(signed(n, size))))
        }
        Marker::Text(len) => {
            let text = text(alloc, input, at, len)?;
            Ok(Value::Text(text))
        }
        Marker::Bytes(len) => {
            let bytes = chunk(input, at, len)?;
            Ok(Value::Bytes(Blob::of(alloc, bytes)?))
        }
        Marker::List(len) => list(alloc, input, at, room, len),
        Marker::Map(len) => map(alloc, input, at, room, len),
        Marker::Never => Err(PackError::Never { at }),
        Marker::Fraction => Err(PackError::Fraction { at }),
        Marker::Ext => Err(PackError::Ext { at }),
    }
}

#[cycle(value)]
#[inline(never)]
#[tactic(auto, unfolding(crate::specs::Reading::list_at))]
fn list(
    alloc: Global,
    input: &mut Input<'_>,
    at: usize,
    room: u32,
    len: Count,
) -> Result<Value, PackError>
    requires room { room ≤ 64 }
    ensures read { Gives (λ v. (tree v, input.new.rest.now)) result
        (list_at at (inner input.old.end room) len input.old.rest.now) }
    ensures end { input.new.end ≡ input.old.end }
    ensures shallow { IfOk result (λ v. depth (tree v) ≤ room) }
{
    if room == 0 {
        return Err(PackError::TooDeep { at });
    }
    let n = count(input, at, len)?;
    let values = values(alloc, input, n, room - 1)?;
    let Ok(items) = Items::of(values) else {
        unreachable!()
    };
    Ok(Value::List(items))
}

#[cycle(value)]
fn values(alloc: Global, input: &mut Input<'_>, n: u64, room: u32) -> Result<Vec<Value>, PackError>
    requires room { room ≤ 63 }
    ensures read { Gives (λ vs. (trees_of vs.items, input.new.rest.now)) result
        (many (value_at input.old.end room) n input.old.rest.now) }
    ensures end { input.new.end ≡ input.old.end }
    ensures shallow { IfOk result (λ vs. depth_of_all (trees_of vs.items) ≤ room) }
{
    depth_of_one_more_item();
    let mut values = Vec::with_capacity(alloc, n.min(FIRST_ROOM) as usize)?;
    for _ in 0..n {
        let value = value(alloc, input, room)?;
        values.push(value)?;
    }
    Ok(values)
}

#[cycle(value)]
#[inline(never)]
#[tactic(auto, unfolding(crate::specs::Reading::map_at))]
fn map(
    alloc: Global,
    input: &mut Input<'_>,
    at: usize,
    room: u32,
    len: Count,
) -> Result<Value, PackError>
    requires room { room ≤ 64 }
    ensures read { Gives (λ v. (tree v, input.new.rest.now)) result
        (map_at input.old.end at (inner input.old.end room) len input.old.rest.now) }
    ensures end { input.new.end ≡ input.old.end }
    ensures shallow { IfOk result (λ v. depth (tree v) ≤ room) }
{
    if room == 0 {
        return Err(PackError::TooDeep { at });
    }
    let n = count(input, at, len)?;
    let pairs = pairs(alloc, input, n, room - 1)?;
    match Value::map_from(pairs) {
        Ok(map) => Ok(map),
        Err(ValueError::NoMemory) => Err(PackError::NoMemory),
        Err(ValueError::TooDeep) => unreachable!(),
    }
}

#[cycle(value)]
fn pairs(
    alloc: Global,
    input: &mut Input<'_>,
    n: u64,
    room: u32,
) -> Result<Vec<(Text, Value)>, PackError>
    requires room { room ≤ 63 }
    ensures read { Gives (λ ps. (entries ps.items, input.new.rest.now)) result
        (pairs_at input.old.end (value_at input.old.end room) n input.old.rest.now) }
    ensures end { input.new.end ≡ input.old.end }
    ensures shallow { IfOk result (λ ps. depth_of_values (entries ps.items) ≤ room) }
{
    depth_of_one_more_pair();
    let mut pairs = Vec::with_capacity(alloc, n.min(FIRST_ROOM) as usize)?;
    for _ in 0..n {
        let name = key(alloc, input)?;
        let member = value(alloc, input, room)?;
        pairs.push((name, member))?;
    }
    Ok(pairs)
}

#[tactic(auto, unfolding(crate::specs::Reading::read_at))]
fn value_from(alloc: Global, bytes: &[u8], at: usize) -> Result<(Value, usize), PackError>
    requires { at ≤ length bytes.now }
    ensures { Gives placed result (read_at bytes.now at) }
{
    let mut input = Input::new(bytes, at);
    let value = value(alloc, &mut input, MOST_LEVELS)?;
    Ok((value, input.place()))
}

/// The value whose spelling begins at the place `at`, and the place after its last byte. Any
/// spelling will do (MessagePack specification, "Formats"), and of equal keys the last counts.
///
/// The error is the first in reading order. A list or a map has room for eight values or pairs at most before they are read,
/// and grows with what is there, so a count takes no more memory than that. The recursion is as deep as lists and maps
/// nest, which is 64 at most.
pub fn read_value(alloc: Global, bytes: &[u8], at: usize) -> Result<(Value, usize), PackError>
    requires { at ≤ length bytes.now }
    // What is read is spelled so, each byte of it.
    ensures found { IfOk result (λ x. IsSpelled bytes.now at (tree x.0) x.1) }
    // What is spelled so is read, unless memory runs out.
    ensures only { (t : Tree) (end : ℕ) → IsSpelled bytes.now at t end →
        MatchResult result (λ x. (tree x.0 ≡ t) × (x.1 ≡ end)) (λ e. e ≡ NoMemory) }
    // What is refused begins with whole parts of a value, and then with one that is none, at the
    // place named.
    ensures refused { IfErr result (λ e. (e ≢ NoMemory) → IsRefused bytes.now at e) }
    // What begins so is refused so: there is one reason, the first.
    ensures first { (e : PackError) → IsRefused bytes.now at e →
        MatchResult result (λ _. ⊥) (λ f. (f ≡ e) ⊎ (f ≡ NoMemory)) }
{
    value_from(alloc, bytes, at)
}
