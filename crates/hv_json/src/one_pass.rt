//! The reading of most texts: values in one pass over a reader's tokens, with no tree between. Whatever it doubts is left to
//! the slower reading, which alone refuses.
ghost use Rattle.std.specs.Prelude.{◌≡◌, ◌<◌, ◌≤◌, length, IfOk, OnOk};
ghost use Rattle.hv_value.specs.Tree.{depth_of_values};
ghost use Rattle.hv_value.specs.View.{tree, trees_of, entries};
ghost use Rattle.hv_json.specs.Quick.{Begins, BeginsItems, BeginsMembers};

use crate::number::whole;
use hv_value::{
    Items, Text, Value, ValueError, depth_of_one_more_pair, map_has_the_keys,
    pairs_in_order_are_their_map,
};
use json::{Reader, Token};
use std::alloc::{AllocError, AllocFailed, Global};
use thiserror::Error;

/// Why the quick reading gives no value.
#[derive(Clone, Copy, Debug, Drop, PartialEq, Eq, Error)]
pub enum Fallback {
    /// It is for the slower reading to say what it is. The text may also have a value.
    #[error("the quick reading leaves it to the slower one")]
    Other,
    #[error("out of memory")]
    NoMemory,
}

impl From<AllocError> for Fallback {
    fn from(_e: AllocError) -> Fallback {
        Fallback::NoMemory
    }
}

impl<T: Drop> From<AllocFailed<T>> for Fallback {
    fn from(_e: AllocFailed<T>) -> Fallback {
        Fallback::NoMemory
    }
}

/// The value that the tokens begin with, if it has no fraction and nests no deeper than `room`.
/// After it the reader is at what follows the value; after an error it may be anywhere. Nothing is said of which
/// tokens it doubts.
#[cycle(quick)]
pub(crate) fn quick(alloc: Global, reader: &mut Reader<'_>, room: u32) -> Result<Value, Fallback>
    requires { room ≤ 64 }
    ensures ok { IfOk result (λ v. Begins room reader.old reader.new (tree v)) }
    ensures shorter { OnOk result (length reader.new < length reader.old) }
{
    map_has_the_keys();
    pairs_in_order_are_their_map();
    let token = reader.next().ok_or(Fallback::Other)?;
    match token {
        Token::String(text) => Ok(Value::Text(Text::of(alloc, text)?)),
        Token::Number(text) => match whole(text) {
            Some(n) => Ok(Value::Int(n)),
            None => Err(Fallback::Other),
        },
        Token::Bool(b) => Ok(Value::Bool(b)),
        Token::Null => Ok(Value::Null),
        Token::BeginArray => {
            if room == 0 {
                return Err(Fallback::Other);
            }
            let values = quick_items(alloc, reader, room - 1)?;
            match Items::of(values) {
                Ok(items) => Ok(Value::List(items)),
                Err(_) => Err(Fallback::Other),
            }
        }
        Token::BeginObject => {
            if room == 0 {
                return Err(Fallback::Other);
            }
            let pairs = quick_members(alloc, reader, room - 1)?;
            match Value::map_from(pairs) {
                Ok(map) => {
                    // So its keys are in order.
                    prove!(map.depth() <= 64);
                    Ok(map)
                }
                Err(ValueError::NoMemory) => Err(Fallback::NoMemory),
                Err(ValueError::TooDeep) => Err(Fallback::Other),
            }
        }
        _ => Err(Fallback::Other),
    }
}

#[cycle(quick)]
#[inline(never)]
fn quick_items(alloc: Global, reader: &mut Reader<'_>, room: u32) -> Result<Vec<Value>, Fallback>
    requires { room ≤ 63 }
    ensures ok { IfOk result (λ v. BeginsItems room reader.old reader.new (trees_of v.items)) }
    ensures shorter { OnOk result (length reader.new < length reader.old) }
{
    let mut values = Vec::new(alloc);
    'items: while !reader.take_end_array() {
        let value = quick(alloc, reader, room)?;
        values.push(value)?;
    }
    Ok(values)
}

#[cycle(quick)]
#[inline(never)]
fn quick_members(
    alloc: Global,
    reader: &mut Reader<'_>,
    room: u32,
) -> Result<Vec<(Text, Value)>, Fallback>
    requires { room ≤ 63 }
    ensures shallow { IfOk result (λ v. depth_of_values (entries v.items) ≤ room) }
    ensures ok { IfOk result (λ v. BeginsMembers room reader.old reader.new (entries v.items)) }
    ensures shorter { OnOk result (length reader.new < length reader.old) }
{
    depth_of_one_more_pair();
    let mut pairs = Vec::new(alloc);
    'members: loop {
        let name = match reader.next_key() {
            Ok(Some(name)) => name,
            Ok(None) => break,
            Err(_) => return Err(Fallback::Other),
        };
        let key = Text::of(alloc, name)?;
        let member = quick(alloc, reader, room)?;
        // It never is, but this is sooner seen than proved.
        if member.depth() > room {
            return Err(Fallback::Other);
        }
        pairs.push((key, member))?;
    }
    Ok(pairs)
}
