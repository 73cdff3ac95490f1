//! The arguments of a call as a method reads them, and the lists of texts that a notice has.

ghost use Rattle.std.specs.Prelude.{◌≡◌, [], ◌∷◌, IfOk};
ghost use Rattle.hv_value.specs.Tree.{text, depth_of_all};
ghost use Rattle.hv_value.specs.View.{tree, trees_of};
ghost use Rattle.hub_rooms.specs.Arguments.{room_in, one_room, two_texts, room_and_text, most_in, room_and_most};

use hd_rooms::{MOST_NAME, MOST_RECALLED};
use hm_message::{number_in, text_in};
use hv_value::{Items, Text, Value};
use std::alloc::{AllocError, Global};

/// A copy of the room's name that the value is, if it is one that isn't too long.
fn room_in(value: &Value) -> Result<Option<Text>, AllocError>
    ensures { IfOk result (λ o. o ≡ room_in (tree value.now)) }
{
    let Some(name) = text_in(value)? else {
        return Ok(None);
    };
    if name.as_str().len() > MOST_NAME {
        return Ok(None);
    }
    Ok(Some(name))
}

/// A copy of the one argument, if there is one and it is a room's name.
pub fn room_of(arguments: &[Value]) -> Result<Option<Text>, AllocError>
    ensures { IfOk result (λ o. o ≡ one_room (trees_of arguments.now)) }
{
    let [only] = arguments else {
        return Ok(None);
    };
    room_in(only)
}

/// Copies of the two arguments, if there are two and both are texts.
pub fn texts_of(arguments: &[Value]) -> Result<Option<(Text, Text)>, AllocError>
    ensures { IfOk result (λ o. o ≡ two_texts (trees_of arguments.now)) }
{
    let [first, second] = arguments else {
        return Ok(None);
    };
    let Some(first) = text_in(first)? else {
        return Ok(None);
    };
    let Some(second) = text_in(second)? else {
        return Ok(None);
    };
    Ok(Some((first, second)))
}

/// Copies of the two arguments, if there are two, a room's name and a text.
pub fn room_and_text_of(arguments: &[Value]) -> Result<Option<(Text, Text)>, AllocError>
    ensures { IfOk result (λ o. o ≡ room_and_text (trees_of arguments.now)) }
{
    let [first, second] = arguments else {
        return Ok(None);
    };
    let Some(first) = room_in(first)? else {
        return Ok(None);
    };
    let Some(second) = text_in(second)? else {
        return Ok(None);
    };
    Ok(Some((first, second)))
}

/// A number of texts for which `History` can ask.
fn most_in(value: &Value) -> Option<u32>
    ensures { result ≡ most_in (tree value.now) }
{
    let number = number_in(value)?;
    if number > u64::from(MOST_RECALLED) {
        return None;
    }
    Some(number as u32)
}

/// Copies of the two arguments, if there are two, a room's name and a number of texts for which `History` can ask.
pub fn room_and_most_of(arguments: &[Value]) -> Result<Option<(Text, u32)>, AllocError>
    ensures { IfOk result (λ o. o ≡ room_and_most (trees_of arguments.now)) }
{
    let [first, second] = arguments else {
        return Ok(None);
    };
    let Some(first) = room_in(first)? else {
        return Ok(None);
    };
    let Some(most) = most_in(second) else {
        return Ok(None);
    };
    Ok(Some((first, most)))
}

/// The list of these values, none of which is a list or a map.
fn flat(values: Vec<Value>) -> Items
    requires { depth_of_all (trees_of values.items) ≡ 0 }
    ensures { result ≡ trees_of values.items }
{
    Items::of(values).unwrap()
}

/// The list of these two texts.
pub fn two_items(alloc: Global, first: Text, second: Text) -> Result<Items, AllocError>
    ensures { IfOk result (λ items. items ≡ text first ∷ text second ∷ []) }
{
    let mut values = Vec::with_capacity(alloc, 2)?;
    values.push(Value::Text(first))?;
    values.push(Value::Text(second))?;
    Ok(flat(values))
}

/// The list of these three texts.
pub fn three_items(
    alloc: Global,
    first: Text,
    second: Text,
    third: Text,
) -> Result<Items, AllocError>
    ensures { IfOk result (λ items. items ≡ text first ∷ text second ∷ text third ∷ []) }
{
    let mut values = Vec::with_capacity(alloc, 3)?;
    values.push(Value::Text(first))?;
    values.push(Value::Text(second))?;
    values.push(Value::Text(third))?;
    Ok(flat(values))
}
