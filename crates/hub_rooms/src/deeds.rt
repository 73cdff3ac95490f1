//! The deeds of each method, in order. `None` is the answer if the arguments aren't of the method's kind.

ghost use Rattle.std.specs.Prelude.{◌≡◌, ◌∷◌, [], ℕ, List, IfOk};
ghost use Rattle.hv_value.specs.View.{trees_of};
ghost use Rattle.hd_rooms.specs.Rooms.{deeds_of, method_of};
ghost use Rattle.hd_rooms.specs.declared.vocabulary.RoomsMethod.TheVariants.{Join, Leave, Post, Tell, History};
ghost use Rattle.hub_rooms.specs.Jobs.{listed};

use crate::arguments::{
    room_and_most_of, room_and_text_of, room_of, texts_of, three_items, two_items,
};
use hd_calls::Deed;
use hd_rooms::RoomsMethod;
use hv_value::{Text, Value};
use std::alloc::{AllocError, Global};
use std::collections::VecDeque;

/// The method that the target names, if there is one.
pub fn method_named(target: &Text) -> Option<RoomsMethod>
    ensures { result ≡ method_of target.now }
{
    let target = target.as_str();
    if target == "Join" {
        return Some(RoomsMethod::Join);
    }
    if target == "Leave" {
        return Some(RoomsMethod::Leave);
    }
    if target == "Post" {
        return Some(RoomsMethod::Post);
    }
    if target == "Tell" {
        return Some(RoomsMethod::Tell);
    }
    if target == "History" {
        return Some(RoomsMethod::History);
    }
    None
}

fn one(alloc: Global, deed: Deed) -> Result<VecDeque<Deed>, AllocError>
    ensures { IfOk result (λ q. q.items ≡ deed ∷ []) }
{
    let mut deeds = VecDeque::with_capacity(alloc, 1)?;
    deeds.push_back(deed)?;
    Ok(deeds)
}

fn two(alloc: Global, first: Deed, second: Deed) -> Result<VecDeque<Deed>, AllocError>
    ensures { IfOk result (λ q. q.items ≡ first ∷ second ∷ []) }
{
    let mut deeds = VecDeque::with_capacity(alloc, 2)?;
    deeds.push_back(first)?;
    deeds.push_back(second)?;
    Ok(deeds)
}

fn join(alloc: Global, arguments: &[Value]) -> Result<Option<VecDeque<Deed>>, AllocError>
    ensures { IfOk result (λ o. (who : List ℕ) → listed o ≡ deeds_of Join who (trees_of arguments.now)) }
{
    let Some(room) = room_of(arguments)? else {
        return Ok(None);
    };
    Ok(Some(one(alloc, Deed::Join(room))?))
}

fn leave(alloc: Global, arguments: &[Value]) -> Result<Option<VecDeque<Deed>>, AllocError>
    ensures { IfOk result (λ o. (who : List ℕ) → listed o ≡ deeds_of Leave who (trees_of arguments.now)) }
{
    let Some(room) = room_of(arguments)? else {
        return Ok(None);
    };
    Ok(Some(one(alloc, Deed::Leave(room))?))
}

fn post(
    alloc: Global,
    who: &Text,
    arguments: &[Value],
) -> Result<Option<VecDeque<Deed>>, AllocError>
    ensures { IfOk result (λ o. listed o ≡ deeds_of Post who.now (trees_of arguments.now)) }
{
    let Some((room, text)) = room_and_text_of(arguments)? else {
        return Ok(None);
    };
    let target = Text::of(alloc, "Posted")?;
    let notice = three_items(alloc, room.copy()?, who.copy()?, text.copy()?)?;
    let log = Deed::Log {
        room: room.copy()?,
        text,
    };
    let post = Deed::Post {
        group: room,
        target,
        arguments: notice,
    };
    Ok(Some(two(alloc, log, post)?))
}

fn tell(
    alloc: Global,
    who: &Text,
    arguments: &[Value],
) -> Result<Option<VecDeque<Deed>>, AllocError>
    ensures { IfOk result (λ o. listed o ≡ deeds_of Tell who.now (trees_of arguments.now)) }
{
    let Some((user, text)) = texts_of(arguments)? else {
        return Ok(None);
    };
    let deed = Deed::Tell {
        user,
        target: Text::of(alloc, "Told")?,
        arguments: two_items(alloc, who.copy()?, text)?,
    };
    Ok(Some(one(alloc, deed)?))
}

fn history(alloc: Global, arguments: &[Value]) -> Result<Option<VecDeque<Deed>>, AllocError>
    ensures { IfOk result (λ o. (who : List ℕ) → listed o ≡ deeds_of History who (trees_of arguments.now)) }
{
    let Some((room, most)) = room_and_most_of(arguments)? else {
        return Ok(None);
    };
    Ok(Some(one(alloc, Deed::History { room, most })?))
}

/// The deeds of the method for the caller's side `who`.
pub fn deeds_for(
    alloc: Global,
    method: RoomsMethod,
    who: &Text,
    arguments: &[Value],
) -> Result<Option<VecDeque<Deed>>, AllocError>
    ensures { IfOk result (λ o. listed o ≡ deeds_of method who.now (trees_of arguments.now)) }
{
    match method {
        RoomsMethod::Join => join(alloc, arguments),
        RoomsMethod::Leave => leave(alloc, arguments),
        RoomsMethod::Post => post(alloc, who, arguments),
        RoomsMethod::Tell => tell(alloc, who, arguments),
        RoomsMethod::History => history(alloc, arguments),
    }
}
