//! Elements of a message's array, each taken out as the value that its place wants, or the refusal.
//! They are taken from left to right: what stands before a place is not looked at again.
ghost use Rattle.std.specs.Prelude.{◌≡◌, ◌+◌, ℕ, List, Option, IfOk, IfErr, None, Ok, Err, Some, [], false, drop, option_map, slice_get};
ghost use Rattle.hm_pack.specs.declared.refusal.PackRefusal.TheVariants.{Missing, NotArray};
ghost use Rattle.hv_value.specs.Tree.{Tree, list, trees};
ghost use Rattle.hv_value.specs.View.{tree, trees_of};
ghost use Rattle.hm_message.specs.Fields.{text_in as text_of, items_in as items_of, flag_in, whole_in, number_in as number_of, texts_in as texts_of, headers_in as headers_of};
ghost use Rattle.hm_pack.specs.Elements.{must, may, text_or_nil};
ghost use Rattle.hm_pack.specs.Refusals.{MemoryOr};
ghost use Rattle.hm_message.specs.declared.message.Field.TheVariants as fields;
ghost use Rattle.hm_pack.specs.Places.{headers_place};

use crate::places;
use crate::refusal::PackRefusal;
use hm_message::{Field, Headers, into_headers, into_items, into_texts, number_in};
use hv_value::{Items, Text, Texts, Value};
use std::alloc::Global;
use std::mem;

/// The elements of the array that a value is.
pub(crate) fn elements(value: Value) -> Result<Vec<Value>, PackRefusal>
    ensures ok { IfOk result (λ array. tree value ≡ list (trees (trees_of array.items))) }
    ensures not_array { IfErr result (λ e. e ≡ NotArray) }
    ensures err { IfErr result (λ e. items_of (tree value) ≡ None) }
{
    match value {
        Value::List(items) => Ok(items.into_values()),
        _ => Err(PackRefusal::NotArray),
    }
}

/// The element at a place, if the array has it. A null stands there afterwards.
pub(crate) fn element(array: &mut Vec<Value>, at: usize) -> Option<Value>
    ghost ts: { List Tree }
    requires { drop at (trees_of array.old.items) ≡ drop at ts }
    ensures found { option_map (λ v. tree v) result ≡ slice_get ts at }
    ensures rest { drop (at + 1) (trees_of array.new.items) ≡ drop (at + 1) ts }
{
    if at < array.len() {
        return Some(mem::replace(&mut array[at], Value::Null));
    }
    None
}

fn needed(array: &mut Vec<Value>, at: usize, field: Field) -> Result<Value, PackRefusal>
    ghost ts: { List Tree }
    requires { drop at (trees_of array.old.items) ≡ drop at ts }
    ensures there { IfOk result (λ v. slice_get ts at ≡ Some (tree v)) }
    ensures absent { IfErr result (λ e. slice_get ts at ≡ None) }
    ensures missing { IfErr result (λ e. e ≡ Missing field) }
    ensures rest { drop (at + 1) (trees_of array.new.items) ≡ drop (at + 1) ts }
{
    element(array, at).ok_or(PackRefusal::Missing(field))
}

pub(crate) fn whole(array: &mut Vec<Value>, at: usize, field: Field) -> Result<i128, PackRefusal>
    ghost ts: { List Tree }
    requires { drop at (trees_of array.old.items) ≡ drop at ts }
    ensures ok { IfOk result (λ n. must at field whole_in ts ≡ Ok n) }
    ensures err { IfErr result (λ e. must at field whole_in ts ≡ Err e) }
    ensures rest { drop (at + 1) (trees_of array.new.items) ≡ drop (at + 1) ts }
{
    match needed(array, at, field)? {
        Value::Int(n) => Ok(n.get()),
        _ => Err(PackRefusal::Wrong(field)),
    }
}

pub(crate) fn number(array: &mut Vec<Value>, at: usize, field: Field) -> Result<u64, PackRefusal>
    ghost ts: { List Tree }
    requires { drop at (trees_of array.old.items) ≡ drop at ts }
    ensures ok { IfOk result (λ n. must at field number_of ts ≡ Ok n) }
    ensures err { IfErr result (λ e. must at field number_of ts ≡ Err e) }
    ensures rest { drop (at + 1) (trees_of array.new.items) ≡ drop (at + 1) ts }
{
    number_in(&needed(array, at, field)?).ok_or(PackRefusal::Wrong(field))
}

pub(crate) fn text(array: &mut Vec<Value>, at: usize, field: Field) -> Result<Text, PackRefusal>
    ghost ts: { List Tree }
    requires { drop at (trees_of array.old.items) ≡ drop at ts }
    ensures ok { IfOk result (λ s. must at field text_of ts ≡ Ok s) }
    ensures err { IfErr result (λ e. must at field text_of ts ≡ Err e) }
    ensures rest { drop (at + 1) (trees_of array.new.items) ≡ drop (at + 1) ts }
{
    match needed(array, at, field)? {
        Value::Text(text) => Ok(text),
        _ => Err(PackRefusal::Wrong(field)),
    }
}

/// A text, or `None` if the element is nil.
pub(crate) fn optional_text(
    array: &mut Vec<Value>,
    at: usize,
    field: Field,
) -> Result<Option<Text>, PackRefusal>
    ghost ts: { List Tree }
    requires { drop at (trees_of array.old.items) ≡ drop at ts }
    ensures ok { IfOk result (λ s. must at field text_or_nil ts ≡ Ok s) }
    ensures err { IfErr result
        (λ e. must {A = Option (List ℕ)} at field text_or_nil ts ≡ Err e) }
    ensures rest { drop (at + 1) (trees_of array.new.items) ≡ drop (at + 1) ts }
{
    match needed(array, at, field)? {
        Value::Null => Ok(None),
        Value::Text(text) => Ok(Some(text)),
        _ => Err(PackRefusal::Wrong(field)),
    }
}

pub(crate) fn items(array: &mut Vec<Value>, at: usize, field: Field) -> Result<Items, PackRefusal>
    ghost ts: { List Tree }
    requires { drop at (trees_of array.old.items) ≡ drop at ts }
    ensures ok { IfOk result (λ items. must at field items_of ts ≡ Ok items) }
    ensures err { IfErr result (λ e. must at field items_of ts ≡ Err e) }
    ensures rest { drop (at + 1) (trees_of array.new.items) ≡ drop (at + 1) ts }
{
    into_items(needed(array, at, field)?).ok_or(PackRefusal::Wrong(field))
}

pub(crate) fn any(array: &mut Vec<Value>, at: usize, field: Field) -> Result<Value, PackRefusal>
    ghost ts: { List Tree }
    requires { drop at (trees_of array.old.items) ≡ drop at ts }
    ensures ok { IfOk result (λ v. must at field Some ts ≡ Ok (tree v)) }
    ensures err { IfErr result (λ e. must at field Some ts ≡ Err e) }
    ensures rest { drop (at + 1) (trees_of array.new.items) ≡ drop (at + 1) ts }
{
    needed(array, at, field)
}

/// A list of texts, which is empty if the array ends before it.
pub(crate) fn texts(
    alloc: Global,
    array: &mut Vec<Value>,
    at: usize,
    field: Field,
) -> Result<Texts, PackRefusal>
    ghost ts: { List Tree }
    requires { drop at (trees_of array.old.items) ≡ drop at ts }
    ensures ok { IfOk result (λ texts. may [] at field texts_of ts ≡ Ok texts) }
    ensures err { IfErr result (λ e. MemoryOr e (may [] at field texts_of ts ≡ Err e)) }
    ensures rest { drop (at + 1) (trees_of array.new.items) ≡ drop (at + 1) ts }
{
    let Some(value) = element(array, at) else {
        return Ok(Texts::of(Vec::new(alloc)));
    };
    into_texts(alloc, value)?.ok_or(PackRefusal::Wrong(field))
}

pub(crate) fn headers(alloc: Global, array: &mut Vec<Value>) -> Result<Headers, PackRefusal>
    ghost ts: { List Tree }
    requires { drop headers_place (trees_of array.old.items) ≡ drop headers_place ts }
    ensures ok { IfOk result (λ hs. must headers_place fields.Headers headers_of ts ≡ Ok hs) }
    ensures err { IfErr result
        (λ e. MemoryOr e (must headers_place fields.Headers headers_of ts ≡ Err e)) }
    ensures rest { drop (headers_place + 1) (trees_of array.new.items)
        ≡ drop (headers_place + 1) ts }
{
    let value = needed(array, places::HEADERS, Field::Headers)?;
    into_headers(alloc, value)?.ok_or(PackRefusal::Wrong(Field::Headers))
}

/// A truth value, which is false if the array ends before it.
pub(crate) fn flag(array: &mut Vec<Value>, at: usize, field: Field) -> Result<bool, PackRefusal>
    ghost ts: { List Tree }
    requires { drop at (trees_of array.old.items) ≡ drop at ts }
    ensures ok { IfOk result (λ b. may false at field flag_in ts ≡ Ok b) }
    ensures err { IfErr result (λ e. may false at field flag_in ts ≡ Err e) }
    ensures rest { drop (at + 1) (trees_of array.new.items) ≡ drop (at + 1) ts }
{
    match element(array, at) {
        None => Ok(false),
        Some(Value::Bool(b)) => Ok(b),
        Some(_) => Err(PackRefusal::Wrong(field)),
    }
}
