//! The properties of a message's object: what each says, or why it is refused. `take_` consumes the object and
//! moves the value out; the others copy it.
ghost use Rattle.std.specs.Prelude.{◌≡◌, ℕ, List, Option, IfOk, IfErr, None, Ok, Err, Some, [], false, option_map};
ghost use Rattle.hm_json.specs.declared.refusal.Refusal.TheVariants.{Missing};
ghost use Rattle.hv_value.specs.Tree.{map, pairs, value_at};
ghost use Rattle.hv_value.specs.View.{tree};
ghost use Rattle.hm_message.specs.Fields.{text_in as text_of, items_in as items_of, flag_in, whole_in, number_in as number_of, texts_in as texts_of, headers_in as headers_of};
ghost use Rattle.hm_message.specs.Name.{field_name};
ghost use Rattle.hm_json.specs.Properties.{unless_null, must, may, some_text};
ghost use Rattle.hm_json.specs.Refusals.{MemoryOr};
ghost use Rattle.hm_message.specs.declared.message.Field.TheVariants as fields;

use crate::refusal::Refusal;
use hm_message::{Field, Headers, headers_in, into_items, number_in, text_in, texts_in};
use hv_value::{Entries, Items, Text, Texts, Value};
use std::alloc::Global;

/// The value of the property of this name.
pub(crate) fn property<'a>(object: &'a Entries, name: &str) -> Option<&'a Value>
    ensures { option_map (λ v. tree v.now) result ≡ value_at name.now (map (pairs object.now)) }
{
    for (key, value) in object.pairs() {
        if name == key.as_str() {
            return Some(value);
        }
    }
    None
}

fn needed<'a>(object: &'a Entries, field: Field) -> Result<&'a Value, Refusal>
    ensures there { IfOk result (λ v. value_at (field_name field) (map (pairs object.now)) ≡ Some (tree v.now)) }
    ensures absent { IfErr result (λ e. value_at (field_name field) (map (pairs object.now)) ≡ None) }
    ensures missing { IfErr result (λ e. e ≡ Missing field) }
{
    property(object, field.name()).ok_or(Refusal::Missing(field))
}

/// The value of a property, of which a null counts as absent.
fn optional<'a>(object: &'a Entries, field: Field) -> Option<&'a Value>
    ensures { option_map (λ v. tree v.now) result
        ≡ unless_null (value_at (field_name field) (map (pairs object.now))) }
{
    match property(object, field.name()) {
        Some(Value::Null) => None,
        found => found,
    }
}

pub(crate) fn whole(object: &Entries, field: Field) -> Result<i128, Refusal>
    ensures ok { IfOk result (λ n. must field whole_in (map (pairs object.now)) ≡ Ok n) }
    ensures err { IfErr result (λ e. must field whole_in (map (pairs object.now)) ≡ Err e) }
{
    match needed(object, field)? {
        Value::Int(n) => Ok(n.get()),
        _ => Err(Refusal::Wrong(field)),
    }
}

pub(crate) fn number(object: &Entries, field: Field) -> Result<u64, Refusal>
    ensures ok { IfOk result (λ n. must field number_of (map (pairs object.now)) ≡ Ok n) }
    ensures err { IfErr result (λ e. must field number_of (map (pairs object.now)) ≡ Err e) }
{
    number_in(needed(object, field)?).ok_or(Refusal::Wrong(field))
}

pub(crate) fn text(object: &Entries, field: Field) -> Result<Text, Refusal>
    ensures ok { IfOk result (λ s. must field text_of (map (pairs object.now)) ≡ Ok s) }
    ensures err { IfErr result
        (λ e. MemoryOr e (must field text_of (map (pairs object.now)) ≡ Err e)) }
{
    let value = needed(object, field)?;
    text_in(value)?.ok_or(Refusal::Wrong(field))
}

pub(crate) fn optional_text(object: &Entries, field: Field) -> Result<Option<Text>, Refusal>
    ensures ok { IfOk result (λ s. may None field some_text (map (pairs object.now)) ≡ Ok s) }
    ensures err { IfErr result
        (λ e. MemoryOr e (may {A = Option (List ℕ)} None field some_text (map (pairs object.now)) ≡ Err e)) }
{
    let Some(value) = optional(object, field) else {
        return Ok(None);
    };
    match text_in(value)? {
        Some(text) => Ok(Some(text)),
        None => Err(Refusal::Wrong(field)),
    }
}

/// The value of the property of this name, taken out of the object.
pub(crate) fn take_property(object: Entries, name: &str) -> Option<Value>
    ensures { option_map tree result ≡ value_at name.now (map (pairs object)) }
{
    for (key, value) in object.into_pairs() {
        if name == key.as_str() {
            return Some(value);
        }
    }
    None
}

fn take_needed(object: Entries, field: Field) -> Result<Value, Refusal>
    ensures there { IfOk result (λ v. value_at (field_name field) (map (pairs object)) ≡ Some (tree v)) }
    ensures absent { IfErr result (λ e. value_at (field_name field) (map (pairs object)) ≡ None) }
    ensures missing { IfErr result (λ e. e ≡ Missing field) }
{
    take_property(object, field.name()).ok_or(Refusal::Missing(field))
}

pub(crate) fn take_items(object: Entries, field: Field) -> Result<Items, Refusal>
    ensures ok { IfOk result (λ items. must field items_of (map (pairs object)) ≡ Ok items) }
    ensures err { IfErr result (λ e. must field items_of (map (pairs object)) ≡ Err e) }
{
    let value = take_needed(object, field)?;
    into_items(value).ok_or(Refusal::Wrong(field))
}

pub(crate) fn take_any(object: Entries, field: Field) -> Result<Value, Refusal>
    ensures ok { IfOk result (λ v. must field Some (map (pairs object)) ≡ Ok (tree v)) }
    ensures err { IfErr result (λ e. must field Some (map (pairs object)) ≡ Err e) }
{
    take_needed(object, field)
}

pub(crate) fn texts(alloc: Global, object: &Entries, field: Field) -> Result<Texts, Refusal>
    ensures ok { IfOk result (λ texts. may [] field texts_of (map (pairs object.now)) ≡ Ok texts) }
    ensures err { IfErr result
        (λ e. MemoryOr e (may [] field texts_of (map (pairs object.now)) ≡ Err e)) }
{
    let Some(value) = optional(object, field) else {
        return Ok(Texts::of(Vec::new(alloc)));
    };
    texts_in(alloc, value)?.ok_or(Refusal::Wrong(field))
}

pub(crate) fn headers(alloc: Global, object: &Entries) -> Result<Headers, Refusal>
    ensures ok { IfOk result
        (λ hs. may [] fields.Headers headers_of (map (pairs object.now)) ≡ Ok hs) }
    ensures err { IfErr result
        (λ e. MemoryOr e (may [] fields.Headers headers_of (map (pairs object.now)) ≡ Err e)) }
{
    let Some(value) = optional(object, Field::Headers) else {
        return Ok(Headers::none(alloc));
    };
    headers_in(alloc, value)?.ok_or(Refusal::Wrong(Field::Headers))
}

pub(crate) fn flag(object: &Entries, field: Field) -> Result<bool, Refusal>
    ensures ok { IfOk result (λ b. may false field flag_in (map (pairs object.now)) ≡ Ok b) }
    ensures err { IfErr result (λ e. may false field flag_in (map (pairs object.now)) ≡ Err e) }
{
    match optional(object, field) {
        None => Ok(false),
        Some(Value::Bool(b)) => Ok(*b),
        Some(_) => Err(Refusal::Wrong(field)),
    }
}
