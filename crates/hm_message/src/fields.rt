//! What a field's value is to a message: a text, a list, a number, texts or headers. The functions named
//! `into_` take the value's parts; the others copy them.
ghost use Rattle.std.specs.Prelude.{◌≡◌, IfOk};
ghost use Rattle.hv_value.specs.View.{tree};
ghost use Rattle.hm_message.specs.Fields.{text_in as text_of, items_in as items_of, number_in as number_of, texts_in as texts_of, headers_in as headers_of};

use crate::headers::Headers;
use hv_value::{Items, Text, Texts, Value};
use std::alloc::{AllocError, Global};

/// A copy of the text that the value is, if it is one.
pub fn text_in(value: &Value) -> Result<Option<Text>, AllocError>
    ensures { IfOk result (λ o. o ≡ text_of (tree value.now)) }
{
    match value {
        Value::Text(text) => Ok(Some(text.copy()?)),
        _ => Ok(None),
    }
}

/// The whole number from 0 to 2^64 - 1 that the value is, if it is one.
pub fn number_in(value: &Value) -> Option<u64>
    ensures { result ≡ number_of (tree value.now) }
{
    match value {
        Value::Int(n) => u64::try_from(n.get()).ok(),
        _ => None,
    }
}

/// A copy of the list of texts that the value is, if it is one.
pub fn texts_in(alloc: Global, value: &Value) -> Result<Option<Texts>, AllocError>
    ensures { IfOk result (λ o. o ≡ texts_of (tree value.now)) }
{
    let Value::List(items) = value else {
        return Ok(None);
    };
    let mut texts = Vec::with_capacity(alloc, items.values().len())?;
    for value in items.values() {
        let Value::Text(text) = value else {
            return Ok(None);
        };
        texts.push(text.copy()?)?;
    }
    Ok(Some(Texts::of(texts)))
}

/// The headers that the value is, if it is a map whose values are texts.
pub fn headers_in(alloc: Global, value: &Value) -> Result<Option<Headers>, AllocError>
    ensures { IfOk result (λ o. o ≡ headers_of (tree value.now)) }
{
    let Value::Map(entries) = value else {
        return Ok(None);
    };
    let mut pairs = Vec::with_capacity(alloc, entries.pairs().len())?;
    for (key, value) in entries.pairs() {
        let Value::Text(text) = value else {
            return Ok(None);
        };
        pairs.push((key.copy()?, text.copy()?))?;
    }
    Ok(Some(Headers::of(pairs)?))
}

/// The text that the value is, if it is one.
pub fn into_text(value: Value) -> Option<Text>
    ensures { result ≡ text_of (tree value) }
{
    match value {
        Value::Text(text) => Some(text),
        _ => None,
    }
}

/// The list that the value is, if it is one.
pub fn into_items(value: Value) -> Option<Items>
    ensures { result ≡ items_of (tree value) }
{
    match value {
        Value::List(items) => Some(items),
        _ => None,
    }
}

/// The list of texts that the value is, if it is one. It fails if out of memory.
pub fn into_texts(alloc: Global, value: Value) -> Result<Option<Texts>, AllocError>
    ensures { IfOk result (λ o. o ≡ texts_of (tree value)) }
{
    let Value::List(items) = value else {
        return Ok(None);
    };
    let values = items.into_values();
    let mut texts = Vec::with_capacity(alloc, values.len())?;
    for value in values {
        let Value::Text(text) = value else {
            return Ok(None);
        };
        texts.push(text)?;
    }
    Ok(Some(Texts::of(texts)))
}

/// The headers that the value is, if it is a map whose values are texts. It fails if out of memory.
pub fn into_headers(alloc: Global, value: Value) -> Result<Option<Headers>, AllocError>
    ensures { IfOk result (λ o. o ≡ headers_of (tree value)) }
{
    let Value::Map(entries) = value else {
        return Ok(None);
    };
    let members = entries.into_pairs();
    let mut pairs = Vec::with_capacity(alloc, members.len())?;
    for (key, value) in members {
        let Value::Text(text) = value else {
            return Ok(None);
        };
        pairs.push((key, text))?;
    }
    Ok(Some(Headers::in_order(pairs)))
}
