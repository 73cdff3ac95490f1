//! The words of a script. A word that is none of what is wanted is refused.

use hd_calls::CallKind;
use hm_message::Ending;
use ht_kit::{Stop, first_word};
use hv_value::{Text, Value, Whole};
use std::alloc::Global;

pub fn text(alloc: Global, words: &str) -> Result<Text, Stop> {
    Ok(Text::of(alloc, words)?)
}

/// A text after an apostrophe.
pub fn name(alloc: Global, word: &str) -> Result<Text, Stop> {
    let name = word.strip_prefix('\'').ok_or(Stop::Refused)?;
    text(alloc, name)
}

/// A number that a value can hold, `null`, or a text after an apostrophe.
pub fn value(alloc: Global, word: &str) -> Result<Value, Stop> {
    if word == "null" {
        return Ok(Value::Null);
    }
    match word.parse::<i128>() {
        Ok(number) => Ok(Value::Int(Whole::of(number).ok_or(Stop::Refused)?)),
        Err(_) => Ok(Value::Text(name(alloc, word)?)),
    }
}

/// `notify`, `call` or `stream`.
pub fn call_kind(word: &str) -> Result<CallKind, Stop> {
    match word {
        "notify" => Ok(CallKind::Notify),
        "call" => Ok(CallKind::Call),
        "stream" => Ok(CallKind::Stream),
        _ => Err(Stop::Refused),
    }
}

/// `void`, `result VALUE` or `error TEXT`: how a call ends.
pub fn ending(alloc: Global, words: &str) -> Result<Ending, Stop> {
    let (word, rest) = first_word(words);
    match word {
        "void" => Ok(Ending::Void),
        "result" => Ok(Ending::Result(value(alloc, rest)?)),
        "error" => Ok(Ending::Error(text(alloc, rest)?)),
        _ => Err(Stop::Refused),
    }
}
