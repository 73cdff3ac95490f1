//! What a call, an input or an answer counts for its weight, which takes no memory. The weights are those of `hd_calls`, and one that is
//! more than `MOST_COUNTED` counts as that.

ghost use Rattle.std.specs.Prelude.{◌≡◌, ◌+◌, ◌≤◌, length};
ghost use Rattle.hv_value.specs.Tree.{trees, pairs};
ghost use Rattle.hv_value.specs.View.{tree, trees_of, entries};
ghost use Rattle.hd_calls.specs.Weights.{id_weight, text_weight, ids_weight, arguments_weight, error_weight, ending_weight, input_weight as weight_of, value_weight, values_weight, pairs_weight};
ghost use Rattle.hj_jobs.specs.Counted.{Adds, counted, input_count, most_counted, Swaps, weight_as_given};

use hd_calls::{BASE_WEIGHT, Call, Input, REFUSAL_TEXT};
use hm_message::Ending;
use hv_value::{Text, Value, no_item_is_deeper, no_pair_is_deeper};

/// The most that one call, input or answer counts, so that the counts of all that jobs may keep have a sum.
pub(crate) const MOST_COUNTED: u64 = 1 << 32;

// ---- sums

/// What both count together.
fn sum(a: u64, b: u64) -> u64
    ensures { result ≡ counted (a + b) }
{
    a.saturating_add(b).min(MOST_COUNTED)
}

/// The number, to which this much is added.
pub(crate) fn plus(old: u64, much: u64) -> u64
    ensures { Adds old result much }
{
    old.saturating_add(much)
}

/// The sum, in which one part is replaced by another.
pub(crate) fn swapped(old: u64, before: u64, after: u64) -> u64
    ensures { Swaps old result before after }
{
    old.saturating_sub(before).saturating_add(after)
}

// ---- calls

/// What a call counts.
pub(crate) fn call_count(call: &Call) -> u64
    ensures exact { result ≡ counted (weight_as_given call.now) }
    ensures bound { result ≤ most_counted }
{
    let names = sum(text_count(&call.target), texts_count(call.streams.texts()));
    let arguments = sum(BASE_WEIGHT, values_count(call.arguments.values()));
    sum(id_count(&call.id), sum(names, arguments))
}

fn id_count(id: &Option<Text>) -> u64
    ensures { result ≡ counted (id_weight id.now) }
{
    match id {
        Some(id) => text_count(id),
        None => 0,
    }
}

fn text_count(text: &Text) -> u64
    ensures { result ≡ counted (text_weight text.now) }
{
    sum(BASE_WEIGHT, text.as_str().len() as u64)
}

fn texts_count(texts: &[Text]) -> u64
    ensures { result ≡ counted (ids_weight texts.now) }
{
    let mut total = 0;
    for text in texts {
        total = sum(total, text_count(text));
    }
    total
}

// ---- inputs

/// What an input counts, where there is one.
pub(crate) fn reply_count(reply: &Option<Input>) -> u64
    ensures exact { result ≡ input_count reply.now }
    ensures bound { result ≤ most_counted }
{
    match reply {
        Some(input) => count_of(input),
        None => 0,
    }
}

/// What an input counts. Only what came from the other side weighs anything.
pub(crate) fn count_of(input: &Input) -> u64
    ensures exact { result ≡ counted (weight_of input.now) }
    ensures bound { result ≤ most_counted }
{
    match input {
        Input::Item { value, .. } => value_count(value),
        Input::StreamEnd { error, .. } => sum(BASE_WEIGHT, error_count(error)),
        Input::Asked(ending) => ending_count(ending),
        Input::Go => 0,
        Input::Done(_) => 0,
        Input::Failed => 0,
    }
}

fn error_count(error: &Option<Text>) -> u64
    ensures { result ≡ counted (error_weight error.now) }
{
    match error {
        Some(text) => sum(0, text.as_str().len() as u64),
        None => 0,
    }
}

fn ending_count(ending: &Ending) -> u64
    ensures exact { result ≡ counted (ending_weight ending.now) }
    ensures bound { result ≤ most_counted }
{
    match ending {
        Ending::Void => BASE_WEIGHT,
        Ending::Result(value) => sum(BASE_WEIGHT, value_count(value)),
        Ending::Error(text) => {
            if text.as_str() == REFUSAL_TEXT {
                return 0;
            }
            text_count(text)
        }
    }
}

// ---- values

#[cycle(count)]
fn value_count(value: &Value) -> u64
    ensures exact { result ≡ counted (value_weight (tree value.now)) }
    ensures bound { result ≤ most_counted }
{
    match value {
        Value::Null => BASE_WEIGHT,
        Value::Bool(_) => BASE_WEIGHT,
        Value::Int(_) => BASE_WEIGHT,
        Value::Text(text) => sum(BASE_WEIGHT, text.as_str().len() as u64),
        Value::Bytes(bytes) => sum(BASE_WEIGHT, bytes.bytes().len() as u64),
        Value::List(items) => {
            let values = items.values();
            sum(BASE_WEIGHT, values_count(values))
        }
        Value::Map(entries) => {
            let pairs = entries.pairs();
            sum(BASE_WEIGHT, pairs_count(pairs))
        }
    }
}

#[cycle(count)]
fn values_count(values: &[Value]) -> u64
    ensures { result ≡ counted (values_weight (trees (trees_of values.now))) }
{
    no_item_is_deeper();
    let mut total = 0;
    for value in values {
        total = sum(total, value_count(value));
    }
    total
}

#[cycle(count)]
fn pairs_count(members: &[(Text, Value)]) -> u64
    ensures { result ≡ counted (pairs_weight (pairs (entries members.now))) }
{
    no_pair_is_deeper();
    let mut total = 0;
    for (key, value) in members {
        let length = key.as_str().len() as u64;
        total = sum(total, sum(length, value_count(value)));
    }
    total
}
