//! The rows of the table: what each method makes of its arguments. A row has no answer for arguments that its method doesn't take.

ghost use Rattle.std.specs.Prelude.{◌≡◌, ◌==◌, ◌≢◌, ◌≤◌, ◌∷◌, [], length, option_map, IfOk, IfNone, IfSome};
ghost use Rattle.hv_value.specs.Tree.{depth};
ghost use Rattle.hv_value.specs.View.{tree};
ghost use Rattle.hm_message.specs.Fields.{text_in, whole_in};
ghost use Rattle.hm_message.specs.Message.{value_of};
ghost use Rattle.hub_calc.specs.Jobs.{plan, turns_in};
ghost use Rattle.hub_calc.specs.Table.{row as row_of};

use crate::job::{Remaining, State, sum_ending};
use crate::method::Method;
use hm_message::{Ending, values_are_trees};
use hv_value::{Items, Text, Value, Whole};
use std::alloc::{AllocError, Global};

/// The greatest number that `Count` and `Slow` take.
const MOST_TURNS: i128 = 1_000_000;

/// What a job of the method begins with, if it takes these arguments.
pub(crate) fn row(
    alloc: Global,
    method: Method,
    arguments: &Items,
) -> Result<Option<State>, AllocError>
    ensures { IfOk result (λ state. option_map plan state ≡ row_of method arguments.now) }
{
    match method {
        Method::Echo => echo(arguments),
        Method::Add => add(alloc, arguments),
        Method::Count => Ok(count(arguments)),
        Method::Sum => Ok(sum(arguments)),
        Method::Slow => slow(arguments),
        Method::Fail => fail(arguments),
        Method::Ask => ask(alloc, arguments),
    }
}

fn echo(arguments: &Items) -> Result<Option<State>, AllocError>
    ensures { IfOk result (λ state. option_map plan state ≡ row_of Method.Echo arguments.now) }
{
    let Some(value) = only(arguments) else {
        return Ok(None);
    };
    let value = copied(value)?;
    Ok(Some(State::Acts(Remaining::End(Ending::Result(value)))))
}

fn add(alloc: Global, arguments: &Items) -> Result<Option<State>, AllocError>
    ensures { IfOk result (λ state. option_map plan state ≡ row_of Method.Add arguments.now) }
{
    let Some((a, b)) = two(arguments) else {
        return Ok(None);
    };
    let Some(a) = whole(a) else {
        return Ok(None);
    };
    let Some(b) = whole(b) else {
        return Ok(None);
    };
    let ending = sum_ending(alloc, a, b)?;
    Ok(Some(State::Acts(Remaining::End(ending))))
}

fn count(arguments: &Items) -> Option<State>
    ensures { option_map plan result ≡ row_of Method.Count arguments.now }
{
    let Some(number) = only(arguments) else {
        return None;
    };
    let Some(last) = turns(number) else {
        return None;
    };
    Some(State::Acts(Remaining::Count { done: 0, last }))
}

fn sum(arguments: &Items) -> Option<State>
    ensures { option_map plan result ≡ row_of Method.Sum arguments.now }
{
    if !is_none(arguments) {
        return None;
    }
    Some(State::Sum(Whole::from(0_u64)))
}

fn slow(arguments: &Items) -> Result<Option<State>, AllocError>
    ensures { IfOk result (λ state. option_map plan state ≡ row_of Method.Slow arguments.now) }
{
    let Some((number, value)) = two(arguments) else {
        return Ok(None);
    };
    let Some(turns) = turns(number) else {
        return Ok(None);
    };
    let value = copied(value)?;
    Ok(Some(State::Acts(Remaining::Slow { turns, value })))
}

fn fail(arguments: &Items) -> Result<Option<State>, AllocError>
    ensures { IfOk result (λ state. option_map plan state ≡ row_of Method.Fail arguments.now) }
{
    let Some(value) = only(arguments) else {
        return Ok(None);
    };
    let Some(error) = text(value) else {
        return Ok(None);
    };
    let error = error.copy()?;
    Ok(Some(State::Acts(Remaining::End(Ending::Error(error)))))
}

fn ask(alloc: Global, arguments: &Items) -> Result<Option<State>, AllocError>
    ensures { IfOk result (λ state. option_map plan state ≡ row_of Method.Ask arguments.now) }
{
    let Some((target, value)) = two(arguments) else {
        return Ok(None);
    };
    let Some(target) = text(target) else {
        return Ok(None);
    };
    let target = target.copy()?;
    let arguments = alone(alloc, value)?;
    Ok(Some(State::Acts(Remaining::Ask { target, arguments })))
}

/// Whether there is no argument.
fn is_none(arguments: &Items) -> bool
    ensures { result ≡ (length arguments.now == 0) }
{
    arguments.values().is_empty()
}

/// The argument, if there is one alone.
pub(crate) fn only(arguments: &Items) -> Option<&Value>
    ensures none { IfNone result (length arguments.now ≢ 1) }
    ensures some { IfSome result (λ value. arguments.now ≡ tree value.now ∷ []) }
{
    let values = arguments.values();
    if values.len() != 1 {
        return None;
    }
    Some(&values[0])
}

/// The two arguments, if there are two.
fn two(arguments: &Items) -> Option<(&Value, &Value)>
    ensures none { IfNone result (length arguments.now ≢ 2) }
    ensures some { IfSome result (λ both. arguments.now ≡ tree both.0.now ∷ tree both.1.now ∷ []) }
    ensures shallow { IfSome result (λ both. depth (tree both.1.now) ≤ 63) }
{
    let values = arguments.values();
    if values.len() != 2 {
        return None;
    }
    Some((&values[0], &values[1]))
}

fn whole(value: &Value) -> Option<Whole>
    ensures { result ≡ whole_in (tree value.now) }
{
    match value {
        Value::Int(number) => Some(*number),
        _ => None,
    }
}

fn text(value: &Value) -> Option<&Text>
    ensures { option_map (λ text. text.now) result ≡ text_in (tree value.now) }
{
    match value {
        Value::Text(text) => Some(text),
        _ => None,
    }
}

/// A number of turns: from 0 to 1,000,000.
fn turns(value: &Value) -> Option<u32>
    ensures { result ≡ turns_in (tree value.now) }
{
    let Some(number) = whole(value) else {
        return None;
    };
    let number = number.get();
    if number < 0 || number > MOST_TURNS {
        return None;
    }
    Some(number as u32)
}

/// A copy of the value.
pub(crate) fn copied(value: &Value) -> Result<Value, AllocError>
    ensures { IfOk result (λ copy. copy ≡ value_of (tree value.now)) }
{
    values_are_trees();
    value.copy()
}

/// The list of this value alone.
fn alone(alloc: Global, value: &Value) -> Result<Items, AllocError>
    requires { depth (tree value.now) ≤ 63 }
    ensures { IfOk result (λ items. items ≡ tree value.now ∷ []) }
{
    let mut values = Vec::new(alloc);
    values.push(value.copy()?)?;
    let Ok(items) = Items::of(values) else {
        unreachable!()
    };
    Ok(items)
}
