//! The actions of a soak's script.

ghost use Rattle.std.specs.Prelude.{◌≡◌, ◌%◌, ℕ, List, [], ◌∷◌, map, pos, IfOk};
ghost use Rattle.hv_value.specs.Tree.{int};
ghost use Rattle.hd_delivery.specs.declared.vocabulary.Side.TheVariants.{Client};
ghost use Rattle.sr_script.specs.declared.action.Action.TheVariants as action;
ghost use Rattle.sr_soak.specs.Recipe.{asking, drawn_actions, new_link};
ghost use Rattle.sr_soak.specs.Steps.{actions_of};

use hd_calls::CallKind;
use hd_delivery::Side;
use hv_value::{Items, Text, Value, Whole};
use sr_script::{Action, Asking, Count};
use std::alloc::{AllocError, Global};

/// How many kinds of steps there are.
const KINDS: u64 = 12;

/// The most links that are opened before the last one.
const MOST_LINKS: u64 = 1_000;

/// One or two actions, the second after the first.
#[derive(Drop)]
pub(crate) struct Step {
    pub(crate) first: Action,
    pub(crate) second: Option<Action>,
}

impl Step {
    fn one(action: Action) -> Step
        ensures { actions_of result ≡ action ∷ [] }
    {
        Step {
            first: action,
            second: None,
        }
    }

    fn two(first: Action, second: Action) -> Step
        ensures { actions_of result ≡ second ∷ first ∷ [] }
    {
        Step {
            first,
            second: Some(second),
        }
    }
}

/// Whole numbers, as arguments.
fn whole_numbers(alloc: Global, numbers: &[u64]) -> Result<Items, AllocError>
    ensures { IfOk result (λ items. items ≡ map (λ n. int (pos n)) numbers.now) }
{
    let mut values = Vec::new(alloc);
    for number in numbers {
        values.push(Value::Int(Whole::from(*number)))?;
    }
    match Items::of(values) {
        Ok(items) => Ok(items),
        // Numbers don't nest.
        Err(_) => unreachable!(),
    }
}

/// A call without uploads of whole numbers.
fn call(alloc: Global, kind: CallKind, target: &str, numbers: &[u64]) -> Result<Asking, AllocError>
    ensures { IfOk result (λ a. a ≡ asking kind target.now numbers.now) }
{
    Ok(Asking {
        kind,
        uploads: 0,
        target: Text::of(alloc, target)?,
        arguments: whole_numbers(alloc, numbers)?,
    })
}

/// A call by the client.
fn client_calls(
    alloc: Global,
    kind: CallKind,
    target: &str,
    numbers: &[u64],
) -> Result<Step, AllocError>
    ensures { IfOk result (λ step. actions_of step ≡ action.Call Client (asking kind target.now numbers.now) ∷ []) }
{
    let asking = call(alloc, kind, target, numbers)?;
    Ok(Step::one(Action::Call(Side::Client, asking)))
}

/// A new link, which the server accepts, where so many are there.
pub(crate) fn new_link(links: u64) -> Step
    ensures { actions_of result ≡ new_link links }
{
    Step::two(Action::Open, Action::Accept(links))
}

/// What two numbers that were drawn make, where so many links are there: the first says what is done, the second how.
pub(crate) fn drawn_step(alloc: Global, kind: u64, d: u64, links: u64) -> Result<Step, AllocError>
    ensures { IfOk result (λ step. actions_of step ≡ drawn_actions (kind % 12) d links) }
{
    match kind % KINDS {
        0 => client_calls(alloc, CallKind::Call, "Echo", &[d % 1_000]),
        1 => client_calls(alloc, CallKind::Stream, "Count", &[d % 5]),
        2 => client_calls(alloc, CallKind::Call, "Slow", &[d % 7, d % 1_000]),
        3 => client_calls(alloc, CallKind::Notify, "Echo", &[d % 1_000]),
        4 => Ok(Step::one(Action::Cancel(Side::Client, 1 + d % 1_000))),
        5 => {
            let asking = call(alloc, CallKind::Call, "Confirm", &[d % 1_000])?;
            Ok(Step::one(Action::Call(Side::Server, asking)))
        }
        6 => Ok(Step::one(Action::Write(Side::Client, Count::UpTo(1 + d % 16)))),
        7 => Ok(Step::one(Action::Write(Side::Server, Count::UpTo(1 + d % 16)))),
        8 => Ok(Step::one(Action::Read(Side::Client, Count::UpTo(1 + d % 1_024)))),
        9 => Ok(Step::one(Action::Read(Side::Server, Count::UpTo(1 + d % 1_024)))),
        10 => Ok(Step::two(Action::Round(Side::Server), Action::Round(Side::Client))),
        _ if d % 8 == 0 && links < MOST_LINKS => Ok(new_link(links)),
        _ => Ok(Step::one(Action::Round(Side::Server))),
    }
}
