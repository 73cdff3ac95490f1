//! A job of the calculator: what is left for it to do.

ghost use Rattle.std.specs.Prelude.{◌≡◌, ◌+ℤ◌, [], IfOk, OnErr, if◌then◌else◌};
ghost use Rattle.hub_calc.specs.Jobs.{acts_left, plan};
ghost use Rattle.hub_calc.specs.Table.{Acts as ActsMeant, Sums, add_item, end_sum, is_whole, sum_ending as sum_ending_of, turn as turn_of};

use crate::refusal::Refusal;
use hd_calls::{Act, Input};
use hm_message::Ending;
use hv_value::{Items, Text, Value, Whole};
use std::alloc::{AllocError, Global};
use std::marker::Model;
use std::mem;

/// The error of a sum that no value can hold.
const OUT_OF_RANGE: &str = "Out of range.";

/// What a call is to do, turn by turn. A contract sees the acts that it has left, or the sum of what was uploaded.
#[derive(Drop)]
pub struct CalcJob {
    state: State,
}

/// What a job waits for.
#[derive(Drop)]
pub(crate) enum State {
    /// For its turns alone.
    Acts(Remaining),
    /// For numbers to add to this sum.
    Sum(Whole),
}

/// The acts that a job has left.
#[derive(Drop)]
pub(crate) enum Remaining {
    /// None. If the last was to ask, the job ends as the call did for which it asked.
    Nothing,
    /// The ending.
    End(Ending),
    /// The items after `done`, to `last`, and the ending.
    Count { done: u32, last: u32 },
    /// Turns without a result, and then the ending with it.
    Slow { turns: u32, value: Value },
    /// To ask for this call.
    Ask { target: Text, arguments: Items },
}

impl Model for CalcJob {
    ghost use Rattle.hub_calc.specs.Table.{Plan};

    ghost Value = { Plan };

    ghost use Rattle.std.specs.Coded.{codes};
    ghost use Rattle.hv_value.specs.Stored.{tree_code};

    ghost coded = { Prim.hlevel (codes, tree_code) };

    ghost use Rattle.hub_calc.specs.Jobs.{plan};

    ghost view = { λ job. plan job.state };
}

impl CalcJob {
    /// The job that is to do this.
    pub(crate) fn of(state: State) -> CalcJob
        ensures { result ≡ plan state }
    {
        CalcJob { state }
    }

    /// Its turn. Out of memory it is as before.
    pub(crate) fn turn(&mut self, alloc: Global, input: &Input) -> Result<Act, AllocError>
        ensures stepped { IfOk result (λ act. (self.new, act) ≡ turn_of self.old input.now) }
        ensures unchanged { OnErr result (self.new ≡ self.old) }
    {
        self.state.turn(alloc, input)
    }
}

impl State {
    fn turn(&mut self, alloc: Global, input: &Input) -> Result<Act, AllocError>
        ensures stepped { IfOk result (λ act. (plan self.new, act) ≡ turn_of (plan self.old) input.now) }
        ensures unchanged { OnErr result (self.new ≡ self.old) }
    {
        match self {
            State::Acts(left) => left.turn(input),
            State::Sum(sum) => {
                let (state, act) = summed(alloc, *sum, input)?;
                *self = state;
                Ok(act)
            }
        }
    }
}

impl Remaining {
    /// The next act. It takes memory only if nothing is left.
    fn turn(&mut self, input: &Input) -> Result<Act, AllocError>
        ensures stepped { IfOk result (λ act. (ActsMeant (acts_left self.new), act) ≡ turn_of (ActsMeant (acts_left self.old)) input.now) }
        ensures unchanged { OnErr result (self.new ≡ self.old) }
    {
        match mem::replace(self, Remaining::Nothing) {
            Remaining::Nothing => Ok(Act::End(ending_asked(input)?)),
            Remaining::End(ending) => Ok(Act::End(ending)),
            Remaining::Count { done, last } => {
                if done >= last {
                    return Ok(Act::End(Ending::Void));
                }
                let next = done + 1;
                *self = Remaining::Count { done: next, last };
                Ok(Act::Item(Value::Int(Whole::from(u64::from(next)))))
            }
            Remaining::Slow { turns, value } => {
                if turns == 0 {
                    return Ok(Act::End(Ending::Result(value)));
                }
                *self = Remaining::Slow {
                    turns: turns - 1,
                    value,
                };
                Ok(Act::More)
            }
            Remaining::Ask { target, arguments } => Ok(Act::Ask { target, arguments }),
        }
    }
}

/// How a job ends that has no act left: as the call for which it asked, if it is told how that ended.
fn ending_asked(input: &Input) -> Result<Ending, AllocError>
    ensures { IfOk result (λ ending. turn_of (ActsMeant []) input.now ≡ (ActsMeant [], Act.End ending)) }
{
    match input {
        Input::Asked(ending) => ending.copy(),
        _ => Ok(Ending::Void),
    }
}

/// What a job that adds does when it is given this.
fn summed(alloc: Global, sum: Whole, input: &Input) -> Result<(State, Act), AllocError>
    ensures { IfOk result (λ done. (plan done.0, done.1) ≡ turn_of (Sums sum) input.now) }
{
    match input {
        Input::Item { value, .. } => item_added(alloc, sum, value),
        Input::StreamEnd { error, .. } => Ok(ended(sum_ended(sum, error)?)),
        _ => Ok((State::Sum(sum), Act::Wait)),
    }
}

fn item_added(alloc: Global, sum: Whole, value: &Value) -> Result<(State, Act), AllocError>
    ensures { IfOk result (λ done. (plan done.0, done.1) ≡ add_item sum value.now) }
{
    let Value::Int(item) = value else {
        return Ok(ended(Ending::Error(Text::of(alloc, Refusal::WrongArguments.text())?)));
    };
    match sum_of(sum, *item) {
        Some(sum) => Ok((State::Sum(sum), Act::Wait)),
        None => Ok(ended(Ending::Error(Text::of(alloc, OUT_OF_RANGE)?))),
    }
}

/// How a sum ends whose upload has ended.
fn sum_ended(sum: Whole, error: &Option<Text>) -> Result<Ending, AllocError>
    ensures { IfOk result (λ ending. ending ≡ end_sum sum error.now) }
{
    match error {
        Some(text) => Ok(Ending::Error(text.copy()?)),
        None => Ok(Ending::Result(Value::Int(sum))),
    }
}

/// A job that ended, with its ending.
fn ended(ending: Ending) -> (State, Act)
    ensures over { plan result.0 ≡ ActsMeant [] }
    ensures act { result.1 ≡ Act.End ending }
{
    (State::Acts(Remaining::Nothing), Act::End(ending))
}

/// The sum, if a value can hold it.
fn sum_of(a: Whole, b: Whole) -> Option<Whole>
    ensures { result ≡ (if is_whole (a +ℤ b) then Some (a +ℤ b) else None) }
{
    Whole::of(a.get() + b.get())
}

/// The ending with a sum, or with an error if no value can hold it.
pub(crate) fn sum_ending(alloc: Global, a: Whole, b: Whole) -> Result<Ending, AllocError>
    ensures { IfOk result (λ ending. ending ≡ sum_ending_of (a +ℤ b)) }
{
    match sum_of(a, b) {
        Some(sum) => Ok(Ending::Result(Value::Int(sum))),
        None => Ok(Ending::Error(Text::of(alloc, OUT_OF_RANGE)?)),
    }
}
