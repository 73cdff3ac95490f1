//! The hub of calculations.

ghost use Rattle.std.specs.Prelude.{◌≡◌, IfOk};
ghost use Rattle.hub_calc.specs.Jobs.{plan};
ghost use Rattle.hub_calc.specs.Methods.{methods, named};
ghost use Rattle.hub_calc.specs.Refusals.{refusal_text};
ghost use Rattle.hub_calc.specs.Table.{ends, of_method, plan_of};

use crate::job::{CalcJob, Remaining, State};
use crate::method::Method;
use crate::refusal::{Refusal, wrong_kind};
use crate::rows::row;
use hd_calls::{Act, Call, Input};
use hj_jobs::Hub;
use hm_message::Ending;
use hv_value::Text;
use std::alloc::{AllocError, Global};

/// The hub of calculations: the methods `Echo`, `Add`, `Count`, `Sum`, `Slow`, `Fail` and `Ask`. It keeps nothing between calls.
#[derive(Clone, Copy, Debug, PartialEq, Eq)]
pub struct CalcHub;

impl Hub for CalcHub {
    ghost use Rattle.hub_calc.specs.Table.{calc_begin, calc_step};

    type Job = CalcJob;

    ghost begin_of = { calc_begin };

    ghost step_of = { calc_step };

    fn begin(&self, alloc: Global, call: &Call, _now: u64) -> Result<CalcJob, AllocError> {
        let method = Method::of_target(call.target.as_str());
        let state = begun(alloc, method, call)?;
        Ok(CalcJob::of(state))
    }

    fn step(
        &self,
        alloc: Global,
        job: &mut CalcJob,
        input: &Input,
        _now: u64,
    ) -> Result<Act, AllocError> {
        job.turn(alloc, input)
    }
}

/// What the job of a call of this method begins with.
fn begun(alloc: Global, method: Option<Method>, call: &Call) -> Result<State, AllocError>
    ensures { IfOk result (λ state. plan state ≡ plan_of (of_method method call.now)) }
{
    let Some(method) = method else {
        return refused(alloc, Refusal::UnknownMethod);
    };
    if let Some(refusal) = wrong_kind(method.is_stream(), call.kind) {
        return refused(alloc, refusal);
    }
    if call.streams.texts().len() != method.uploads() {
        return refused(alloc, Refusal::WrongArguments);
    }
    let Some(state) = row(alloc, method, &call.arguments)? else {
        return refused(alloc, Refusal::WrongArguments);
    };
    Ok(state)
}

/// A job that ends with the refusal's text.
fn refused(alloc: Global, refusal: Refusal) -> Result<State, AllocError>
    ensures { IfOk result (λ state. plan state ≡ ends (Ending.Error (refusal_text refusal))) }
{
    let error = Text::of(alloc, refusal.text())?;
    Ok(State::Acts(Remaining::End(Ending::Error(error))))
}
