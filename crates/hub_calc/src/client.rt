//! What a client answers when its server calls it.

ghost use Rattle.std.specs.Prelude.{◌≡◌, false, option_map, IfOk};
ghost use Rattle.hub_calc.specs.Client.{confirm, ending_of};
ghost use Rattle.hub_calc.specs.Refusals.{refusal_text, tested};

use crate::refusal::{Refusal, wrong_kind};
use crate::rows::{copied, only};
use hd_calls::{Act, Call, Input};
use hj_jobs::Hub;
use hm_message::Ending;
use hv_value::Text;
use std::alloc::{AllocError, Global};
use std::mem;

/// The hub of a client. `Confirm` gives its argument back. Every other target ends with no result, whatever the kind of the call, its
/// arguments and its uploads are, so that a server may call what this client doesn't know.
#[derive(Clone, Copy, Debug, PartialEq, Eq)]
pub struct ClientHub;

impl Hub for ClientHub {
    ghost use Rattle.hub_calc.specs.Client.{client_begin, client_step};

    /// How the call ends.
    type Job = Ending;

    ghost begin_of = { client_begin };

    ghost step_of = { client_step };

    fn begin(&self, alloc: Global, call: &Call, _now: u64) -> Result<Ending, AllocError> {
        if call.target.as_str() != "Confirm" {
            return Ok(Ending::Void);
        }
        confirmed(alloc, call)
    }

    fn step(
        &self,
        _alloc: Global,
        job: &mut Ending,
        _input: &Input,
        _now: u64,
    ) -> Result<Act, AllocError> {
        Ok(Act::End(mem::replace(job, Ending::Void)))
    }
}

/// How a call of `Confirm` ends.
fn confirmed(alloc: Global, call: &Call) -> Result<Ending, AllocError>
    ensures { IfOk result (λ ending. ending ≡ ending_of (tested false 0 call.now (confirm call.now.arguments))) }
{
    if let Some(refusal) = wrong_kind(false, call.kind) {
        return refused(alloc, refusal);
    }
    if !call.streams.texts().is_empty() {
        return refused(alloc, Refusal::WrongArguments);
    }
    let Some(value) = only(&call.arguments) else {
        return refused(alloc, Refusal::WrongArguments);
    };
    let value = copied(value)?;
    Ok(Ending::Result(value))
}

/// The ending with the refusal's text.
fn refused(alloc: Global, refusal: Refusal) -> Result<Ending, AllocError>
    ensures { IfOk result (λ ending. ending ≡ Ending.Error (refusal_text refusal)) }
{
    Ok(Ending::Error(Text::of(alloc, refusal.text())?))
}
