//! A reader that goes over the lines of a trace after its first. It keeps nothing of the text.

ghost use Rattle.std.specs.Prelude.{◌≡◌, ◌<◌, ◌≤◌, ◌↔◌, ℕ, [], ◌∷◌, List, Option, Some, None, true, false, IsTrue, IsSome, IfOk, IfErr, IfSome, IfNone, length, suc};
ghost use Rattle.hd_delivery.specs.declared.vocabulary.Side.{Side};
ghost use Rattle.hd_trace.specs.declared.trace.TraceLine.{TraceLine};
ghost use Rattle.ha_audit.specs.declared.head.Head.{Head};
ghost use Rattle.ha_audit.specs.Grammar.{IsOf, IsTrace};
ghost use Rattle.ha_audit.specs.Reading.{HasLines, HasPassed, HasRead, RefusesText};

use crate::error::TraceError;
use crate::laws::lines_are_lines;
use crate::line::{parse_line, split_line};
use crate::trace::{MOST_TRACE, Trace};
use hd_delivery::Side;
use hd_trace::TraceLine;
use json::Scratch;
use std::alloc::{AllocError, Global};

/// Where in a trace the next line begins. The trace is handed in at each call, and is the same at each.
#[derive(Drop)]
pub struct Reader {
    at: usize,
    // how many lines were passed, the first of the trace among them
    number: u64,
    scratch: Scratch,
}

/// Whether a line of this side may stand where only lines of that one may, if one is named.
fn is_of(only: Option<Side>, side: Side) -> bool
    ensures { IsTrue result ↔ IsOf only side }
{
    match only {
        None => true,
        Some(only) => side == only,
    }
}

impl Reader {
    /// Before the second line of this trace.
    pub fn start(alloc: Global, trace: &Trace) -> Reader
        ensures { HasRead result trace.now [] }
    {
        Reader::after(alloc, trace.body())
    }

    /// After the first line of a text, which ends at this place.
    pub(crate) fn after(alloc: Global, place: usize) -> Reader
        ensures { (result.at ≡ place) × (result.number ≡ 1) }
    {
        Reader {
            at: place,
            number: 1,
            scratch: Scratch::new(alloc),
        }
    }

    /// The number of the line that was given last, counted from 1; at the start that of the first line, which is never given.
    pub fn number(&self) -> u64
        ensures place { result ≡ self.now.number }
        ensures lines { (only : Option Side) (text : List ℕ) (head : Head) (lines : List TraceLine) →
            HasPassed only self.now text head lines → result ≡ suc (length lines) }
    {
        self.number
    }

    /// The next line of a trace, or `None` after the last.
    pub fn next(&mut self, alloc: Global, trace: &Trace) -> Result<Option<TraceLine>, AllocError>
        requires { (lines : List TraceLine) × HasRead self.old trace.now lines }
        ensures next { IfOk result (λ r. IfSome r (λ told. (lines : List TraceLine) → HasRead self.old trace.now lines →
            HasRead self.new trace.now (told ∷ lines))) }
        ensures end { IfOk result (λ r. IfNone r ((lines : List TraceLine) → HasRead self.old trace.now lines → HasLines trace.now lines)) }
        ensures moves { IfOk result (λ r. IsSome r → (self.old.at < self.new.at) × (self.new.at ≤ length trace.now.text)) }
    {
        match self.advance(alloc, trace.text(), trace.only()) {
            Ok(told) => Ok(told),
            Err(TraceError::NoMemory) => Err(AllocError),
            Err(TraceError::Line(_)) => unreachable!(),
        }
    }

    /// The next line of a text, or `None` after the last. After an error nothing is known of the reader.
    fn advance(
        &mut self,
        alloc: Global,
        text: &[u8],
        only: Option<Side>,
    ) -> Result<Option<TraceLine>, TraceError>
        requires { (head : Head) × ((lines : List TraceLine) × HasPassed only self.old text.now head lines) }
        ensures next { IfOk result (λ r. IfSome r (λ told. (head : Head) (lines : List TraceLine) →
            HasPassed only self.old text.now head lines → HasPassed only self.new text.now head (told ∷ lines))) }
        ensures end { IfOk result (λ r. IfNone r ((head : Head) (lines : List TraceLine) →
            HasPassed only self.old text.now head lines → IsTrace only text.now head lines)) }
        ensures refused { IfErr result (λ e. RefusesText only e text.now) }
        ensures moves { IfOk result (λ r. IsSome r → (self.old.at < self.new.at) × (self.new.at ≤ length text.now)) }
    {
        lines_are_lines();
        if self.at == text.len() {
            return Ok(None);
        }
        let Some((line, _rest)) = split_line(&text[self.at..]) else {
            return Err(TraceError::Line(self.number + 1));
        };
        let after = self.at + line.len() + 1;
        if after > MOST_TRACE {
            return Err(TraceError::Line(self.number + 1));
        }
        let Some(told) = parse_line(alloc, &mut self.scratch, line)? else {
            return Err(TraceError::Line(self.number + 1));
        };
        if !is_of(only, told.side) {
            return Err(TraceError::Line(self.number + 1));
        }
        self.at = after;
        self.number += 1;
        Ok(Some(told))
    }

    /// Whether a line of the text was left. It is passed.
    pub(crate) fn pass(
        &mut self,
        alloc: Global,
        text: &[u8],
        only: Option<Side>,
    ) -> Result<bool, TraceError>
        requires { (head : Head) × ((lines : List TraceLine) × HasPassed only self.old text.now head lines) }
        ensures more { IfOk result (λ more. IsTrue more → (head : Head) (lines : List TraceLine) →
            HasPassed only self.old text.now head lines → (others : List TraceLine) × HasPassed only self.new text.now head others) }
        ensures end { IfOk result (λ more. more ≡ false → (head : Head) (lines : List TraceLine) →
            HasPassed only self.old text.now head lines → IsTrace only text.now head lines) }
        ensures refused { IfErr result (λ e. RefusesText only e text.now) }
        ensures moves { IfOk result (λ more. IsTrue more → (self.old.at < self.new.at) × (self.new.at ≤ length text.now)) }
    {
        match self.advance(alloc, text, only)? {
            Some(told) => {
                drop(told);
                Ok(true)
            }
            None => Ok(false),
        }
    }
}
