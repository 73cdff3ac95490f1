//! The auditor of one end alone: what the lines of one end come to, whatever is on the other side of its links. The bytes that the end was fed are
//! read here, since nothing else tells what its frames were.

ghost use Rattle.std.specs.Prelude.{◌≡◌, ◌∷◌, [], List, IfOk, OnOk, Some, suc, length};
ghost use Rattle.hd_facts.specs.Unique.{IsTheOne};
ghost use Rattle.hd_delivery.specs.declared.vocabulary.Side.{Side};
ghost use Rattle.hd_trace.specs.declared.trace.TraceLine.{TraceLine};
ghost use Rattle.hd_trace.specs.Traces.{steps_of};
ghost use Rattle.ha_audit.specs.AloneVerdict.{ComesToAlone, IsAuditedAlone, StandsAlone};
ghost use Rattle.ha_audit.specs.Grammar.{HasLine, IsHead};

mod auditor;
mod feeding;
mod laws;
mod lending;
mod links;
mod taking;

use crate::head::Head;
use crate::laws::traces_are_told_once;
use crate::reader::Reader;
use crate::trace::Trace;
use crate::verdict::Break;
use auditor::AuditAlone;
use hd_delivery::Side;
use hd_trace::{TraceLine, VerdictAlone, verdict_alone_is_one};
use he_wire::has_wire;
use std::alloc::{AllocError, Global};

/// How far an audit has come: what is kept of the lines so far, or where they broke off.
#[derive(Drop)]
pub(crate) struct ProgressAlone {
    pub(crate) audit: AuditAlone,
    pub(crate) broken: Option<Break>,
}

/// What a trace of the lines of this end alone comes to; it is the one such verdict.
pub fn audit_alone(alloc: Global, side: Side, trace: &Trace) -> Result<VerdictAlone, AllocError>
    requires { trace.now.only ≡ Some side }
    ensures { IfOk result (IsTheOne (IsAuditedAlone side trace.now)) }
{
    traces_are_told_once();
    verdict_alone_is_one();
    has_wire();
    let mut progress = ProgressAlone::start(alloc, trace.head(), side)?;
    let mut reader = Reader::start(alloc, trace);
    while let Some(line) = reader.next(alloc, trace)? {
        progress.step(alloc, reader.number(), line)?;
    }
    Ok(progress.verdict())
}

impl ProgressAlone {
    /// Before the first line after this head.
    fn start(alloc: Global, head: Head, side: Side) -> Result<ProgressAlone, AllocError>
        ensures { IfOk result (λ progress. IsHead head → StandsAlone head side [] progress) }
    {
        Ok(ProgressAlone {
            audit: AuditAlone::start(alloc, head, side)?,
            broken: None,
        })
    }

    /// Judges one line more, which has this number, unless the lines before it broke off.
    fn step(&mut self, alloc: Global, number: u64, line: TraceLine) -> Result<(), AllocError>
        requires { HasLine line.step }
        ensures { OnOk result ((head : Head) (side : Side) (lines : List TraceLine) → number ≡ suc (length (line ∷ lines)) →
            StandsAlone head side (steps_of lines) self.old → StandsAlone head side (steps_of (line ∷ lines)) self.new) }
    {
        if self.broken.is_some() {
            return Ok(());
        }
        if let Some(rule) = self.audit.step(alloc, line.step)? {
            self.broken = Some(Break { line: number, rule });
        }
        Ok(())
    }

    /// What the lines come to.
    fn verdict(&self) -> VerdictAlone
        ensures { (head : Head) (side : Side) (lines : List TraceLine) → StandsAlone head side (steps_of lines) self.now →
            ComesToAlone head side (steps_of lines) result }
    {
        match self.broken {
            Some(Break { line, rule }) => VerdictAlone::Breaks { line, rule },
            None => VerdictAlone::History(self.audit.counts()),
        }
    }
}
