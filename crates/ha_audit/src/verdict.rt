//! What the lines of a trace come to: the numbers of the world that they tell, or the first line that breaks it off.

ghost use Rattle.std.specs.Prelude.{◌≡◌, ◌∷◌, [], List, IfOk, OnOk, suc, length};
ghost use Rattle.hd_facts.specs.Unique.{IsTheOne};
ghost use Rattle.hd_trace.specs.declared.trace.TraceLine.{TraceLine};
ghost use Rattle.ha_audit.specs.declared.head.Head.{Head};
ghost use Rattle.ha_audit.specs.AuditVerdict.{ComesTo, IsAudited, Stands};
ghost use Rattle.ha_audit.specs.Grammar.{HasLine, IsHead};

use crate::auditor::Audit;
use crate::head::Head;
use crate::laws::traces_are_told_once;
use crate::reader::Reader;
use crate::trace::Trace;
use hd_trace::{Rule, TraceLine, Verdict, verdict_is_one};
use he_wire::has_wire;
use std::alloc::{AllocError, Global};

/// The line at which a trace breaks off, and the rule that it breaks.
#[derive(Clone, Copy, Debug, PartialEq, Eq)]
pub struct Break {
    pub(crate) line: u64,
    pub(crate) rule: Rule,
}

/// How far an audit has come: what is kept of the lines so far, or where they broke off.
#[derive(Drop)]
pub struct Progress {
    pub(crate) audit: Audit,
    pub(crate) broken: Option<Break>,
}

/// What the lines of a trace come to, as lines of two ends; it is the one such verdict. The lines of one end alone are judged beside another end
/// that does nothing. It takes time in proportion to the trace, but for looking up a link by its name, and memory in proportion to what the lines
/// say of messages and frames.
pub fn audit(alloc: Global, trace: &Trace) -> Result<Verdict, AllocError>
    ensures { IfOk result (IsTheOne (IsAudited trace.now)) }
{
    traces_are_told_once();
    verdict_is_one();
    has_wire();
    let mut progress = Progress::start(alloc, trace.head())?;
    let mut reader = Reader::start(alloc, trace);
    while let Some(line) = reader.next(alloc, trace)? {
        let number = reader.number();
        progress.step(alloc, number, line)?;
    }
    Ok(progress.verdict())
}

impl Progress {
    /// Before the first line after this head.
    fn start(alloc: Global, head: Head) -> Result<Progress, AllocError>
        ensures { IfOk result (λ progress. IsHead head → Stands head [] progress) }
    {
        Ok(Progress {
            audit: Audit::start(alloc, head)?,
            broken: None,
        })
    }

    /// Judges one line more, which has this number, unless the lines before it broke off.
    fn step(&mut self, alloc: Global, number: u64, line: TraceLine) -> Result<(), AllocError>
        requires { HasLine line.step }
        ensures { OnOk result ((head : Head) (lines : List TraceLine) → number ≡ suc (length (line ∷ lines)) →
            Stands head lines self.old → Stands head (line ∷ lines) self.new) }
    {
        if self.broken.is_some() {
            return Ok(());
        }
        if let Some(rule) = self.audit.step(alloc, line)? {
            self.broken = Some(Break { line: number, rule });
        }
        Ok(())
    }

    /// What the lines come to.
    fn verdict(&self) -> Verdict
        ensures { (head : Head) (lines : List TraceLine) → Stands head lines self.now → ComesTo head lines result }
    {
        match self.broken {
            Some(Break { line, rule }) => Verdict::Breaks { line, rule },
            None => self.audit.world(),
        }
    }
}
