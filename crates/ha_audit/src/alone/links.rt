//! Links that an end alone begins.

ghost use Rattle.std.specs.Prelude.{◌≡◌, ◌↔◌, IsTrue, IfOk};
ghost use Rattle.hd_trace.specs.declared.trace.ToldStep.TheVariants as tells;
ghost use Rattle.ha_audit.specs.AloneKeeps.{JudgesAlone};
ghost use Rattle.ha_audit.specs.AloneState.{framing_by};
ghost use Rattle.ha_audit.specs.AloneSteps.{IsNewName};

use super::auditor::AuditAlone;
use hd_delivery::{Side, unread_begins};
use hd_trace::{Rule, attaches_alone_by_numbers, marks_follow, told_is_history};
use hf_split::Framing;
use hm_codec::framing;
use std::alloc::{AllocError, Global};

impl AuditAlone {
    pub(crate) fn attach(&mut self, alloc: Global, link: u64) -> Result<Option<Rule>, AllocError>
        ensures { IfOk result (JudgesAlone self.old self.new (tells.Attach link)) }
    {
        attaches_alone_by_numbers();
        marks_follow();
        told_is_history();
        unread_begins();
        if !self.end.may_begin() {
            return Ok(Some(Rule::Link));
        }
        if !self.is_new(link) {
            return Ok(Some(Rule::Link));
        }
        self.end.attach(alloc, link, self.clock)?;
        let framing = self.framing();
        self.splitter.reset(framing);
        self.over = 0;
        Ok(None)
    }

    /// Whether it may give a link this name.
    fn is_new(&self, link: u64) -> bool
        ensures { IsTrue result ↔ IsNewName self.now.side self.now.end link }
    {
        match self.side {
            Side::Client => self.end.is_past_last(link),
            Side::Server => !self.end.was_on(link),
        }
    }

    /// The framing in which it reads.
    pub(crate) fn framing(&self) -> Framing
        ensures { result ≡ framing_by self.now.end.marks }
    {
        if self.end.marks.shaken {
            return framing(self.end.marks.codec);
        }
        Framing::Record
    }
}
