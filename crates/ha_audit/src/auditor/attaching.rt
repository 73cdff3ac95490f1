//! Links that ends begin.

ghost use Rattle.std.specs.Prelude.{◌≡◌, ◌↔◌, ◌&&◌, ◌||◌, IsTrue, IfOk, OnOk, is_some, not};
ghost use Rattle.hd_delivery.specs.declared.vocabulary.Side.TheVariants.{Client, Server};
ghost use Rattle.hd_trace.specs.declared.trace.ToldStep.TheVariants as tells;
ghost use Rattle.hd_trace.specs.ByNumbers.{IsAbove};
ghost use Rattle.hd_trace.specs.Recording.{line_of};
ghost use Rattle.ha_audit.specs.AuditKeeps.{Judges};
ghost use Rattle.ha_audit.specs.AuditSteps.{Attaches, Opens};

use super::Audit;
use super::audited_end::AuditedEnd;
use super::said::SaidOnLink;
use hd_delivery::{unused_is_empty, unused_is_untouched};
use hd_trace::{Rule, attaches_by_numbers, marks_follow, told_is_world};
use std::alloc::{AllocError, Global};

impl Audit {
    pub(crate) fn attach_client(
        &mut self,
        alloc: Global,
        link: u64,
    ) -> Result<Option<Rule>, AllocError>
        ensures { IfOk result (Judges self.old self.new (line_of Client (tells.Attach link))) }
    {
        attaches_by_numbers();
        marks_follow();
        told_is_world();
        unused_is_empty();
        unused_is_untouched();
        if !self.client.may_begin() {
            return Ok(Some(Rule::Link));
        }
        if !self.client.is_past_last(link) {
            return Ok(Some(Rule::Link));
        }
        self.client.attach(alloc, link, self.clock)?;
        Ok(None)
    }

    pub(crate) fn attach_server(
        &mut self,
        alloc: Global,
        link: u64,
    ) -> Result<Option<Rule>, AllocError>
        ensures { IfOk result (Judges self.old self.new (line_of Server (tells.Attach link))) }
    {
        attaches_by_numbers();
        marks_follow();
        told_is_world();
        unused_is_empty();
        unused_is_untouched();
        if !self.server.may_begin() {
            return Ok(Some(Rule::Link));
        }
        if self.server.was_on(link) {
            return Ok(Some(Rule::Link));
        }
        if !self.client.was_on(link) {
            return Ok(Some(Rule::Link));
        }
        self.server.attach(alloc, link, self.clock)?;
        Ok(None)
    }
}

impl AuditedEnd {
    /// Whether it can begin a link.
    pub(crate) fn may_begin(&self) -> bool
        ensures { result ≡ (not self.now.marks.closed && (not (is_some self.now.marks.first) || self.now.marks.resumable)) }
    {
        if self.marks.closed {
            return false;
        }
        self.marks.first.is_none() || self.marks.resumable
    }

    /// Whether the name is above that of the link which it began last.
    pub(crate) fn is_past_last(&self, link: u64) -> bool
        ensures { IsTrue result ↔ IsAbove self.now.last link }
    {
        match self.last {
            None => true,
            Some(last) => last < link,
        }
    }

    /// It stands on the new link.
    pub(crate) fn attach(&mut self, alloc: Global, link: u64, now: u64) -> Result<(), AllocError>
        ensures { OnOk result (Attaches self.old self.new link now) }
    {
        self.open(alloc, link)?;
        self.marks = self.marks.attach(link, now);
        self.last = Some(link);
        self.fed = 0;
        self.taken = 0;
        Ok(())
    }

    /// From now on what it says on the link is kept.
    fn open(&mut self, alloc: Global, link: u64) -> Result<(), AllocError>
        ensures links { OnOk result (Opens self.old.links self.new.links link) }
        ensures rest { OnOk result (self.new ≡ record self.old { links = self.new.links }) }
    {
        let said = SaidOnLink {
            bytes: Vec::new(alloc),
            frames: Vec::new(alloc),
        };
        match self.links.insert(link, said) {
            Ok(_) => Ok(()),
            Err(_) => Err(AllocError),
        }
    }
}
