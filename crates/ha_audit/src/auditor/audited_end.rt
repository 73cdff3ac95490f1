//! What is kept of one end, and the lines that ask nothing of the other one: it loses its link, time passes, its own side closes it.

ghost use Rattle.std.specs.Prelude.{◌≡◌, ℕ, [], IfNone, IfSome, None, true, false, slice_get, option_copied, length, if◌then◌else◌};
ghost use Rattle.hd_delivery.specs.declared.vocabulary.Reason.TheVariants.{Done};
ghost use Rattle.hd_delivery.specs.Histories.{Config};
ghost use Rattle.hd_trace.specs.declared.trace.Rule.TheVariants as rule;
ghost use Rattle.hd_trace.specs.Marks.{closed_for, left, marks_of, ticked};
ghost use Rattle.hd_trace.specs.ByMarks.{is_silence_by};
ghost use Rattle.ha_audit.specs.AuditState.{bytes_of, frames_of, has_link, said_on, size_of_first};

use super::said::{SaidFrame, SaidOnLink};
use super::sent::SentMessage;
use hd_delivery::Reason;
use hd_trace::{Marks, Rule};
use hm_message::Codec;
use std::alloc::Global;
use std::collections::BTreeMap;

/// What is kept of an end.
#[derive(Drop)]
pub struct AuditedEnd {
    pub(crate) marks: Marks,
    pub(crate) sent: Vec<SentMessage>,
    /// What it said on each link on which it ever stood.
    pub(crate) links: BTreeMap<u64, SaidOnLink>,
    /// The link that it began last.
    pub(crate) last: Option<u64>,
    /// How many bytes it was fed on its link.
    pub(crate) fed: usize,
    /// How many frames it dealt with on its link.
    pub(crate) taken: usize,
}

impl AuditedEnd {
    /// An end before its first step.
    pub(crate) fn start(alloc: Global, codec: Codec) -> AuditedEnd
        ensures marks { (c : Config) → c.codec ≡ codec → result.marks ≡ marks_of c [] }
        ensures sent { result.sent.items ≡ [] }
        ensures last { result.last ≡ None }
        ensures links { (l : ℕ) → said_on result.links l ≡ None }
    {
        AuditedEnd {
            marks: first_marks(codec),
            sent: Vec::new(alloc),
            links: BTreeMap::new(alloc),
            last: None,
            fed: 0,
            taken: 0,
        }
    }

    /// Whether it ever stood on the link.
    pub(crate) fn was_on(&self, link: u64) -> bool
        ensures { result ≡ has_link self.now.links link }
    {
        self.links.contains_key(&link)
    }

    /// What it said on the link.
    pub(crate) fn bytes_on(&self, link: u64) -> &[u8]
        ensures { result.now ≡ bytes_of (said_on self.now.links link) }
    {
        match self.links.get(&link) {
            Some(said) => said.bytes.as_slice(),
            None => &[],
        }
    }

    /// How many frames it said on the link.
    pub(crate) fn frame_count(&self, link: u64) -> usize
        ensures { result ≡ length (frames_of (said_on self.now.links link)) }
    {
        match self.links.get(&link) {
            Some(said) => said.frames.len(),
            None => 0,
        }
    }

    /// The frame of this place, from 0, that it said on the link.
    pub(crate) fn frame_on(&self, link: u64, place: usize) -> Option<SaidFrame>
        ensures { result ≡ slice_get (frames_of (said_on self.now.links link)) place }
    {
        match self.links.get(&link) {
            Some(said) => said.frames.get(place).copied(),
            None => None,
        }
    }

    /// How many bytes its first frames on the link have.
    pub(crate) fn size_of_first(&self, link: u64, count: usize) -> usize
        ensures { result ≡ size_of_first (frames_of (said_on self.now.links link)) count }
    {
        if count == 0 {
            return 0;
        }
        match self.frame_on(link, count - 1) {
            Some(said) => said.end,
            None => 0,
        }
    }

    /// It has lost its link: the rule that this breaks, if it breaks any.
    pub(crate) fn detach(&mut self, now: u64) -> Option<Rule>
        ensures ok { IfNone result ((self.old.marks.link ≡ None → ⊥) × (self.new ≡ record self.old { marks = left now self.old.marks })) }
        ensures broken { IfSome result (λ r. (r ≡ rule.Link) × (self.old.marks.link ≡ None)) }
    {
        if self.marks.link.is_none() {
            return Some(Rule::Link);
        }
        self.marks = self.marks.leave(now);
        None
    }

    /// A moment came.
    pub(crate) fn tick(&mut self, now: u64)
        ensures { self.new ≡ record self.old { marks = (if is_silence_by now self.old.marks then left now self.old.marks else ticked now self.old.marks) } }
    {
        self.marks = after_tick(self.marks, now);
    }

    /// Its own side closes it: the rule that this breaks, if it breaks any.
    pub(crate) fn close(&mut self) -> Option<Rule>
        ensures ok { IfNone result ((self.old.marks.closed ≡ false) × (self.new ≡ record self.old { marks = closed_for Done false self.old.marks })) }
        ensures broken { IfSome result (λ r. (r ≡ rule.State) × (self.old.marks.closed ≡ true)) }
    {
        if self.marks.closed {
            return Some(Rule::State);
        }
        self.marks = self.marks.close(Reason::Done, false);
        None
    }
}

/// The marks once a tick came.
fn after_tick(marks: Marks, now: u64) -> Marks
    ensures { result ≡ (if is_silence_by now marks then left now marks else ticked now marks) }
{
    if marks.is_silence(now) {
        return marks.leave(now);
    }
    marks.tick(now)
}

/// The marks of an end before its first step.
fn first_marks(codec: Codec) -> Marks
    ensures { (c : Config) → c.codec ≡ codec → result ≡ marks_of c [] }
{
    Marks {
        link: None,
        first: None,
        codec,
        shaken: false,
        resumable: false,
        three: false,
        closed: false,
        farewell: None,
        sent: 0,
        processed: 0,
        acked: 0,
        written: 0,
        furthest: 0,
        opened: false,
        said: None,
        reported: 0,
        parted: false,
        next: None,
        resumed: false,
        moment: 0,
        heard: None,
        wrote: 0,
        quiet: false,
    }
}
