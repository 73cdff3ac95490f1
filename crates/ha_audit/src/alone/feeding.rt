//! Bytes that an end alone is fed, whatever they are: no more than it may have unread.

ghost use Rattle.std.specs.Prelude.{◌↔◌, IsTrue};
ghost use Rattle.hd_trace.specs.declared.trace.ToldStep.TheVariants as tells;
ghost use Rattle.ha_audit.specs.AloneKeeps.{JudgesAlone};
ghost use Rattle.ha_audit.specs.AloneSteps.{HasRoomForBytes};

use super::auditor::AuditAlone;
use super::laws::kept_alone_is_known;
use hd_delivery::{MOST_FRAMING, unread_grows};
use hd_trace::{Rule, marks_follow};
use hf_split::one_beginning;

impl AuditAlone {
    pub(crate) fn feed(&mut self, piece: &[u8]) -> Option<Rule>
        ensures { JudgesAlone self.old self.new (tells.Feed piece.now) result }
    {
        kept_alone_is_known();
        marks_follow();
        one_beginning();
        unread_grows();
        let Some(_) = self.end.marks.link else {
            return Some(Rule::Link);
        };
        if self.end.marks.closed {
            return Some(Rule::State);
        }
        if !self.has_room_for(piece.len()) {
            return Some(Rule::Bytes);
        }
        let count = self.splitter.feed(piece);
        self.over = self.over.saturating_add(piece.len() - count);
        self.end.marks = self.end.marks.hear();
        None
    }

    /// Whether it may have so many bytes more unread.
    fn has_room_for(&self, count: usize) -> bool
        ensures { IsTrue result ↔ HasRoomForBytes self.now count }
    {
        let most = self.head.limits.frame() + MOST_FRAMING;
        let unread = self.splitter.held().saturating_add(self.over);
        unread <= most && count <= most - unread
    }
}
