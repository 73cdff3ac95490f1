//! Bytes that an end is fed: they are the next that the other end said on the link.

ghost use Rattle.std.specs.Prelude.{◌≡◌, ◌↔◌, ◌<◌, ◌+◌, ◌^◌, IsTrue, drop, length};
ghost use Rattle.ha_audit.specs.AuditSteps.{FeedsSo, IsNextOf};

use super::audited_end::AuditedEnd;
use hd_trace::Rule;

impl AuditedEnd {
    /// It is fed a piece, beside what is kept of the other end: the rule that this breaks, if it breaks any. It may have `most` bytes unread.
    pub(crate) fn feed(&mut self, other: &AuditedEnd, most: usize, piece: &[u8]) -> Option<Rule>
        ensures { FeedsSo self.old self.new other.now most piece.now result }
    {
        let Some(link) = self.marks.link else {
            return Some(Rule::Link);
        };
        if self.marks.closed {
            return Some(Rule::State);
        }
        if !self.is_next(other, link, most, piece) {
            return Some(Rule::Bytes);
        }
        self.fed = self.fed.saturating_add(piece.len());
        self.marks = self.marks.hear();
        None
    }

    /// Whether the piece may be fed next.
    fn is_next(&self, other: &AuditedEnd, link: u64, most: usize, piece: &[u8]) -> bool
        ensures next { IsTrue result ↔ IsNextOf self.now other.now link most piece.now }
        ensures fits { IsTrue result → self.now.fed + length piece.now < 2 ^ 64 }
    {
        let unread = self
            .fed
            .saturating_sub(other.size_of_first(link, self.taken));
        if unread > most {
            return false;
        }
        if piece.len() > most - unread {
            return false;
        }
        rest(other.bytes_on(link), self.fed).starts_with(piece)
    }
}

/// The bytes after the first `count`.
fn rest(bytes: &[u8], count: usize) -> &[u8]
    ensures { result.now ≡ drop count bytes.now }
{
    if bytes.len() < count {
        return &[];
    }
    &bytes[count..]
}
