//! What lines come to that break no rule: how many messages each end sent and processed, and whether both ends are still.

ghost use Rattle.std.specs.Prelude.{◌≡◌, ◌↔◌, ◌<◌, IsTrue, List, length};
ghost use Rattle.hd_delivery.specs.declared.vocabulary.Side.TheVariants.{Client, Server};
ghost use Rattle.hd_delivery.specs.Bytes.{ByteStep, StillOverBytes};
ghost use Rattle.hd_delivery.specs.Histories.{Config};
ghost use Rattle.hd_delivery.specs.Numbers.{most_of_64_bits};
ghost use Rattle.hd_delivery.specs.Worlds.{Event, client_of, config, server_of};
ghost use Rattle.hd_trace.specs.declared.trace.TraceLine.{TraceLine};
ghost use Rattle.hd_trace.specs.Traces.{Setup};
ghost use Rattle.hd_trace.specs.Verdicts.{IsVerdict};
ghost use Rattle.ha_audit.specs.AuditKeeps.{Keeps};
ghost use Rattle.ha_audit.specs.AuditStill.{IsStillOn};

use super::Audit;
use super::audited_end::AuditedEnd;
use super::laws::kept_is_known;
use hd_delivery::{Side, State};
use hd_trace::{Counts, Verdict, due_is_marked, still_by_numbers, takes_are_marked};

impl Audit {
    /// The numbers of the world that the lines so far tell.
    pub(crate) fn world(&self) -> Verdict
        ensures { (x : Setup) (lines : List TraceLine) (w : List (Event ByteStep)) → Keeps x lines self.now w → IsVerdict x lines result }
    {
        Verdict::World {
            client: self.client.counts(),
            server: self.server.counts(),
            still: self.is_still(),
        }
    }

    /// Whether both ends are still on one link.
    fn is_still(&self) -> bool
        ensures { (x : Setup) (lines : List TraceLine) (w : List (Event ByteStep)) → Keeps x lines self.now w →
            IsTrue result ↔ StillOverBytes x.wire (config Client x.terms) (config Server x.terms) (client_of w) (server_of w) }
    {
        due_is_marked();
        kept_is_known();
        still_by_numbers();
        takes_are_marked();
        let Some(link) = self.client.marks.link else {
            return false;
        };
        if !self.client.is_still(&self.server, Side::Client, link) {
            return false;
        }
        self.server.is_still(&self.client, Side::Server, link)
    }
}

impl AuditedEnd {
    /// How many messages it was handed to send, and how many it handed out.
    fn counts(&self) -> Counts
        ensures { (result.sent ≡ self.now.marks.sent) × (result.processed ≡ self.now.marks.processed) }
    {
        Counts {
            sent: self.marks.sent,
            processed: self.marks.processed,
        }
    }

    /// Whether it is still on this link, beside what is kept of the other end.
    fn is_still(&self, other: &AuditedEnd, side: Side, link: u64) -> bool
        ensures { (c : Config) → c.side ≡ side → length self.now.sent.items ≡ self.now.marks.sent → self.now.marks.acked < most_of_64_bits →
            IsTrue result ↔ IsStillOn c self.now other.now link }
    {
        if self.marks.link != Some(link) {
            return false;
        }
        if self.marks.state() != State::Ready {
            return false;
        }
        if self.fed != other.bytes_on(link).len() {
            return false;
        }
        if self.taken != other.frame_count(link) {
            return false;
        }
        self.marks.due(side).is_none()
    }
}
