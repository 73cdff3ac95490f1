//! Frames that an end alone says: each is the one that is due.

ghost use Rattle.std.specs.Prelude.{IfOk};
ghost use Rattle.hd_trace.specs.declared.trace.ToldStep.TheVariants as tells;
ghost use Rattle.ha_audit.specs.AloneKeeps.{JudgesAlone};

use super::auditor::AuditAlone;
use super::laws::kept_alone_is_known;
use hd_delivery::unread_stays;
use hd_trace::{Rule, due_is_marked, marks_follow};
use hs_shake::Shake;
use std::alloc::{AllocError, Global};

impl AuditAlone {
    pub(crate) fn lend(&mut self, alloc: Global, bytes: &[u8]) -> Result<Option<Rule>, AllocError>
        ensures { IfOk result (JudgesAlone self.old self.new (tells.Lend bytes.now)) }
    {
        due_is_marked();
        kept_alone_is_known();
        marks_follow();
        unread_stays();
        let shake = Shake {
            codec: self.head.codec,
            version: self.head.version,
        };
        self.end
            .lend(alloc, self.side, shake, &mut self.control, bytes)
    }
}
