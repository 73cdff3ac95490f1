//! What is kept of the lines of one end alone, and the lines that ask nothing of its bytes.

ghost use Rattle.std.specs.Prelude.{◌≡◌, IfOk, [], List};
ghost use Rattle.hd_delivery.specs.Bytes.{ByteStep};
ghost use Rattle.hd_trace.specs.declared.trace.ToldStep.TheVariants as tells;
ghost use Rattle.hd_trace.specs.declared.trace.ToldStep.{ToldStep};
ghost use Rattle.hd_trace.specs.Alone.{frames_alone};
ghost use Rattle.hd_trace.specs.Traces.{Setup};
ghost use Rattle.hd_trace.specs.Verdicts.{counts_of};
ghost use Rattle.ha_audit.specs.AuditKeeps.{IsBegunSo};
ghost use Rattle.ha_audit.specs.AloneKeeps.{JudgesAlone, KeepsAlone};
ghost use Rattle.ha_audit.specs.Grammar.{HasLine, HasText};

use super::laws::kept_alone_is_known;
use crate::auditor::audited_end::AuditedEnd;
use crate::head::Head;
use hd_delivery::{Side, unread_stays};
use hd_trace::{
    Counts, Rule, ToldStep, marks_follow, room_by_numbers, takes_are_marked, told_is_history,
};
use he_wire::ControlBuffer;
use hf_split::{Framing, Splitter};
use hm_message::Message;
use json::Scratch;
use std::alloc::{AllocError, Global};

/// What is kept of the lines of one end, of which none broke a rule.
#[derive(Drop)]
pub(crate) struct AuditAlone {
    pub(crate) head: Head,
    pub(crate) side: Side,
    pub(crate) end: AuditedEnd,
    /// The moment of the last tick, or 0.
    pub(crate) clock: u64,
    /// Memory for a frame that carries no message.
    pub(crate) control: ControlBuffer,
    /// The bytes of its link that it was fed and didn't deal with: all of them, or those up to which it is seen that no frame can come.
    pub(crate) splitter: Splitter,
    /// How many it was fed after those.
    pub(crate) over: usize,
    /// Memory for the reader of JSON.
    pub(crate) scratch: Scratch,
}

impl AuditAlone {
    /// Begins with no line but the head.
    pub(crate) fn start(alloc: Global, head: Head, side: Side) -> Result<AuditAlone, AllocError>
        ensures begun { IfOk result (λ audit. (audit.head ≡ head) × (audit.side ≡ side)) }
        ensures kept { IfOk result (λ audit. (x : Setup) → IsBegunSo x head → KeepsAlone x [] audit []) }
    {
        let end = AuditedEnd::start(alloc, head.codec);
        let control = ControlBuffer::start(alloc)?;
        let splitter = Splitter::start(alloc, Framing::Record, head.limits.frame())?;
        Ok(AuditAlone {
            head,
            side,
            end,
            clock: 0,
            control,
            splitter,
            over: 0,
            scratch: Scratch::new(alloc),
        })
    }

    /// Judges the next line: the rule that it breaks, or `None` if the lines tell a history with it. After a rule was broken, or when it is out of
    /// memory, nothing is kept any more.
    pub(crate) fn step(&mut self, alloc: Global, step: ToldStep) -> Result<Option<Rule>, AllocError>
        requires { HasLine step }
        ensures { IfOk result (JudgesAlone self.old self.new step) }
    {
        match step {
            ToldStep::Attach(link) => self.attach(alloc, link),
            ToldStep::Detach => Ok(self.detach()),
            ToldStep::Feed(piece) => Ok(self.feed(piece.bytes())),
            ToldStep::Lend(bytes) => self.lend(alloc, bytes.bytes()),
            ToldStep::Send(message) => self.send(alloc, message),
            ToldStep::Take(words) => self.take(alloc, &words),
            ToldStep::Tick(moment) => Ok(self.tick(moment)),
            ToldStep::Close => Ok(self.close()),
        }
    }

    /// How many messages it was handed to send, and handed out.
    pub(crate) fn counts(&self) -> Counts
        ensures { (x : Setup) (steps : List ToldStep) (h : List ByteStep) → KeepsAlone x steps self.now h →
            result ≡ counts_of (frames_alone x self.now.side h) }
    {
        Counts {
            sent: self.end.marks.sent,
            processed: self.end.marks.processed,
        }
    }

    fn detach(&mut self) -> Option<Rule>
        ensures { JudgesAlone self.old self.new tells.Detach result }
    {
        marks_follow();
        told_is_history();
        self.end.detach(self.clock)
    }

    fn send(&mut self, alloc: Global, message: Message) -> Result<Option<Rule>, AllocError>
        requires { HasText message }
        ensures { IfOk result (JudgesAlone self.old self.new (tells.Send message)) }
    {
        kept_alone_is_known();
        marks_follow();
        room_by_numbers();
        unread_stays();
        self.end.send(alloc, &self.head.limits, message)
    }

    fn tick(&mut self, moment: u64) -> Option<Rule>
        ensures { JudgesAlone self.old self.new (tells.Tick moment) result }
    {
        marks_follow();
        takes_are_marked();
        told_is_history();
        unread_stays();
        if moment < self.clock {
            return Some(Rule::State);
        }
        self.clock = moment;
        self.end.tick(moment);
        None
    }

    fn close(&mut self) -> Option<Rule>
        ensures { JudgesAlone self.old self.new tells.Close result }
    {
        marks_follow();
        unread_stays();
        self.end.close()
    }
}
