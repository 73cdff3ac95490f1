//! The auditor: it keeps what the lines so far tell of both ends, and judges one line more.

ghost use Rattle.std.specs.Prelude.{◌≡◌, IfOk, [], List, None};
ghost use Rattle.hd_delivery.specs.Sides.{history};
ghost use Rattle.hd_trace.specs.declared.trace.ToldStep.TheVariants as tells;
ghost use Rattle.hd_trace.specs.Recording.{line_of};
ghost use Rattle.hd_trace.specs.Traces.{Setup};
ghost use Rattle.ha_audit.specs.AuditKeeps.{IsBegunSo, Judges, Keeps};
ghost use Rattle.ha_audit.specs.Grammar.{HasLine, HasText};

mod attaching;
pub(crate) mod audited_end;
mod feeding;
mod laws;
mod lending;
mod said;
mod sending;
mod sent;
mod standing;
mod taking;

use crate::head::Head;
use audited_end::AuditedEnd;
use hd_delivery::{MOST_FRAMING, Side, delivery_over_bytes, fed_is_unseen, fed_is_whole};
use hd_trace::{
    Rule, ToldStep, TraceLine, due_is_marked, feeds_by_numbers, marks_follow, next_is_fed,
    room_by_numbers, taken_are_lent, takes_are_marked, takes_by_lines, told_is_world,
    unread_by_numbers,
};
use he_wire::ControlBuffer;
use hm_message::Message;
use hs_shake::Shake;
use hv_value::{Blob, Text};
use laws::kept_is_known;
use std::alloc::{AllocError, Global};

/// What is kept of the lines so far, of which none broke a rule.
#[derive(Drop)]
pub struct Audit {
    pub(crate) head: Head,
    pub(crate) client: AuditedEnd,
    pub(crate) server: AuditedEnd,
    /// The moment of the last tick of either end, or 0.
    pub(crate) clock: u64,
    /// Memory for a frame that carries no message.
    pub(crate) control: ControlBuffer,
}

impl Audit {
    /// Begins with no line but the head.
    pub fn start(alloc: Global, head: Head) -> Result<Audit, AllocError>
        ensures head { IfOk result (λ audit. audit.head ≡ head) }
        ensures kept { IfOk result (λ audit. (x : Setup) → IsBegunSo x audit.head → Keeps x [] audit []) }
    {
        let client = AuditedEnd::start(alloc, head.codec);
        let server = AuditedEnd::start(alloc, head.codec);
        let control = ControlBuffer::start(alloc)?;
        Ok(Audit {
            head,
            client,
            server,
            clock: 0,
            control,
        })
    }

    /// Judges the next line: the rule that it breaks, or `None` if the lines tell a world with it. After a rule was broken, or when it is out of
    /// memory, nothing is kept any more.
    pub fn step(&mut self, alloc: Global, line: TraceLine) -> Result<Option<Rule>, AllocError>
        requires { HasLine line.step }
        ensures { IfOk result (Judges self.old self.new line) }
    {
        let side = line.side;
        match line.step {
            ToldStep::Attach(link) => self.attach(alloc, side, link),
            ToldStep::Detach => Ok(self.detach(side)),
            ToldStep::Feed(piece) => Ok(self.feed(side, piece.bytes())),
            ToldStep::Lend(bytes) => self.lend(alloc, side, bytes.bytes()),
            ToldStep::Send(message) => self.send(alloc, side, message),
            ToldStep::Take(words) => self.take(alloc, side, &words),
            ToldStep::Tick(moment) => Ok(self.tick(side, moment)),
            ToldStep::Close => Ok(self.close(side)),
        }
    }

    fn attach(&mut self, alloc: Global, side: Side, link: u64) -> Result<Option<Rule>, AllocError>
        ensures { IfOk result (Judges self.old self.new (line_of side (tells.Attach link))) }
    {
        match side {
            Side::Client => self.attach_client(alloc, link),
            Side::Server => self.attach_server(alloc, link),
        }
    }

    fn detach(&mut self, side: Side) -> Option<Rule>
        ensures { Judges self.old self.new (line_of side tells.Detach) result }
    {
        marks_follow();
        told_is_world();
        let clock = self.clock;
        match side {
            Side::Client => self.client.detach(clock),
            Side::Server => self.server.detach(clock),
        }
    }

    fn feed(&mut self, side: Side, piece: &[u8]) -> Option<Rule>
        ensures { Judges self.old self.new (line_of side (tells.Feed piece.now)) result }
    {
        fed_is_unseen();
        feeds_by_numbers();
        kept_is_known();
        marks_follow();
        taken_are_lent();
        unread_by_numbers();
        let most = self.head.limits.frame() + MOST_FRAMING;
        match side {
            Side::Client => self.client.feed(&self.server, most, piece),
            Side::Server => self.server.feed(&self.client, most, piece),
        }
    }

    fn lend(&mut self, alloc: Global, side: Side, bytes: &[u8]) -> Result<Option<Rule>, AllocError>
        ensures { IfOk result (Judges self.old self.new (line_of side (tells.Lend bytes.now))) }
    {
        delivery_over_bytes();
        due_is_marked();
        fed_is_whole();
        kept_is_known();
        marks_follow();
        let shake = Shake {
            codec: self.head.codec,
            version: self.head.version,
        };
        match side {
            Side::Client => self
                .client
                .lend(alloc, side, shake, &mut self.control, bytes),
            Side::Server => self
                .server
                .lend(alloc, side, shake, &mut self.control, bytes),
        }
    }

    fn send(
        &mut self,
        alloc: Global,
        side: Side,
        message: Message,
    ) -> Result<Option<Rule>, AllocError>
        requires { HasText message }
        ensures { IfOk result (Judges self.old self.new (line_of side (tells.Send message))) }
    {
        kept_is_known();
        marks_follow();
        room_by_numbers();
        match side {
            Side::Client => self.client.send(alloc, &self.head.limits, message),
            Side::Server => self.server.send(alloc, &self.head.limits, message),
        }
    }

    fn take(&mut self, alloc: Global, side: Side, words: &Text) -> Result<Option<Rule>, AllocError>
        ensures { IfOk result (Judges self.old self.new (line_of side (tells.Take words.now))) }
    {
        delivery_over_bytes();
        fed_is_whole();
        kept_is_known();
        marks_follow();
        next_is_fed();
        takes_by_lines();
        let shake = Shake {
            codec: self.head.codec,
            version: self.head.version,
        };
        let reconnect = self.head.reconnect;
        match side {
            Side::Client => self
                .client
                .take(alloc, side, &self.server, shake, reconnect, words),
            Side::Server => self
                .server
                .take(alloc, side, &self.client, shake, reconnect, words),
        }
    }

    fn tick(&mut self, side: Side, moment: u64) -> Option<Rule>
        ensures { Judges self.old self.new (line_of side (tells.Tick moment)) result }
    {
        marks_follow();
        told_is_world();
        takes_are_marked();
        if moment < self.clock {
            return Some(Rule::State);
        }
        self.clock = moment;
        match side {
            Side::Client => {
                self.client.tick(moment);
                None
            }
            Side::Server => {
                self.server.tick(moment);
                None
            }
        }
    }

    fn close(&mut self, side: Side) -> Option<Rule>
        ensures { Judges self.old self.new (line_of side tells.Close) result }
    {
        marks_follow();
        told_is_world();
        match side {
            Side::Client => self.client.close(),
            Side::Server => self.server.close(),
        }
    }
}
