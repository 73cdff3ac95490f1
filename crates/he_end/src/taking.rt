//! What a session makes of a frame that it reads.

ghost use Rattle.std.specs.Prelude.{◌≡◌, ◌≤◌, ◌<◌, ℕ, suc, true, false, not, ◌&&◌, ◌||◌, List, [], ◌∷◌, Option, Some, None, is_some, IfOk, IfErr};
ghost use Rattle.hm_message.specs.declared.message.Message.{Message};
ghost use Rattle.hm_message.specs.declared.message.Message.TheVariants as message;
ghost use Rattle.hm_message.specs.Message.{is_sequenced, Fits};
ghost use Rattle.hm_message.specs.Reads.{MessageIs};
ghost use Rattle.hs_shake.specs.Responses.{IsAnswered};
ghost use Rattle.hd_delivery.specs.Frames.{LinkFrame, Request, Response, Numbered, Ack, Sequence, Strange, Unreadable, count, received_of, frame_of};
ghost use Rattle.hd_delivery.specs.Histories.{Config, EndEvent, Took, Failed, Unread, Shake, HasFit, present_link, own_number, is_shaken, can_keep};
ghost use Rattle.hd_delivery.specs.Processes.{has_frames, processes};
ghost use Rattle.he_end.specs.Remembers.{Remembers, answer_text, after_fault, after_resume};
ghost use Rattle.he_end.specs.Says.{Awaits, Takes, Shakes, answer_at, frame_read, is_early, step_counted};

use crate::link::{Agreed, Answer, Farewell, Link};
use crate::session::Session;
use hd_delivery::{Got, Reason, Side, Why};
use hm_message::{Codec, Message, Read};
use hq_resend::{Beyond, Counted, Gap};

/// Why a frame that was read can't be taken. The session is closed then, for `Reason::Protocol`.
#[derive(Clone, Copy, Debug, PartialEq, Eq)]
pub enum Refused {
    /// A Sequence, or a message, leaves messages out.
    Gap(Gap),
    /// Messages are acknowledged that were never said.
    AckBeyond(Beyond),
}

impl Session {
    /// The session's own number of its present link, from 0, or 2^64-1 if that is more.
    pub fn own_number(&self) -> u64
        ensures { (c : Config) (k : List EndEvent) (l : ℕ) →
            Remembers c self.now k → present_link k ≡ Some l → result ≡ own_number k }
    {
        self.number.unwrap_or(0)
    }

    /// The frame that comes next can't be read, wherever it stands. The session is closed for `Reason::Protocol` and will
    /// say so.
    pub fn fail(&mut self)
        ensures after { self.new ≡ after_fault self.old }
        ensures made { (c : Config) (k : List EndEvent) (at : ℕ) (why : List ℕ) →
            Remembers c self.old k → Awaits c k (Unreadable at why) →
            (let step = Failed (Unread (own_number k) at why) in
            (processes c k ≡ Some step) × Remembers c self.new (step ∷ k)) }
    {
        self.closed = true;
        self.farewell = Some(Farewell {
            reason: Reason::Protocol,
            allow: false,
        });
    }

    /// The first frame of the first link is no handshake. The session is closed; a server then owes this answer, with its
    /// framing, and nothing else.
    pub fn refuse(&mut self, answer: Answer)
        ensures made { (c : Config) (k : List EndEvent) (why text : List ℕ) →
            Remembers c self.old k → is_shaken k ≡ false →
            (c.side ≡ Side.Server → answer_text answer ≡ text) → Awaits c k (Strange why text) →
            (let step = Failed (Shake why (answer_at c.side text)) in
            (processes c k ≡ Some step) × Remembers c self.new (step ∷ k)) }
        ensures limits { self.new.ring.limits ≡ self.old.ring.limits }
    {
        self.closed = true;
        if self.side == Side::Server {
            self.answer = Some(answer);
        }
    }

    /// A server takes the request for this codec and version, which is spoken: the handshake is complete.
    pub fn take_request(&mut self, codec: Codec, version: u8) -> Got
        ensures value { result ≡ Got.Shaken codec version }
        ensures made { Shakes self.old Side.Server (Request codec version) self.new result }
        ensures limits { self.new.ring.limits ≡ self.old.ring.limits }
        ensures codec { self.new.codec ≡ codec }
    {
        self.agree(codec, version)
    }

    /// A client takes the response, in the codec and version for which it asked: the handshake is complete.
    pub fn take_response(&mut self) -> Got
        ensures made { Shakes self.old Side.Client Response self.new result }
        ensures limits { self.new.ring.limits ≡ self.old.ring.limits }
        ensures codec { self.new.codec ≡ self.old.codec }
        ensures value { result ≡ Got.Shaken self.old.codec self.old.version }
    {
        self.agree(self.codec, self.version)
    }

    /// The handshake is complete.
    fn agree(&mut self, codec: Codec, version: u8) -> Got
        ensures value { result ≡ Got.Shaken codec version }
        ensures made { (c : Config) (k : List EndEvent) (f : LinkFrame) →
            Remembers c self.old k → is_shaken k ≡ false → Awaits c k f → count None f ≡ Some 1 →
            Remembers c self.new (Took (Got.Shaken codec version) ∷ k) }
        ensures limits { self.new.ring.limits ≡ self.old.ring.limits }
        ensures codec { self.new.codec ≡ codec }
    {
        let kept = self.would_keep(version);
        self.codec = codec;
        self.agreed = Some(Agreed {
            kept,
            three: version == 3,
        });
        self.keep(kept);
        Got::Shaken { codec, version }
    }

    /// Whether a handshake that gives this version gives a connection that is kept.
    fn would_keep(&self, version: u8) -> bool
        ensures { result ≡ (self.now.reconnect && can_keep version) }
    {
        self.reconnect && (version == 2 || version == 3)
    }

    /// Sets whether messages are kept. None was sent, since the handshake wasn't complete.
    fn keep(&mut self, kept: bool)
        ensures keeps { self.old.ring.sent ≡ 0 →
            self.new ≡ record self.old { ring = record self.old.ring { keeps = kept } } }
        ensures limits { self.new.ring.limits ≡ self.old.ring.limits }
        ensures codec { self.new.codec ≡ self.old.codec }
    {
        if self.ring.count_sent() == 0 {
            self.ring.keep(kept);
        }
    }

    /// Takes what the next frame says, after the handshake. If it is refused, the session is closed for `Reason::Protocol`.
    pub fn take(&mut self, read: Read) -> Result<Got, Refused>
        ensures made { Takes self.old (frame_read read) self.new result }
        ensures fits { IfOk result (λ got. MessageIs read Fits → HasFit got) }
        ensures limits { self.new.ring.limits ≡ self.old.ring.limits }
        ensures codec { self.new.codec ≡ self.old.codec }
    {
        match read {
            Read::Unknown(n) => Ok(Got::Skipped(Why::Unknown(n))),
            Read::Message(message) => self.take_message(message),
        }
    }

    fn take_message(&mut self, message: Message) -> Result<Got, Refused>
        ensures made { Takes self.old (frame_of message) self.new result }
        ensures limits { self.new.ring.limits ≡ self.old.ring.limits }
        ensures codec { self.new.codec ≡ self.old.codec }
        ensures fits { IfOk result (λ got. Fits message → HasFit got) }
    {
        match message {
            Message::Ping => Ok(Got::Ping),
            Message::Close { error, allow } => {
                self.closed = true;
                Ok(Got::Closed { error, allow })
            }
            Message::Ack { upto } => self.take_ack(upto),
            Message::Sequence { first, received } => self.take_sequence(
                first,
                received.unwrap_or(0),
            ),
            message => self.take_sequenced(message),
        }
    }

    fn take_ack(&mut self, upto: u64) -> Result<Got, Refused>
        ensures made { Takes self.old (Ack upto) self.new result }
        ensures limits { self.new.ring.limits ≡ self.old.ring.limits }
        ensures codec { self.new.codec ≡ self.old.codec }
        ensures fits { IfOk result HasFit }
    {
        if !self.is_resumable() {
            return Ok(Got::Skipped(Why::NotUsed));
        }
        match self.ring.ack(upto) {
            Ok(()) => Ok(Got::Acked(upto)),
            Err(beyond) => Err(self.refuse_frame(Refused::AckBeyond(beyond))),
        }
    }

    fn take_sequence(&mut self, first: u64, received: u64) -> Result<Got, Refused>
        ensures made { (told : Option ℕ) → received ≡ received_of told →
            Takes self.old (Sequence first told) self.new result }
        ensures limits { self.new.ring.limits ≡ self.old.ring.limits }
        ensures codec { self.new.codec ≡ self.old.codec }
        ensures fits { IfOk result HasFit }
    {
        if !self.is_resumable() {
            return Ok(Got::Skipped(Why::NotUsed));
        }
        let three = self.is_three();
        if let Err(gap) = self.intake.sequence(first) {
            return Err(self.refuse_frame(Refused::Gap(gap)));
        }
        if three {
            self.resume(first, received)
        } else {
            Ok(Got::Sequenced(first))
        }
    }

    /// At version 3 the other end says how much it has, and goes on from there.
    fn resume(&mut self, first: u64, received: u64) -> Result<Got, Refused>
        ensures ok { IfOk result (λ got. (got ≡ Got.Resumed first received) ×
            (received ≤ self.old.ring.furthest) × (self.new ≡ after_resume self.old received)) }
        ensures err { IfErr result (λ e.
            (e ≡ Refused.AckBeyond (record { got = received; most = self.old.ring.furthest })) ×
            (self.old.ring.furthest < received) × (self.new ≡ after_fault self.old)) }
    {
        if let Err(beyond) = self.ring.ack(received) {
            return Err(self.refuse_frame(Refused::AckBeyond(beyond)));
        }
        self.expect_next();
        if let Some(link) = self.link {
            self.link = Some(Link {
                resumed: true,
                ..link
            });
        }
        Ok(Got::Resumed { first, received })
    }

    /// The next message has the number after those processed.
    fn expect_next(&mut self)
        ensures { self.new ≡ record self.old {
          intake = record self.old.intake { next = Some (suc self.old.intake.processed) };
        } }
    {
        let next = self.intake.processed() + 1;
        self.intake.sequence(next).unwrap();
    }

    fn take_sequenced(&mut self, message: Message) -> Result<Got, Refused>
        ensures made { Takes self.old (Numbered message) self.new result }
        ensures limits { self.new.ring.limits ≡ self.old.ring.limits }
        ensures codec { self.new.codec ≡ self.old.codec }
        ensures fits { IfOk result (λ got. Fits message → HasFit got) }
    {
        match self.count() {
            Ok(Counted::Fresh(_)) => Ok(Got::Message(message)),
            Ok(Counted::Duplicate(number)) => Ok(Got::Skipped(Why::Duplicate(number))),
            Ok(Counted::Early) => Ok(Got::Skipped(Why::BeforeSequence)),
            Err(refused) => Err(refused),
        }
    }

    /// Counts the next message, if it has a number on this link.
    fn count(&mut self) -> Result<Counted, Refused>
        ensures made { (c : Config) (k : List EndEvent) (m : Message) →
            Remembers c self.old k → is_shaken k ≡ true → Awaits c k (Numbered m) →
            (let step = step_counted m result in
            (processes c k ≡ Some step) × Remembers c self.new (step ∷ k)) }
        ensures limits { self.new.ring.limits ≡ self.old.ring.limits }
        ensures codec { self.new.codec ≡ self.old.codec }
    {
        if self.is_early() {
            return Ok(Counted::Early);
        }
        match self.intake.count() {
            Ok(counted) => Ok(counted),
            Err(gap) => Err(self.refuse_frame(Refused::Gap(gap))),
        }
    }

    /// Whether at version 3 a message comes too early: this end's own opening of a later link wasn't said.
    fn is_early(&self) -> bool
        ensures { (c : Config) (k : List EndEvent) (l : ℕ) →
            Remembers c self.now k → present_link k ≡ Some l → result ≡ is_early k l }
    {
        match self.link {
            Some(link) => self.is_three() && !link.first && !link.opened,
            None => false,
        }
    }

    /// The session is closed for `Reason::Protocol`, and hands the fault on.
    fn refuse_frame(&mut self, refused: Refused) -> Refused
        ensures value { result ≡ refused }
        ensures after { self.new ≡ after_fault self.old }
    {
        self.fail();
        refused
    }
}
