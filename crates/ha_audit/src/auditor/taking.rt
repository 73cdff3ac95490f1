//! Frames that an end deals with: each is the next that the other end said on the link, once all its bytes were fed, so no byte is read again.

ghost use Rattle.std.specs.Prelude.{◌≡◌, ◌↔◌, ◌≤◌, ◌<◌, ◌++◌, ◌||◌, ◌==◌, ◌^◌, ℕ, suc, Bool, Option, Some, None, IsTrue, IfOk, OnOk, IfSome, IfNone, option_map, slice_get};
ghost use Rattle.hm_message.specs.declared.message.Message.{Message};
ghost use Rattle.hd_delivery.specs.Frames.{count, error_of};
ghost use Rattle.hd_delivery.specs.Histories.{Config, HasFit, can_keep};
ghost use Rattle.hd_delivery.specs.Numbers.{most_messages, most_of_64_bits};
ghost use Rattle.sr_notation.specs.Words.{got_words};
ghost use Rattle.hd_delivery.specs.declared.vocabulary.Got.TheVariants as gives;
ghost use Rattle.hd_trace.specs.declared.given.Given.TheVariants as outcome;
ghost use Rattle.hd_trace.specs.Given.{given_got, said_frame};
ghost use Rattle.hd_trace.specs.Marks.{took};
ghost use Rattle.ha_audit.specs.AuditSteps.{HasFrames, IsBegunLike, TakesSo, next_of};

use super::audited_end::AuditedEnd;
use super::said::SaidFrame;
use super::sent::SentMessage;
use hd_delivery::{Got, Reason, Side};
use hd_trace::{Farewell, Given, Marks, Owed, Rule};
use hs_shake::Shake;
use hv_value::Text;
use sr_notation::push_got_words;
use std::alloc::{AllocError, Global};

impl AuditedEnd {
    /// It deals with the next frame of its link, beside what is kept of the other end, and these words tell what that gave: the rule that this
    /// breaks, if it breaks any. Both ends were begun to ask for `shake`.
    pub(crate) fn take(
        &mut self,
        alloc: Global,
        side: Side,
        other: &AuditedEnd,
        shake: Shake,
        reconnect: bool,
        words: &Text,
    ) -> Result<Option<Rule>, AllocError>
        ensures { IfOk result (λ verdict. (c oc : Config) → c.side ≡ side → IsBegunLike c shake reconnect → IsBegunLike oc shake reconnect →
            self.old.marks.processed ≤ most_messages → IfSome self.old.marks.next (λ n. n < most_of_64_bits) →
            HasFrames oc other.now → TakesSo c oc self.old self.new other.now words.now verdict) }
    {
        let Some(link) = self.marks.link else {
            return Ok(Some(Rule::Link));
        };
        if self.marks.closed {
            return Ok(Some(Rule::State));
        }
        let Some(said) = self.next_frame(other, link) else {
            return Ok(Some(Rule::Took));
        };
        let Some(given) = self.marks.gives(side, link, said.owed) else {
            return Ok(Some(Rule::Took));
        };
        if !self.is_told(alloc, shake, given, other.sent.get(said.place), words)? {
            return Ok(Some(Rule::Took));
        }
        self.marks = after_taking(self.marks, shake, reconnect, said.owed, given);
        self.taken = self.taken.saturating_add(1);
        Ok(None)
    }

    /// The next frame that the other end said on the link, once all its bytes were fed.
    fn next_frame(&self, other: &AuditedEnd, link: u64) -> Option<SaidFrame>
        ensures next { result ≡ next_of self.now other.now link }
        ensures few { IfSome result (λ said. suc self.now.taken < 2 ^ 64) }
    {
        let said = other.frame_on(link, self.taken)?;
        if said.end <= self.fed {
            return Some(said);
        }
        None
    }

    /// Whether these words tell what a frame gave, which carries this message if it carries any.
    fn is_told(
        &self,
        alloc: Global,
        shake: Shake,
        given: Given,
        message: Option<&SentMessage>,
        words: &Text,
    ) -> Result<bool, AllocError>
        ensures { IfOk result (λ answer. (c oc : Config) (msg : Message) (reconnect : Bool) → IsBegunLike c shake reconnect → IsBegunLike oc shake reconnect →
            self.now.marks.processed ≤ most_messages → (given ≡ outcome.Message → option_map (λ s. s.now.message) message.entry ≡ Some msg) →
            IsTrue answer ↔ (got_words (suc self.now.marks.processed) (given_got c oc msg given) ≡ words.now)) }
    {
        let number = self.marks.processed.saturating_add(1);
        let Some(got) = got_of(alloc, shake, given, message)? else {
            return Ok(false);
        };
        let mut text = Vec::new(alloc);
        push_got_words(alloc, &mut text, number, &got)?;
        Ok(text.as_slice() == words.as_str().as_bytes())
    }
}

/// What a frame gave, which carries this message if it carries any, in full.
fn got_of(
    alloc: Global,
    shake: Shake,
    given: Given,
    message: Option<&SentMessage>,
) -> Result<Option<Got>, AllocError>
    ensures got { IfOk result (λ r. IfSome r (λ got. (c oc : Config) (msg : Message) (reconnect : Bool) →
        IsBegunLike c shake reconnect → IsBegunLike oc shake reconnect →
        (given ≡ outcome.Message → option_map (λ s. s.now.message) message.entry ≡ Some msg) → got ≡ given_got c oc msg given)) }
    ensures fits { IfOk result (λ r. IfSome r HasFit) }
    ensures none { IfOk result (λ r. IfNone r ((given ≡ outcome.Message) × (message.entry ≡ None))) }
{
    let Shake { codec, version } = shake;
    match given {
        Given::Shaken => Ok(Some(Got::Shaken { codec, version })),
        Given::Message => copied(message),
        Given::Acked(upto) => Ok(Some(Got::Acked(upto))),
        Given::Sequenced(first) => Ok(Some(Got::Sequenced(first))),
        Given::Resumed { first, received } => Ok(Some(Got::Resumed { first, received })),
        Given::Ping => Ok(Some(Got::Ping)),
        Given::Skipped(why) => Ok(Some(Got::Skipped(why))),
        Given::Closed(farewell) => {
            let Farewell { reason, allow } = farewell;
            let error = error_text(alloc, reason)?;
            Ok(Some(Got::Closed { error, allow }))
        }
    }
}

/// The message that was handed out.
fn copied(message: Option<&SentMessage>) -> Result<Option<Got>, AllocError>
    ensures got { IfOk result (λ r. IfSome r (λ got. (msg : Message) → option_map (λ s. s.now.message) message.entry ≡ Some msg → got ≡ gives.Message msg)) }
    ensures fits { IfOk result (λ r. IfSome r HasFit) }
    ensures none { IfOk result (λ r. IfNone r (message.entry ≡ None)) }
{
    match message {
        None => Ok(None),
        Some(sent) => Ok(Some(Got::Message(sent.message.copy()?))),
    }
}

/// The error of the Close that tells the reason.
fn error_text(alloc: Global, reason: Reason) -> Result<Option<Text>, AllocError>
    ensures { IfOk result (λ text. text ≡ error_of reason) }
{
    match reason.text() {
        None => Ok(None),
        Some(text) => Ok(Some(Text::of(alloc, text)?)),
    }
}

/// The marks of an end once it dealt with this frame, which gave this.
fn after_taking(marks: Marks, shake: Shake, reconnect: bool, said: Owed, given: Given) -> Marks
    ensures { (c oc : Config) (msg : Message) → IsBegunLike c shake reconnect → IsBegunLike oc shake reconnect →
        marks.processed ≤ most_messages → IfSome marks.next (λ n. n < most_of_64_bits) →
        result ≡ took c.reconnect (said_frame oc msg said) (given_got c oc msg given) marks }
{
    let next = next_after(marks.next, said);
    match given {
        Given::Shaken => Marks {
            next,
            shaken: true,
            codec: shake.codec,
            resumable: reconnect && is_kept(shake.version),
            three: shake.version == 3,
            ..marks
        },
        Given::Message => Marks {
            next,
            processed: marks.processed.saturating_add(1),
            ..marks
        },
        Given::Acked(upto) => Marks {
            next,
            acked: upto.max(marks.acked),
            ..marks
        },
        Given::Resumed { first: _, received } => Marks {
            next,
            acked: received.max(marks.acked),
            resumed: true,
            ..marks
        },
        Given::Closed(_) => Marks {
            next,
            closed: true,
            ..marks
        },
        Given::Sequenced(_) => Marks { next, ..marks },
        Given::Ping => Marks { next, ..marks },
        Given::Skipped(_) => Marks { next, ..marks },
    }
}

/// Whether a connection of this version can be kept across links.
fn is_kept(version: u8) -> bool
    ensures { result ≡ can_keep version }
{
    version == 2 || version == 3
}

/// The number of the next message of a link after one frame more.
fn next_after(next: Option<u64>, said: Owed) -> Option<u64>
    ensures { (oc : Config) (msg : Message) → IfSome next (λ n. n < most_of_64_bits) → result ≡ count next (said_frame oc msg said) }
{
    match said {
        Owed::Request => Some(1),
        Owed::Response => Some(1),
        Owed::Sequence { first, received: _ } => Some(first),
        Owed::Message => match next {
            None => None,
            Some(number) => Some(number.saturating_add(1)),
        },
        Owed::Ack(_) => next,
        Owed::Ping => next,
        Owed::Close(_) => next,
    }
}
