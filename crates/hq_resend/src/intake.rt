//! The receiving counter: which message of the other end comes next, and whether it was there already.

ghost use Rattle.std.specs.Prelude.{◌≡◌, ◌<◌, ◌≤◌, suc, None, MatchResult, OnOk, OnErr, IfOk, IfErr};
ghost use Rattle.hq_resend.specs.Numbering.{IsCounted, first_link, after_sequence, counted_as, after_count};

use crate::refusals::Gap;
use hd_delivery::MOST_MESSAGES;
use std::marker::Model;

/// What a message is that comes.
#[derive(Clone, Copy, Debug, PartialEq, Eq)]
pub enum Counted {
    /// The next one, with its number.
    Fresh(u64),
    /// One that was processed already, with its number.
    Duplicate(u64),
    /// One that comes before the Sequence of its link.
    Early,
}

/// Counts the messages of the other end, across links.
#[derive(Drop)]
pub struct Intake {
    processed: u64,
    // the number of the next message on this link
    next: Option<u64>,
}

impl Model for Intake {
    ghost use Rattle.hq_resend.specs.Numbering.{Numbering, IsCounted};

    ghost Value = { Numbering };

    ghost view = { λ i. record { processed = i.processed; next = i.next } };

    ghost invariant = { λ i. IsCounted (record { processed = i.processed; next = i.next }) };
}

impl Intake {
    /// A counter on the first link, where the numbers begin with 1 and no Sequence is said.
    pub fn start() -> Intake
        ensures { result ≡ first_link }
    {
        Intake {
            processed: 0,
            next: Some(1),
        }
    }

    /// How many messages were processed, which is the number of the latest.
    pub fn processed(&self) -> u64
        ensures value { result ≡ self.now.processed }
        ensures within { IsCounted self.now }
    {
        self.processed
    }

    /// A later link begins: until its first Sequence each message is early.
    pub fn expect_sequence(&mut self)
        ensures { self.new ≡ record self.old { next = None } }
    {
        self.next = None;
    }

    /// The next message has the number `first`. It fails, and changes nothing, exactly if a message would be left out.
    pub fn sequence(&mut self, first: u64) -> Result<(), Gap>
        ensures ok { OnOk result ((first ≤ suc self.old.processed) ×
            (self.new ≡ after_sequence self.old first)) }
        ensures err { IfErr result (λ gap. (suc self.old.processed < first) ×
            (gap ≡ record { got = first; most = suc self.old.processed }) × (self.new ≡ self.old)) }
    {
        let most = self.processed + 1;
        if first > most {
            return Err(Gap { got: first, most });
        }
        self.next = Some(first);
        Ok(())
    }

    /// Counts the next message. It fails, and changes nothing, exactly if its number is past `MOST_MESSAGES`.
    pub fn count(&mut self) -> Result<Counted, Gap>
        ensures answer { result ≡ counted_as self.old.processed self.old.next }
        ensures after { self.new ≡ after_count self.old self.old.next }
    {
        let Some(number) = self.next else {
            return Ok(Counted::Early);
        };
        if number > MOST_MESSAGES {
            return Err(Gap {
                got: number,
                most: MOST_MESSAGES,
            });
        }
        self.next = Some(number + 1);
        if number <= self.processed {
            return Ok(Counted::Duplicate(number));
        }
        self.processed = number;
        Ok(Counted::Fresh(number))
    }
}
