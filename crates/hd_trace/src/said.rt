//! What an end's marks are once it said something, or was handed a message to say.

ghost use Rattle.std.specs.Prelude.{◌≡◌, ◌<◌, ◌||◌, max, true, false, Option, Some};
ghost use Rattle.hm_message.specs.declared.message.Message.{Message};
ghost use Rattle.hd_delivery.specs.Frames.{LinkFrame, one_more};
ghost use Rattle.hd_delivery.specs.Histories.{Config};
ghost use Rattle.hd_delivery.specs.Numbers.{most_of_64_bits};
ghost use Rattle.hd_trace.specs.Marks.{lent, lent_message, sent_one};
ghost use Rattle.hd_trace.specs.Owed.{HasNextNumbers, owed_frame};

use crate::marks::Marks;
use crate::owed::Owed;

impl Marks {
    /// The marks once it was handed a message to send; it was handed fewer than 2^64 - 1 before.
    pub fn send(self) -> Marks
        ensures { self.sent < most_of_64_bits → result ≡ sent_one self }
    {
        Marks {
            sent: self.sent.saturating_add(1),
            ..self
        }
    }

    /// The marks once it said this on its link, as long as the numbers of what it says are below 2^64 - 1.
    pub fn lend(self, owed: Owed) -> Marks
        ensures { (c : Config) (next : Option Message) (f : LinkFrame) → HasNextNumbers self →
            owed_frame c next (Some owed) ≡ Some f → result ≡ lent f self }
    {
        match owed {
            Owed::Request => self.lend_control(Some(1), 0, false),
            Owed::Response => self.lend_control(Some(1), 0, false),
            Owed::Sequence {
                first,
                received: None,
            } => self.lend_control(Some(first), 0, false),
            Owed::Sequence {
                first,
                received: Some(received),
            } => { self.lend_control(Some(first), received, false) }
            Owed::Ack(upto) => self.lend_control(self.said, upto, false),
            Owed::Message => self.lend_message(),
            Owed::Ping => self.lend_control(self.said, 0, false),
            Owed::Close(_) => self.lend_control(self.said, 0, true),
        }
    }

    fn lend_control(self, said: Option<u64>, reported: u64, parted: bool) -> Marks
        ensures { result ≡ record self {
          opened = true;
          said = said;
          reported = max self.reported reported;
          parted = (self.parted || parted);
          quiet = false;
          wrote = self.moment;
        } }
    {
        Marks {
            opened: true,
            said,
            reported: self.reported.max(reported),
            parted: self.parted || parted,
            quiet: false,
            wrote: self.moment,
            ..self
        }
    }

    fn lend_message(self) -> Marks
        ensures { HasNextNumbers self → result ≡ lent_message self }
    {
        let place = self.acked.max(self.written).saturating_add(1);
        Marks {
            opened: true,
            said: self.said_after(),
            written: place,
            furthest: place.max(self.furthest),
            quiet: false,
            wrote: self.moment,
            ..self
        }
    }

    /// The number of the next message once one more was said.
    fn said_after(self) -> Option<u64>
        ensures { HasNextNumbers self → result ≡ one_more self.said }
    {
        match self.said {
            None => None,
            Some(number) => Some(number.saturating_add(1)),
        }
    }
}
