//! A message's frame, which is spelled once for all ends of one codec.

ghost use Rattle.std.specs.Prelude.{◌≡◌, ◌+◌, ◌<◌, ℕ, IfOk};
ghost use Rattle.hm_message.specs.Message.{Fits};
ghost use Rattle.he_end.specs.Calls.{IsSpelled};

use hm_codec::{frame_is_of_image, write_message};
use hm_message::{Codec, Message};
use hq_resend::Frame;
use std::alloc::{AllocError, Global};
use std::marker::Model;
use std::sync::ledger::{Blank, Book, Ledger, Share};

/// Most frames have fewer bytes: for these the vector in which they are written takes its memory once.
const USUAL_FRAME: usize = 256;

/// How many messages were spelled. It takes no bytes, and only [`spell`] counts.
#[derive(Drop)]
pub struct Steps<L: Ledger> {
    book: Book<L>,
    share: Share<L>,
}

impl<L: Ledger> Model for Steps<L> {
    ghost use Rattle.std.specs.Prelude.{ℕ, ◌<◌};

    ghost Value = { ℕ };

    ghost view = { λ s. s.book.total };

    ghost invariant = { λ s. 0 < s.share.parts };
}

impl<L: Ledger> Steps<L> {
    /// No message was spelled.
    pub fn start(blank: Blank) -> Steps<L>
        requires name { blank.name ≡ L.name }
        requires parts { blank.parts ≡ L.parts }
        requires some { 0 < L.parts }
        ensures { result ≡ 0 }
    {
        let (book, share) = blank.open();
        Steps { book, share }
    }

    fn tick(&mut self)
        ensures { self.new ≡ self.old + 1 }
    {
        self.book.add(&mut self.share, 1);
    }
}

/// A message's frame in a codec, with its framing. Only [`spell`] makes one.
#[derive(Drop)]
pub struct Spelled {
    codec: Codec,
    frame: Frame,
}

impl Spelled {
    /// The codec in which it is spelled.
    pub fn codec(&self) -> Codec
        ensures { result ≡ self.now.codec }
    {
        self.codec
    }

    /// The frame, to be shared with [`End::send_shared`](crate::End::send_shared).
    pub fn frame(&self) -> &Frame
        ensures { result.now ≡ self.now.frame }
    {
        &self.frame
    }
}

/// Spells the message in this codec, in one step, also if it fails. It fails if it is out of memory, or if the codec is
/// MessagePack and the message has no spelling, or one of 2^35 bytes or more.
pub fn spell<L: Ledger>(
    alloc: Global,
    codec: Codec,
    message: &Message,
    steps: &mut Steps<L>,
) -> Result<Spelled, AllocError>
    requires { Fits message.now }
    ensures ok { IfOk result (λ spelled. IsSpelled spelled.codec message.now spelled.frame) }
    ensures codec { IfOk result (λ spelled. spelled.codec ≡ codec) }
    ensures cost { steps.new ≡ steps.old + 1 }
{
    steps.tick();
    let frame = frame_of(alloc, codec, message)?;
    Ok(Spelled { codec, frame })
}

/// The message's frame in this codec, with its framing.
pub(crate) fn frame_of(alloc: Global, codec: Codec, message: &Message) -> Result<Frame, AllocError>
    requires { Fits message.now }
    ensures { IfOk result (λ frame. IsSpelled codec message.now frame) }
{
    frame_is_of_image();
    let mut bytes = Vec::with_capacity(alloc, USUAL_FRAME)?;
    write_message(alloc, codec, message, &mut bytes)?;
    let frame = Frame::of(alloc, &bytes)?;
    Ok(frame)
}
