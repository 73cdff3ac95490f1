//! What the bytes of a link begin with, as a splitter holds them: the handshake first, then hub messages.
ghost use Rattle.std.specs.Prelude.{◌≡◌, IfOk, IfErr, IfSome};
ghost use Rattle.hf_split.specs.declared.framing.Framing.TheVariants.{Record};
ghost use Rattle.hm_message.specs.Message.{Fits};
ghost use Rattle.hm_message.specs.Reads.{MessageIs};
ghost use Rattle.hm_codec.specs.Frames.{framing_of};
ghost use Rattle.hs_shake.specs.Refusals.{MemoryOr};
ghost use Rattle.he_wire.specs.Gives.{Begins, GivesLater, GivesFirst, TellsWireLater, TellsWireFirst, IsHandshake, IsNoHandshake};

use crate::laws::reads_once;
use hd_delivery::Side;
use hf_split::{SplitFault, Splitter};
use hm_codec::{FrameError, FrameWhy, read_message_in};
use hm_message::{Codec, Read};
use hs_shake::{Shake, ShakeError, read_request, read_response};
use json::Scratch;
use std::alloc::Global;
use std::error::Error;
use std::fmt;

/// Why no hub message was read. `why` has the words of a report.
#[derive(Clone, Copy, Debug, PartialEq, Eq)]
pub enum LinkFault {
    /// At this place of the link no frame can begin, or one begins that is refused. It is refused for this reason each time.
    Refused { at: u64, why: FrameWhy },
    /// Out of memory. What the bytes say is not known.
    NoMemory,
}

/// The first frame of a first link.
#[derive(Clone, Copy, Debug, PartialEq, Eq)]
pub enum Handshake {
    /// What a server reads: a client asks for this codec and version.
    Request(Shake),
    /// What a client reads: the server took the request.
    Response,
}

/// Why no handshake was read.
#[derive(Drop, PartialEq, Eq)]
pub enum HandshakeFault {
    /// No frame can begin there.
    Split(SplitFault),
    /// The first frame is refused as a handshake, for this reason each time. It is never `ShakeError::NoMemory`.
    Shake(ShakeError),
    /// Out of memory. What the bytes say is not known.
    NoMemory,
}

impl fmt::Display for LinkFault {
    ghost use Rattle.std.specs.Prelude.{Some};
    ghost use Rattle.he_wire.specs.Words.{link_words};

    ghost output = { λ error. Some (link_words error) };

    fn fmt<W: fmt::Write>(&self, f: &mut fmt::Formatter<W>) -> fmt::Result {
        match self {
            LinkFault::Refused { at, why } => write!(f, "Refused {at} {why}"),
            LinkFault::NoMemory => f.write_str("out of memory"),
        }
    }
}

impl Error for LinkFault {}

impl fmt::Display for HandshakeFault {
    ghost use Rattle.std.specs.Prelude.{Some};
    ghost use Rattle.he_wire.specs.Words.{handshake_words};

    ghost output = { λ error. Some (handshake_words error) };

    fn fmt<W: fmt::Write>(&self, f: &mut fmt::Formatter<W>) -> fmt::Result {
        match self {
            HandshakeFault::Split(fault) => write!(f, "{fault}"),
            HandshakeFault::Shake(e) => write!(f, "{e}"),
            HandshakeFault::NoMemory => f.write_str("out of memory"),
        }
    }
}

/// The words of `Display`: `Text` has no `Debug`.
impl fmt::Debug for HandshakeFault {
    fn fmt<W: fmt::Write>(&self, f: &mut fmt::Formatter<W>) -> fmt::Result {
        write!(f, "{self}")
    }
}

impl Error for HandshakeFault {}

impl From<SplitFault> for HandshakeFault {
    ghost use Rattle.std.specs.Prelude.{◌≡◌};
    ghost use Rattle.he_wire.specs.declared.reading.HandshakeFault.TheVariants.{Split};

    ghost from_gives = { λ e fault. fault ≡ Split e };

    fn from(e: SplitFault) -> HandshakeFault {
        HandshakeFault::Split(e)
    }
}

impl From<ShakeError> for HandshakeFault {
    ghost use Rattle.std.specs.Prelude.{◌≡◌};
    ghost use Rattle.he_wire.specs.Faults.{of_shake};

    ghost from_gives = { λ e fault. fault ≡ of_shake e };

    fn from(e: ShakeError) -> HandshakeFault {
        match e {
            ShakeError::NoMemory => HandshakeFault::NoMemory,
            e => HandshakeFault::Shake(e),
        }
    }
}

/// The hub message that comes next on a link, which stays there until [`Splitter::pass`]. `None` waits for more bytes.
///
/// The splitter cuts in the codec's framing, else nothing is said of the answer. A place is a number of bytes of the link, as
/// [`Splitter::place`] gives it. After `NoMemory` the same call may succeed.
///
/// `scratch` is the memory of the reader of JSON. What it holds counts for nothing, so one serves all links of a thread; it keeps
/// room for the longest frame that was read with it.
pub fn read_wire_message(
    alloc: Global,
    codec: Codec,
    scratch: &mut Scratch,
    splitter: &Splitter,
) -> Result<Option<Read>, LinkFault>
    ensures reads { splitter.now.framing ≡ framing_of codec → GivesLater codec splitter.now result }
    ensures told { splitter.now.framing ≡ framing_of codec → TellsWireLater codec splitter.now result }
    ensures fits { IfOk result (λ next. IfSome next (λ read. MessageIs read Fits)) }
    ensures begins { IfOk result (λ next. IfSome next (λ _. Begins splitter.now)) }
{
    reads_once();
    let at = splitter.place();
    match splitter.frame() {
        Ok(None) => Ok(None),
        Ok(Some((_, frame))) => match read_message_in(alloc, codec, scratch, frame) {
            Ok(read) => Ok(Some(read)),
            Err(FrameError::Refused(why)) => Err(LinkFault::Refused { at, why }),
            Err(FrameError::NoMemory) => Err(LinkFault::NoMemory),
        },
        Err(fault) => Err(LinkFault::Refused {
            at,
            why: FrameWhy::Split(fault),
        }),
    }
}

/// What this side makes of the first frame.
fn read_shaken(alloc: Global, side: Side, frame: &[u8]) -> Result<Handshake, ShakeError>
    ensures ok { IfOk result (λ handshake. IsHandshake side handshake frame.now) }
    ensures refused { IfErr result (λ e. MemoryOr e (IsNoHandshake side e frame.now)) }
{
    match side {
        Side::Client => {
            read_response(alloc, frame)?;
            Ok(Handshake::Response)
        }
        Side::Server => Ok(Handshake::Request(read_request(alloc, frame)?)),
    }
}

/// The handshake that begins a first link, which stays there until [`Splitter::pass`]: at a server the request, at a client the
/// response (HubProtocol.md, "Overview"). `None` waits for more bytes.
///
/// The splitter cuts in `Framing::Record`, else nothing is said of the answer. After `NoMemory` the same call may succeed.
pub fn read_handshake(
    alloc: Global,
    side: Side,
    splitter: &Splitter,
) -> Result<Option<Handshake>, HandshakeFault>
    ensures reads { splitter.now.framing ≡ Record → GivesFirst side splitter.now result }
    ensures told { splitter.now.framing ≡ Record → TellsWireFirst side splitter.now result }
    ensures begins { IfOk result (λ next. IfSome next (λ _. Begins splitter.now)) }
{
    reads_once();
    let Some((_, frame)) = splitter.frame()? else {
        return Ok(None);
    };
    Ok(Some(read_shaken(alloc, side, frame)?))
}
