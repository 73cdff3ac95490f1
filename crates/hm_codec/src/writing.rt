//! A message as a frame in either codec, with the framing that it has on a stream.
ghost use Rattle.std.specs.Prelude.{◌≡◌, ◌++◌, OnOk, OnErr};
ghost use Rattle.hf_split.specs.Cuts.{CanWrap};
ghost use Rattle.hm_message.specs.Message.{Fits};
ghost use Rattle.hm_codec.specs.Frames.{Says, framing_of, frame_of, framed, said_again, HasSpelling};

use hf_split::{Framing, wrap};
use hm_json::write_message as write_json;
use hm_message::{Codec, Message};
use hm_pack::write_message as write_pack;
use hv_json::text_has_no_control;
use std::alloc::{AllocError, Global};

/// A length prefix has five bytes of 7 bits, so a frame of this many bytes, 2^35, or more has none.
const UNFRAMED: usize = 34359738368;

/// How the frames of this codec stand on a stream: each JSON frame ends with the record separator, each MessagePack
/// frame begins with its length (HubProtocol.md, "Text-based encodings" and "MessagePack (MsgPack) encoding").
pub fn framing(codec: Codec) -> Framing
    ensures { result ≡ framing_of codec }
{
    match codec {
        Codec::Json => Framing::Record,
        Codec::Pack => Framing::Length,
    }
}

fn put_json(alloc: Global, message: &Message, out: &mut Vec<u8>) -> Result<(), AllocError>
    requires { Fits message.now }
    ensures ok { OnOk result (out.new.items ≡ out.old.items ++ framed Codec.Json message.now) }
    ensures again { OnOk result (Says Codec.Json (frame_of Codec.Json message.now) (said_again Codec.Json message.now)) }
    ensures wrapped { OnOk result (CanWrap (framing_of Codec.Json) (frame_of Codec.Json message.now)) }
    ensures err { OnErr result (out.new.items ≡ out.old.items) }
{
    let before = out.len();
    write_json(alloc, message, out)?;
    // So no separator stands in it.
    text_has_no_control();
    // What an empty frame has on a stream is the separator, which ends this frame.
    if wrap(Framing::Record, b"", out).is_err() {
        out.truncate(before);
        return Err(AllocError);
    }
    Ok(())
}

fn put_pack(
    alloc: Global,
    message: &Message,
    body: &mut Vec<u8>,
    out: &mut Vec<u8>,
) -> Result<(), AllocError>
    requires { Fits message.now }
    ensures ok { OnOk result (out.new.items ≡ out.old.items ++ framed Codec.Pack message.now) }
    ensures again { OnOk result (Says Codec.Pack (frame_of Codec.Pack message.now) (said_again Codec.Pack message.now)) }
    ensures wrapped { OnOk result (CanWrap (framing_of Codec.Pack) (frame_of Codec.Pack message.now)) }
    ensures spelled { OnOk result (HasSpelling Codec.Pack message.now) }
    ensures err { OnErr result (out.new.items ≡ out.old.items) }
{
    body.clear();
    write_pack(alloc, message, body)?;
    if body.len() >= UNFRAMED {
        return Err(AllocError);
    }
    wrap(Framing::Length, body, out)?;
    Ok(())
}

/// [`write_message`] for whoever writes many: `body` is memory that one call leaves to the next. What it holds counts
/// for nothing, before and after.
pub fn write_message_in(
    alloc: Global,
    codec: Codec,
    message: &Message,
    body: &mut Vec<u8>,
    out: &mut Vec<u8>,
) -> Result<(), AllocError>
    requires { Fits message.now }
    ensures ok { OnOk result (out.new.items ≡ out.old.items ++ framed codec message.now) }
    ensures again { OnOk result (Says codec (frame_of codec message.now) (said_again codec message.now)) }
    ensures wrapped { OnOk result (CanWrap (framing_of codec) (frame_of codec message.now)) }
    ensures spelled { OnOk result (HasSpelling codec message.now) }
    ensures err { OnErr result (out.new.items ≡ out.old.items) }
{
    match codec {
        Codec::Json => put_json(alloc, message, out),
        Codec::Pack => put_pack(alloc, message, body, out),
    }
}

/// Appends the message's frame in this codec as it stands on a stream, with its framing.
///
/// When out of memory `out` holds what it held. A MessagePack frame of 2^35 bytes or more has no length prefix, and is
/// answered as out of memory; so is one whose parts have no spelling, of 2^32 bytes, values or pairs or more.
pub fn write_message(
    alloc: Global,
    codec: Codec,
    message: &Message,
    out: &mut Vec<u8>,
) -> Result<(), AllocError>
    requires { Fits message.now }
    ensures ok { OnOk result (out.new.items ≡ out.old.items ++ framed codec message.now) }
    // The frame says the message again, in JSON with each of its bytes as the text of their base64.
    ensures again { OnOk result (Says codec (frame_of codec message.now) (said_again codec message.now)) }
    ensures wrapped { OnOk result (CanWrap (framing_of codec) (frame_of codec message.now)) }
    ensures spelled { OnOk result (HasSpelling codec message.now) }
    ensures err { OnErr result (out.new.items ≡ out.old.items) }
{
    let mut body = Vec::new(alloc);
    write_message_in(alloc, codec, message, &mut body, out)
}
