//! What a frame says in either codec.
ghost use Rattle.std.specs.Prelude.{IfOk, IfErr};
ghost use Rattle.hm_message.specs.Message.{Fits};
ghost use Rattle.hm_message.specs.Reads.{MessageIs, UnknownIs};
ghost use Rattle.hm_codec.specs.Frames.{Says, Unknown, Why};
ghost use Rattle.hm_codec.specs.Refusals.{IsRefusedFor};

use crate::why::FrameError;
use hm_json::{read_message as read_json, read_message_in as read_json_in};
use hm_message::{Codec, Read};
use hm_pack::read_message as read_pack;
use json::Scratch;
use std::alloc::Global;

fn read_json_message(alloc: Global, frame: &[u8]) -> Result<Read, FrameError>
    ensures message { IfOk result (λ r. MessageIs r (λ m. Says Codec.Json frame.now m × Fits m)) }
    ensures unknown { IfOk result (λ r. UnknownIs r (λ n. Unknown Codec.Json frame.now n)) }
    ensures refused { IfErr result (λ e. IsRefusedFor e (Why Codec.Json frame.now)) }
{
    Ok(read_json(alloc, frame)?)
}

fn read_json_message_in(
    alloc: Global,
    scratch: &mut Scratch,
    frame: &[u8],
) -> Result<Read, FrameError>
    ensures message { IfOk result (λ r. MessageIs r (λ m. Says Codec.Json frame.now m × Fits m)) }
    ensures unknown { IfOk result (λ r. UnknownIs r (λ n. Unknown Codec.Json frame.now n)) }
    ensures refused { IfErr result (λ e. IsRefusedFor e (Why Codec.Json frame.now)) }
{
    Ok(read_json_in(alloc, scratch, frame)?)
}

fn read_pack_message(alloc: Global, frame: &[u8]) -> Result<Read, FrameError>
    ensures message { IfOk result (λ r. MessageIs r (λ m. Says Codec.Pack frame.now m × Fits m)) }
    ensures unknown { IfOk result (λ r. UnknownIs r (λ n. Unknown Codec.Pack frame.now n)) }
    ensures refused { IfErr result (λ e. IsRefusedFor e (Why Codec.Pack frame.now)) }
{
    Ok(read_pack(alloc, frame)?)
}

/// What a frame says in this codec, without its framing: a message, which can be written again in either codec, or the
/// number of a type that no message has (HubProtocol.md, "JSON Encoding" and "MessagePack (MsgPack) encoding").
///
/// `Refused` has the one reason for which the frame is no message. `NoMemory` may come at any point.
pub fn read_message(alloc: Global, codec: Codec, frame: &[u8]) -> Result<Read, FrameError>
    ensures message { IfOk result (λ r. MessageIs r (λ m. Says codec frame.now m × Fits m)) }
    ensures unknown { IfOk result (λ r. UnknownIs r (λ n. Unknown codec frame.now n)) }
    ensures refused { IfErr result (λ e. IsRefusedFor e (Why codec frame.now)) }
{
    match codec {
        Codec::Json => read_json_message(alloc, frame),
        Codec::Pack => read_pack_message(alloc, frame),
    }
}

/// [`read_message`] for whoever reads many frames: the reader of JSON keeps its memory in `scratch` from one frame to the
/// next. What it holds counts for nothing, before and after.
pub fn read_message_in(
    alloc: Global,
    codec: Codec,
    scratch: &mut Scratch,
    frame: &[u8],
) -> Result<Read, FrameError>
    ensures message { IfOk result (λ r. MessageIs r (λ m. Says codec frame.now m × Fits m)) }
    ensures unknown { IfOk result (λ r. UnknownIs r (λ n. Unknown codec frame.now n)) }
    ensures refused { IfErr result (λ e. IsRefusedFor e (Why codec frame.now)) }
{
    match codec {
        Codec::Json => read_json_message_in(alloc, scratch, frame),
        Codec::Pack => read_pack_message(alloc, frame),
    }
}
