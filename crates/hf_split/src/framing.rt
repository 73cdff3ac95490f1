//! How a frame stands on a stream: before a separator, or after its length. Puts frames onto a stream.

ghost use Rattle.std.specs.Prelude.{◌≡◌, ◌<◌, ◌++◌, length, OnOk, OnErr};
ghost use Rattle.hf_split.specs.VarInts.{var_int_bound};
ghost use Rattle.hf_split.specs.Cuts.{IsPlain, CanWrap, wrapped};

use crate::var_int::{LONGEST_VAR_INT, put_shortest};
use std::alloc::AllocError;

/// The byte that ends a frame in `Framing::Record`: the record separator, 1E.
pub const SEPARATOR: u8 = 0x1e;

/// How frames stand on a stream.
#[derive(Clone, Copy, Debug, PartialEq, Eq)]
pub enum Framing {
    /// Each frame is followed by the record separator, the byte 1E, and holds none itself
    /// (HubProtocol.md, "Text-based encodings").
    Record,
    /// Each frame follows its length in bytes, a VarInt: 7 bits a byte, the lowest first, the top bit set on all but the
    /// last, five bytes at most (HubProtocol.md, "MessagePack (MsgPack) encoding"). A length is read in every such
    /// spelling, and written in the shortest.
    Length,
}

/// Appends the body and a separator.
fn wrap_record(body: &[u8], out: &mut Vec<u8>) -> Result<(), AllocError>
    requires { IsPlain body.now }
    ensures ok { OnOk result (out.new.items ≡ out.old.items ++ (wrapped Framing.Record body.now).spelling) }
    ensures err { OnErr result (out.new.items ≡ out.old.items) }
{
    out.reserve(body.len() + 1)?;
    out.extend_from_slice(body)?;
    out.push(SEPARATOR)?;
    Ok(())
}

/// Appends the shortest length of the body, and the body.
fn wrap_length(body: &[u8], out: &mut Vec<u8>) -> Result<(), AllocError>
    requires { length body.now < var_int_bound }
    ensures ok { OnOk result (out.new.items ≡ out.old.items ++ (wrapped Framing.Length body.now).spelling) }
    ensures err { OnErr result (out.new.items ≡ out.old.items) }
{
    out.reserve(LONGEST_VAR_INT + body.len())?;
    put_shortest(body.len(), out);
    out.extend_from_slice(body).unwrap();
    Ok(())
}

/// Appends the body as it stands on a stream. It fails if it is out of memory, and `out` is then as before.
pub fn wrap(framing: Framing, body: &[u8], out: &mut Vec<u8>) -> Result<(), AllocError>
    requires { CanWrap framing body.now }
    ensures ok { OnOk result (out.new.items ≡ out.old.items ++ (wrapped framing body.now).spelling) }
    ensures err { OnErr result (out.new.items ≡ out.old.items) }
{
    match framing {
        Framing::Record => wrap_record(body, out),
        Framing::Length => wrap_length(body, out),
    }
}
