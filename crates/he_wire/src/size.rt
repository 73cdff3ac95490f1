//! How long a frame is without its framing.
ghost use Rattle.std.specs.Prelude.{◌≡◌, ◌<◌, ℕ, List, ◌++◌, ◌∷◌, length};
ghost use Rattle.std.specs.List.{All};
ghost use Rattle.hf_split.specs.Cuts.{CanWrap, wrapped};
ghost use Rattle.hf_split.specs.VarInts.{HasMore};
ghost use Rattle.hm_codec.specs.Frames.{framing_of};

use hf_split::wrapped_begins;
use hm_message::Codec;

/// How many bytes come after a length, of which each byte but the last has its top bit set.
fn size_after_length(framed: &[u8]) -> usize
    ensures { (front frame : List ℕ) (last : ℕ) → All HasMore front → last < 128 → framed.now ≡ front ++ last ∷ frame →
        result ≡ length frame }
{
    for i in 0..framed.len() {
        if framed[i] < 128 {
            return framed.len() - 1 - i;
        }
    }
    0
}

/// The size of a frame without its framing, in bytes, from the bytes that [`hm_codec::write_message`] appends for it. Of other
/// bytes the answer says nothing.
pub fn unframed_size(codec: Codec, framed: &[u8]) -> usize
    ensures { (frame : List ℕ) → CanWrap (framing_of codec) frame →
        framed.now ≡ (wrapped (framing_of codec) frame).spelling → result ≡ length frame }
{
    match codec {
        Codec::Json => framed.len().saturating_sub(1),
        Codec::Pack => {
            wrapped_begins();
            size_after_length(framed)
        }
    }
}
