//! The first line of a trace: how the two ends of its session are begun.

ghost use Rattle.std.specs.Prelude.{◌≡◌, ◌++◌, ◌∷◌, Bool, IfOk, IfSome, IfNone, codes};
ghost use Rattle.hm_message.specs.declared.message.Codec.{Codec};
ghost use Rattle.sr_notation.specs.Words.{IsWord};
ghost use Rattle.ha_audit.specs.declared.head.Head.{Head};
ghost use Rattle.ha_audit.specs.Grammar.{IsHead, codec_word, head_words, switch_word};

use hd_delivery::Limits;
use hm_message::Codec;
use sr_notation::{parse_buffer, parse_version, split_at_space, words_are_cut_once};
use std::alloc::{AllocError, Global};

/// How the two ends of a session are begun, both alike.
#[derive(Clone, Copy, Debug, PartialEq, Eq)]
pub struct Head {
    /// The codec that the client asks for.
    pub codec: Codec,
    /// The version that the client asks for, 1 to 3.
    pub version: u8,
    /// Whether the connection is to be kept across links.
    pub reconnect: bool,
    /// What each end may hold and read.
    pub limits: Limits,
}

/// The codec that this word names.
fn codec_named(word: &[u8]) -> Option<Codec>
    ensures found { IfSome result (λ codec. word.now ≡ codec_word codec) }
    ensures none { IfNone result ((codec : Codec) → word.now ≡ codec_word codec → ⊥) }
{
    if word == b"json".as_slice() {
        return Some(Codec::Json);
    }
    if word == b"pack".as_slice() {
        return Some(Codec::Pack);
    }
    None
}

/// What this word says of a switch.
fn switch_named(word: &[u8]) -> Option<bool>
    ensures found { IfSome result (λ on. word.now ≡ switch_word on) }
    ensures none { IfNone result ((on : Bool) → word.now ≡ switch_word on → ⊥) }
{
    if word == b"on".as_slice() {
        return Some(true);
    }
    if word == b"off".as_slice() {
        return Some(false);
    }
    None
}

/// The words of a head after its first one: those of the codec, of the version, of the switch and of the limits.
fn head_parts(words: &[u8]) -> Option<(&[u8], &[u8], &[u8], &[u8])>
    ensures found { IfSome result (λ parts. IsWord parts.0.now × IsWord parts.1.now × IsWord parts.2.now × (words.now ≡
        codes "trace " ++ (parts.0.now ++ 32 ∷ (parts.1.now ++ 32 ∷ (parts.2.now ++ 32 ∷ parts.3.now))))) }
    ensures none { IfNone result ((head : Head) → IsHead head → words.now ≡ head_words head → ⊥) }
{
    words_are_cut_once();
    let rest = words.strip_prefix(b"trace ")?;
    let (codec, rest) = split_at_space(rest)?;
    let (version, rest) = split_at_space(rest)?;
    let (switch, limits) = split_at_space(rest)?;
    Some((codec, version, switch, limits))
}

/// The head whose words these are, or `None` if they are those of none.
pub(crate) fn parse_head(alloc: Global, words: &[u8]) -> Result<Option<Head>, AllocError>
    ensures found { IfOk result (λ r. IfSome r (λ head. (words.now ≡ head_words head) × IsHead head)) }
    ensures none { IfOk result (λ r. IfNone r ((head : Head) → IsHead head → words.now ≡ head_words head → ⊥)) }
{
    words_are_cut_once();
    let Some((codec, version, switch, limits)) = head_parts(words) else {
        return Ok(None);
    };
    let Some(codec) = codec_named(codec) else {
        return Ok(None);
    };
    let Some(version) = parse_version(alloc, version)? else {
        return Ok(None);
    };
    let Some(reconnect) = switch_named(switch) else {
        return Ok(None);
    };
    let Some(limits) = parse_buffer(alloc, limits)? else {
        return Ok(None);
    };
    Ok(Some(Head {
        codec,
        version,
        reconnect,
        limits,
    }))
}
