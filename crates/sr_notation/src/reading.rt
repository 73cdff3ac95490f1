//! What words ask for: numbers, and the options of an end, each by its line. It doesn't know which options may come together.

ghost use Rattle.std.specs.Prelude.{◌≡◌, ◌<◌, ◌^◌, ℕ, ◌∷◌, ◌++◌, IfOk, IfSome, IfNone};
ghost use Rattle.std.specs.Fmt.{decimal};
ghost use Rattle.hd_facts.specs.Unique.{IsTheOne};
ghost use Rattle.hs_shake.specs.Requests.{IsVersion};
ghost use Rattle.hd_delivery.specs.Worlds.{Limits};
ghost use Rattle.hd_delivery.specs.Bounds.{AreLimits};
ghost use Rattle.sr_notation.specs.declared.setting.Setting.{Setting};
ghost use Rattle.sr_notation.specs.Settings.{buffer_words, IsOption};
ghost use Rattle.sr_notation.specs.Words.{IsWord};

use crate::setting::Setting;
use hd_delivery::Limits;
use hm_message::Codec;
use hs_shake::HIGHEST_VERSION;
use std::alloc::{AllocError, Global};

/// The number whose digits these are, or `None` if they have needless zeros or it isn't below 2^64. Fails if memory runs out.
pub fn parse_number(alloc: Global, digits: &[u8]) -> Result<Option<u64>, AllocError>
    ensures found { IfOk result (λ r. IfSome r (λ n. (digits.now ≡ decimal n) × (n < 2 ^ 64))) }
    ensures none { IfOk result (λ r. IfNone r ((n : ℕ) → n < 2 ^ 64 → digits.now ≡ decimal n → ⊥)) }
{
    let Ok(text) = str::from_utf8(digits) else {
        return Ok(None);
    };
    let Ok(n) = text.parse::<u64>() else {
        return Ok(None);
    };
    let printed = n.to_string(alloc)?;
    if printed.as_bytes() == digits {
        Ok(Some(n))
    } else {
        Ok(None)
    }
}

/// The bytes before the first space, and those after it, or `None` if there is no space.
pub fn split_at_space(bytes: &[u8]) -> Option<(&[u8], &[u8])>
    ensures found { IfSome result (λ parts. IsWord parts.0.now × (bytes.now ≡ parts.0.now ++ 32 ∷ parts.1.now)) }
    ensures none { IfNone result (IsWord bytes.now) }
{
    for (i, byte) in bytes.iter().enumerate() {
        if *byte == b' ' {
            return Some((&bytes[..i], &bytes[i + 1..]));
        }
    }
    None
}

/// The limits whose count, bytes and frame these words are, or `None` if they aren't three numbers in range. Fails if memory runs out.
pub fn parse_buffer(alloc: Global, words: &[u8]) -> Result<Option<Limits>, AllocError>
    ensures found { IfOk result (λ r. IfSome r (λ limits. (words.now ≡ buffer_words limits) × AreLimits limits)) }
    ensures none { IfOk result (λ r. IfNone r ((limits : Limits) → AreLimits limits → words.now ≡ buffer_words limits → ⊥)) }
{
    let Some((count, rest)) = split_at_space(words) else {
        return Ok(None);
    };
    let Some((bytes, frame)) = split_at_space(rest) else {
        return Ok(None);
    };
    let Some(count) = parse_number(alloc, count)? else {
        return Ok(None);
    };
    let Some(bytes) = parse_number(alloc, bytes)? else {
        return Ok(None);
    };
    let Some(frame) = parse_number(alloc, frame)? else {
        return Ok(None);
    };
    Ok(Limits::of(frame as usize, count as usize, bytes as usize))
}

/// The version whose digits these are, or `None` if there is no such version. Fails if memory runs out.
pub fn parse_version(alloc: Global, digits: &[u8]) -> Result<Option<u8>, AllocError>
    ensures found { IfOk result (λ r. IfSome r (λ version. (digits.now ≡ decimal version) × IsVersion version)) }
    ensures none { IfOk result (λ r. IfNone r ((version : ℕ) → IsVersion version → digits.now ≡ decimal version → ⊥)) }
{
    let Some(version) = parse_number(alloc, digits)? else {
        return Ok(None);
    };
    if 1 <= version && version <= u64::from(HIGHEST_VERSION) {
        Ok(Some(version as u8))
    } else {
        Ok(None)
    }
}

/// The option that a line, given without its LF, asks for, or `None` if it asks for none whose numbers are in range. Fails if memory runs out.
pub fn parse_setting(alloc: Global, line: &[u8]) -> Result<Option<Setting>, AllocError>
    ensures found { IfOk result (λ r. IfSome r (λ s. IsTheOne (IsOption line.now) s)) }
    ensures none { IfOk result (λ r. IfNone r ((s : Setting) → IsOption line.now s → ⊥)) }
{
    if line == b"codec json".as_slice() {
        return Ok(Some(Setting::Codec(Codec::Json)));
    }
    if line == b"codec pack".as_slice() {
        return Ok(Some(Setting::Codec(Codec::Pack)));
    }
    if line == b"reconnect on".as_slice() {
        return Ok(Some(Setting::Reconnect(true)));
    }
    if line == b"reconnect off".as_slice() {
        return Ok(Some(Setting::Reconnect(false)));
    }
    if line == b"peers on".as_slice() {
        return Ok(Some(Setting::Peers));
    }
    if let Some(digits) = line.strip_prefix(b"version ") {
        return match parse_version(alloc, digits)? {
            Some(version) => Ok(Some(Setting::Version(version))),
            None => Ok(None),
        };
    }
    if let Some(words) = line.strip_prefix(b"buffer ") {
        return match parse_buffer(alloc, words)? {
            Some(limits) => Ok(Some(Setting::Buffer(limits))),
            None => Ok(None),
        };
    }
    Ok(None)
}
