//! What the text of an option or an argument says. This file doesn't know how `clap` found it.

ghost use Rattle.std.specs.Prelude.{◌≡◌, ◌↔◌, ℕ, List, Err, IfOk, IfErr, IsTrue};
ghost use Rattle.std.specs.List.{list_all};
ghost use Rattle.std.specs.Net.Grammar.{IsIpText};
ghost use Rattle.std.specs.declared.net.ip_addr.IpAddr.{IpAddr};
ghost use Rattle.sr_words.specs.Base.{IsBase, IsPath, is_path_byte};
ghost use Rattle.sr_words.specs.Clap.{IsNumber};
ghost use Rattle.hd_delivery.specs.declared.vocabulary.Side.{Side};
ghost use Rattle.hm_message.specs.declared.message.Codec.{Codec};
ghost use Rattle.hn_dialing.specs.Addresses.{IsAddress};
ghost use Rattle.hub_server.specs.Resend.{ResendLimits as LimitsMeant};
ghost use Rattle.hw_door.specs.declared.heard.Address.{Address};
ghost use Rattle.sr_words.specs.Lives.{IsLive};
ghost use Rattle.sr_words.specs.Resends.{IsResend};
ghost use Rattle.sr_words.specs.Words.{IsCodec, IsSide};

use crate::error::WordsError;
use hd_delivery::Side;
use hd_server::LiveLimit;
use hm_message::Codec;
use hn_dialing::{AddressError, hub_address};
use hub_server::ResendLimits;
use hv_value::Text;
use hw_door::Address;
use std::alloc::Global;
use std::net::IpAddr;

/// The port that a text says: a number up to 65,535, which may have a plus and zeros before it.
pub(crate) fn port(text: &str) -> Result<u16, WordsError>
    ensures said { IfOk result (IsNumber 16 text.now) }
    ensures none { IfErr result (λ e. (e ≡ WordsError.NoCommand)
        × ((port : ℕ) → IsNumber 16 text.now port → ⊥)) }
{
    match text.parse::<u16>() {
        Ok(port) => Ok(port),
        Err(_) => Err(WordsError::NoCommand),
    }
}

/// The number that a text says as Rust reads a `u64`: it may have a plus and zeros before it.
pub(crate) fn number(text: &str) -> Result<u64, WordsError>
    ensures said { IfOk result (IsNumber 64 text.now) }
    ensures none { IfErr result (λ e. (e ≡ WordsError.NoCommand)
        × ((n : ℕ) → IsNumber 64 text.now n → ⊥)) }
{
    match text.parse::<u64>() {
        Ok(n) => Ok(n),
        Err(_) => Err(WordsError::NoCommand),
    }
}

/// The codec that a text names.
pub(crate) fn codec(text: &str) -> Result<Codec, WordsError>
    ensures said { IfOk result (IsCodec text.now) }
    ensures none { IfErr result (λ e. (e ≡ WordsError.NoCommand)
        × ((codec : Codec) → IsCodec text.now codec → ⊥)) }
{
    match text {
        "json" => Ok(Codec::Json),
        "pack" => Ok(Codec::Pack),
        _ => Err(WordsError::NoCommand),
    }
}

/// The end that a text names.
pub(crate) fn side(text: &str) -> Result<Side, WordsError>
    ensures said { IfOk result (IsSide text.now) }
    ensures none { IfErr result (λ e. (e ≡ WordsError.NoCommand)
        × ((side : Side) → IsSide text.now side → ⊥)) }
{
    match text {
        "client" => Ok(Side::Client),
        "server" => Ok(Side::Server),
        _ => Err(WordsError::NoCommand),
    }
}

/// Whether a path may have this byte as it stands.
fn is_path_byte(byte: u8) -> bool
    ensures { result ≡ is_path_byte byte }
{
    byte > b' ' && byte < 0x7F && !b"\"#<>?\\^`{|}".contains(&byte)
}

/// Whether each of these bytes may stand in a path.
fn has_path_bytes(text: &[u8]) -> bool
    ensures { result ≡ list_all is_path_byte text.now }
{
    text.iter().all(|&byte| is_path_byte(byte))
}

/// Whether this is a path from the root that doesn't end with a slash.
fn is_path(text: &[u8]) -> bool
    ensures { IsTrue result ↔ IsPath text.now }
{
    text.first().copied() == Some(b'/')
        && text.last().copied() != Some(b'/')
        && has_path_bytes(text)
}

/// The base that a text says, which is the text itself: it begins with a slash, ends with none, and has only bytes that
/// the path of a request's target may have (RFC 9112, section 3.2, and RFC 3986, section 3.3) or brackets.
pub(crate) fn base(alloc: Global, text: &str) -> Result<Text, WordsError>
    ensures said { IfOk result (IsBase text.now) }
    ensures none { result ≡ Err WordsError.NoCommand → (base : List ℕ) → IsBase text.now base → ⊥ }
{
    if !is_path(text.as_bytes()) {
        return Err(WordsError::NoCommand);
    }
    Ok(Text::of(alloc, text)?)
}

/// The IP address of either version that a text says, without brackets. A host's name is none.
pub(crate) fn address(text: &str) -> Result<IpAddr, WordsError>
    ensures said { IfOk result (IsIpText text.now) }
    ensures none { IfErr result (λ e. (e ≡ WordsError.NoCommand)
        × ((address : IpAddr) → IsIpText text.now address → ⊥)) }
{
    match text.parse::<IpAddr>() {
        Ok(address) => Ok(address),
        Err(_) => Err(WordsError::NoCommand),
    }
}

/// Where the hub stands whose URL a text is, with this access token for each ask. `NoCommand` if the text is no URL of a hub.
pub(crate) fn hub(alloc: Global, text: &str, token: Option<Text>) -> Result<Address, WordsError>
    ensures said { IfOk result (λ address. IsAddress text.now address × (address.token ≡ token)) }
    ensures none { result ≡ Err WordsError.NoCommand → (address : Address) → IsAddress text.now address → ⊥ }
{
    match hub_address(alloc, text, token) {
        Ok(address) => Ok(address),
        Err(AddressError::NoAddress) => Err(WordsError::NoCommand),
        Err(AddressError::NoMemory) => Err(WordsError::NoMemory),
    }
}

/// How much the end of each connection is to hold by two texts: so many messages, and so many bytes. `NoCommand` if one is no
/// number, or an end can't hold so little or so much.
pub(crate) fn resend(texts: (&str, &str)) -> Result<ResendLimits, WordsError>
    ensures said { IfOk result (IsResend (texts.entry.0.now, texts.entry.1.now)) }
    ensures none { result ≡ Err WordsError.NoCommand
        → (resend : LimitsMeant) → IsResend (texts.entry.0.now, texts.entry.1.now) resend → ⊥ }
{
    let count = number(texts.0)? as usize;
    let bytes = number(texts.1)? as usize;
    match ResendLimits::of(count, bytes) {
        Some(resend) => Ok(resend),
        None => Err(WordsError::NoCommand),
    }
}

/// How many connections may live by a text. `NoCommand` if it is no number, or none from 1 to 10,000.
pub(crate) fn live(text: &str) -> Result<LiveLimit, WordsError>
    ensures said { IfOk result (IsLive text.now) }
    ensures none { IfErr result (λ e. (e ≡ WordsError.NoCommand)
        × ((live : ℕ) → IsLive text.now live → ⊥)) }
{
    match LiveLimit::of(number(text)?) {
        Some(live) => Ok(live),
        None => Err(WordsError::NoCommand),
    }
}
