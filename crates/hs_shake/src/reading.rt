//! What a handshake's frame asks for or says, or why it is refused.
ghost use Rattle.std.specs.Prelude.{◌≡◌, ℕ, ℤ, pos, List, Ok, Err, Some, IfOk, IfErr, IfSome, IfNone, OnOk, option_map};
ghost use Rattle.hv_value.specs.Tree.{pairs};
ghost use Rattle.hv_value.specs.View.{tree};
ghost use Rattle.hm_message.specs.Fields.{text_in as text_of, whole_in};
ghost use Rattle.hs_shake.specs.Objects.{IsObjectOf, IsNoObject, property as property_of};
ghost use Rattle.hs_shake.specs.Refusals.{MemoryOr};
ghost use Rattle.hs_shake.specs.Requests.{Asks, WhyNot, Refuses, IsUnspoken, IsUnknown, IsVersion, protocol as protocol_of, protocol_name, version as version_of, says};
ghost use Rattle.hs_shake.specs.Responses.{Accepts, WhyNot as WhyRefused, IsAnswered, HasNoError, HasWrongError};

use crate::shake::{Shake, ShakeError};
use hm_message::{Codec, Field, text_in};
use hv_json::read_value;
use hv_value::{Entries, Text, Value};
use std::alloc::Global;

/// The object that the frame is.
fn read_object(alloc: Global, frame: &[u8]) -> Result<Entries, ShakeError>
    ensures ok { IfOk result (λ object. IsObjectOf frame.now (pairs object)) }
    ensures no_object { IfErr result (λ e. MemoryOr e (IsNoObject frame.now)) }
    ensures not_json { IfErr result (λ e. MemoryOr e (e ≡ ShakeError.NotJson)) }
{
    match read_value(alloc, frame)? {
        Value::Map(object) => Ok(object),
        _ => Err(ShakeError::NotJson),
    }
}

/// The value of the property of this field.
fn property<'a>(object: &'a Entries, field: Field) -> Option<&'a Value>
    ensures { option_map (λ v. tree v.now) result ≡ property_of field (pairs object.now) }
{
    let name = field.name();
    for (key, value) in object.pairs() {
        if name == key.as_str() {
            return Some(value);
        }
    }
    None
}

/// The value of a property that must be there.
fn needed<'a>(object: &'a Entries, field: Field) -> Result<&'a Value, ShakeError>
    ensures there { IfOk result (λ v. property_of field (pairs object.now) ≡ Some (tree v.now)) }
    ensures absent { IfErr result (λ e. property_of field (pairs object.now) ≡ None) }
    ensures missing { IfErr result (λ e. e ≡ ShakeError.Missing field) }
{
    property(object, field).ok_or(ShakeError::Missing(field))
}

/// The name of the protocol that is asked for.
fn protocol(object: &Entries) -> Result<&Text, ShakeError>
    ensures ok { IfOk result (λ s. protocol_of (pairs object.now) ≡ Ok s.now) }
    ensures err { IfErr result (λ e. protocol_of (pairs object.now) ≡ Err e) }
{
    match needed(object, Field::Protocol)? {
        Value::Text(name) => Ok(name),
        _ => Err(ShakeError::Wrong(Field::Protocol)),
    }
}

/// The version that is asked for.
fn version(object: &Entries) -> Result<i128, ShakeError>
    ensures ok { IfOk result (λ n. version_of (pairs object.now) ≡ Ok n) }
    ensures err { IfErr result (λ e. version_of (pairs object.now) ≡ Err e) }
{
    match needed(object, Field::Version)? {
        Value::Int(n) => Ok(n.get()),
        _ => Err(ShakeError::Wrong(Field::Version)),
    }
}

/// The codec whose protocol has this name.
fn codec_named(name: &str) -> Option<Codec>
    ensures some { IfSome result (λ codec. name.now ≡ protocol_name codec) }
    ensures none { IfNone result (IsUnspoken name.now) }
{
    match name {
        "json" => Some(Codec::Json),
        "messagepack" => Some(Codec::Pack),
        _ => None,
    }
}

/// The version with this number, if it is spoken.
fn version_numbered(n: i128) -> Option<u8>
    ensures number { IfSome result (λ version. n ≡ pos version) }
    ensures some { IfSome result (λ version. IsVersion version) }
    ensures none { IfNone result (IsUnknown n) }
{
    match n {
        1 => Some(1),
        2 => Some(2),
        3 => Some(3),
        _ => None,
    }
}

/// What a request of this object asks for.
fn asked(object: &Entries) -> Result<Shake, ShakeError>
    ensures protocol { IfOk result
        (λ shake. protocol_of (pairs object.now) ≡ Ok (protocol_name shake.codec)) }
    ensures version { IfOk result
        (λ shake. version_of (pairs object.now) ≡ Ok (pos shake.version)) }
    ensures spoken { IfOk result (λ shake. IsVersion shake.version) }
    ensures refused { IfErr result (λ e. Refuses (pairs object.now) e) }
{
    let name = protocol(object)?;
    let number = version(object)?;
    let Some(codec) = codec_named(name.as_str()) else {
        return Err(ShakeError::Unspoken);
    };
    let Some(version) = version_numbered(number) else {
        return Err(ShakeError::Version(number));
    };
    Ok(Shake { codec, version })
}

/// What the request asks for (HubProtocol.md, "Overview"). The frame is one JSON object in any spelling. Properties other than
/// `protocol` and `version` are ignored, and a null is no text and no number.
///
/// The refusal is the first that holds: `NotJson`, `Missing` or `Wrong` of the protocol, `Missing` or `Wrong` of the version,
/// `Unspoken`, `Version`. `NoMemory` may come at any point. The same frame is refused for the same reason each time.
pub fn read_request(alloc: Global, frame: &[u8]) -> Result<Shake, ShakeError>
    ensures asks { IfOk result (λ shake. Asks frame.now shake.codec shake.version) }
    ensures refused { IfErr result (λ e. MemoryOr e (WhyNot frame.now e)) }
    ensures answered { IfErr result (λ e. MemoryOr e (IsAnswered e)) }
{
    let object = read_object(alloc, frame)?;
    asked(&object)
}

/// What the response of this object says.
fn told(object: &Entries) -> Result<(), ShakeError>
    ensures ok { OnOk result (HasNoError (pairs object.now)) }
    ensures err { IfErr result
        (λ e. MemoryOr e ((frame : List ℕ) → IsObjectOf frame (pairs object.now) → WhyRefused frame e)) }
{
    match property(object, Field::Error) {
        None => Ok(()),
        Some(Value::Null) => Ok(()),
        Some(Value::Text(text)) => Err(ShakeError::Refused(text.copy()?)),
        Some(_) => Err(ShakeError::Wrong(Field::Error)),
    }
}

/// Whether the response takes the request (HubProtocol.md, "Overview"). The frame is one JSON object in any spelling. An
/// `error` of null counts as absent, and other properties are ignored.
///
/// `NotJson` and `Wrong` say that the frame is no response, `Refused` that the request is refused, and why. `NoMemory` may come
/// at any point.
pub fn read_response(alloc: Global, frame: &[u8]) -> Result<(), ShakeError>
    ensures taken { OnOk result (Accepts frame.now) }
    ensures refused { IfErr result (λ e. MemoryOr e (WhyRefused frame.now e)) }
{
    let object = read_object(alloc, frame)?;
    told(&object)
}
