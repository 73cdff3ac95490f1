//! What the body of the response to a negotiate tells.

ghost use Rattle.std.specs.Prelude.{◌≡◌, IfOk, false, not, option_and_then, option_map, unwrap_or, if◌then◌else◌};
ghost use Rattle.serde_json.specs.Find.{as_bool, as_str, get};
ghost use Rattle.serde_json.specs.View.{view};
ghost use Rattle.hv_json.specs.Reading.{json};
ghost use Rattle.hd_dialing.specs.Bodies.{told_by, told_in};
ghost use Rattle.hn_dialing.specs.Stands.{tells_with, told_of};

use hv_value::Text;
use serde_json::Value as Json;
use std::alloc::{AllocError, Global};

/// What the response to a negotiate told.
#[derive(Drop)]
pub struct Granted {
    /// The token of the connection.
    pub(crate) token: Text,
    /// The connection is kept across its links.
    pub(crate) reconnect: bool,
}

/// The JSON that the bytes are.
fn parse(alloc: Global, bytes: &[u8]) -> Result<Option<Json>, AllocError>
    ensures { IfOk result (λ read. option_map view read ≡ json bytes.now) }
{
    match Json::from_slice(alloc, bytes) {
        Ok(json) => Ok(Some(json)),
        Err(e) => {
            if e.is_memory() {
                return Err(AllocError);
            }
            Ok(None)
        }
    }
}

/// The text of a member of an object, if there is one.
fn text_in<'a>(json: &'a Json, name: &str) -> Option<&'a str>
    ensures { option_map (λ text. text.now) result ≡ option_and_then as_str (get name.now (view json.now)) }
{
    json.get(name).and_then(Json::as_str)
}

/// Whether a member of an object is `true`.
fn is_true_in(json: &Json, name: &str) -> bool
    ensures { result ≡ unwrap_or (option_and_then as_bool (get name.now (view json.now))) false }
{
    json.get(name).and_then(Json::as_bool).unwrap_or(false)
}

/// What an object tells.
fn told_in_json(alloc: Global, json: &Json) -> Result<Option<Granted>, AllocError>
    ensures { IfOk result (λ told. option_map told_of told ≡ told_in (view json.now)) }
{
    let reconnect = is_true_in(json, "useStatefulReconnect");
    match text_in(json, "connectionToken") {
        Some(token) => {
            let token = Text::of(alloc, token)?;
            Ok(Some(Granted { token, reconnect }))
        }
        None => Ok(None),
    }
}

/// What a body tells: nothing, unless it is JSON of an object with a token that is a text.
fn told_in_body(alloc: Global, body: &[u8]) -> Result<Option<Granted>, AllocError>
    ensures { IfOk result (λ told. option_map told_of told ≡ told_by body.now) }
{
    match parse(alloc, body)? {
        Some(json) => told_in_json(alloc, &json),
        None => Ok(None),
    }
}

/// The grant is the one that was asked for.
fn is_as_asked(asked: bool, granted: bool) -> bool
    ensures { result ≡ (if asked then granted else not granted) }
{
    if asked { granted } else { !granted }
}

/// The same, and with `strict` nothing but with the grant that was asked for.
pub(crate) fn told(
    alloc: Global,
    strict: bool,
    reconnect: bool,
    body: &[u8],
) -> Result<Option<Granted>, AllocError>
    ensures { IfOk result (λ told. option_map told_of told ≡ tells_with strict reconnect body.now) }
{
    let Some(granted) = told_in_body(alloc, body)? else {
        return Ok(None);
    };
    if strict {
        if !is_as_asked(reconnect, granted.reconnect) {
            return Ok(None);
        }
    }
    Ok(Some(granted))
}
