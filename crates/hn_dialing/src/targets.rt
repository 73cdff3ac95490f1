//! The targets of asks.

ghost use Rattle.std.specs.Prelude.{◌≡◌, ◌++◌, [], ◌∷◌, IfOk, OnOk, string_bytes, if◌then◌else◌};
ghost use Rattle.form_urlencoded.specs.Form.{byte_serialize as serialized};
ghost use Rattle.hd_dialing.specs.Asks as spec;
ghost use Rattle.hn_dialing.specs.Stands.{setup_of};

use crate::setup::DialSetup;
use form_urlencoded::byte_serialize;
use hv_value::Text;
use std::alloc::{AllocError, Global};

const NEGOTIATE: &str = "negotiate?negotiateVersion=1";

const RECONNECT: &str = "&useStatefulReconnect=true";

const ACCESS: &str = "&access_token=";

const ID: &str = "?id=";

/// Appends the bytes of a text, escaped as in a form.
fn put_serialized(out: &mut String, text: &str) -> Result<(), AllocError>
    ensures { OnOk result (string_bytes out.new ≡ string_bytes out.old ++ serialized text.now) }
{
    for piece in byte_serialize(text.as_bytes()) {
        out.push_str(piece)?;
    }
    Ok(())
}

/// Appends the pair of the access token, if there is one.
fn put_access(out: &mut String, access: &Option<Text>) -> Result<(), AllocError>
    ensures { OnOk result (string_bytes out.new ≡ string_bytes out.old ++ spec.access_pair access.now) }
{
    match access {
        Some(access) => {
            out.push_str(ACCESS)?;
            put_serialized(out, access.as_str())
        }
        None => Ok(()),
    }
}

/// A slash, unless the path ends with one.
fn slash_after(path: &str) -> &'static str
    ensures { result.now ≡ (if spec.ends_with_slash path.now then [] else spec.slash ∷ []) }
{
    if path.as_bytes().ends_with(b"/") {
        ""
    } else {
        "/"
    }
}

/// The pair that asks for a connection that is kept.
fn reconnect_pair(reconnect: bool) -> &'static str
    ensures { result.now ≡ spec.reconnect_pair reconnect }
{
    if reconnect { RECONNECT } else { "" }
}

/// The target of the ask for a token.
pub(crate) fn negotiate_target(alloc: Global, setup: &DialSetup) -> Result<String, AllocError>
    ensures { IfOk result (λ target. string_bytes target ≡ spec.negotiate_target (setup_of setup.now)) }
{
    let path = setup.path.as_str();
    let mut target = String::from_str(alloc, path)?;
    target.push_str(slash_after(path))?;
    target.push_str(NEGOTIATE)?;
    target.push_str(reconnect_pair(setup.reconnect))?;
    put_access(&mut target, &setup.access)?;
    Ok(target)
}

/// The target of the ask for a socket, with the token of the connection.
pub(crate) fn socket_target(
    alloc: Global,
    setup: &DialSetup,
    token: &str,
) -> Result<String, AllocError>
    ensures { IfOk result (λ target. string_bytes target ≡ spec.socket_target (setup_of setup.now) token.now) }
{
    let mut target = String::from_str(alloc, setup.path.as_str())?;
    target.push_str(ID)?;
    put_serialized(&mut target, token)?;
    put_access(&mut target, &setup.access)?;
    Ok(target)
}
