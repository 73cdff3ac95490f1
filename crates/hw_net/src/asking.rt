//! The text of an ask at an address.

ghost use Rattle.std.specs.Prelude.{◌≡◌, ◌≢◌, ◌++◌, IfOk, option_map, string_bytes};
ghost use Rattle.hw_door.specs.declared.heard.Upgrade.{Upgrade};
ghost use Rattle.hw_net.specs.Asking.{has_colon, bracketed, port_text, host_name, text_at};

use hh_http::write_ask;
use hw_door::{Address, Upgrade};
use hw_lanes::Method;
use std::alloc::{AllocError, Global};

/// What stands between the groups of an IPv6 address (RFC 4291, section 2.2), and in no other host.
pub const COLON: u8 = b':';

/// The port that needn't be named (RFC 9110, section 4.2.1).
pub const HTTP_PORT: u16 = 80;

fn has_colon(host: &[u8]) -> bool
    ensures { result ≡ has_colon host.now }
{
    host.iter().any(|&byte| byte == COLON)
}

fn bracketed(alloc: Global, host: &str) -> Result<String, AllocError>
    ensures { IfOk result (λ text. string_bytes text ≡ bracketed host.now) }
{
    if has_colon(host.as_bytes()) {
        return format!(in alloc; "[{host}]");
    }
    String::from_str(alloc, host)
}

fn port_text(alloc: Global, port: u16) -> Result<String, AllocError>
    ensures { IfOk result (λ text. string_bytes text ≡ port_text port) }
{
    if port == HTTP_PORT {
        return String::from_str(alloc, "");
    }
    format!(in alloc; ":{port}")
}

fn host_name(alloc: Global, address: &Address) -> Result<String, AllocError>
    ensures { IfOk result (λ text. string_bytes text ≡ host_name address.now) }
{
    let mut name = bracketed(alloc, address.host.as_str())?;
    let port = port_text(alloc, address.port)?;
    name.push_str(port.as_str())?;
    Ok(name)
}

fn key_of(upgrade: Option<Upgrade>) -> Option<[u8; 16]>
    ensures { result ≡ option_map (λ (u : Upgrade). u.key) upgrade }
{
    match upgrade {
        Some(upgrade) => Some(upgrade.key),
        None => None,
    }
}

/// The text of an ask at this address, which asks for a WebSocket if an upgrade is given.
pub fn text_at(
    alloc: Global,
    address: &Address,
    method: Method,
    target: &str,
    upgrade: Option<Upgrade>,
) -> Result<Vec<u8>, AllocError>
    requires { method ≢ Method.Other }
    ensures { IfOk result (λ text. text.items ≡ text_at address.now method target.now upgrade) }
{
    let host = host_name(alloc, address)?;
    let mut text = Vec::new(alloc);
    write_ask(method, host.as_str(), target, key_of(upgrade), &mut text)?;
    Ok(text)
}
