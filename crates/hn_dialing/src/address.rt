//! Where a hub stands, by its URL.

ghost use Rattle.std.specs.Prelude.{◌≡◌, ◌↔◌, None, Ok, Err, IfOk, IsTrue, count_by};
ghost use Rattle.url.specs.Parser.{parse_url};
ghost use Rattle.url.specs.Parts.{Parts};
ghost use Rattle.hw_door.specs.declared.heard.Address.{Address};
ghost use Rattle.hn_dialing.specs.Addresses.{AddressesAreOne, IsAddress, IsBare, IsPlain, is_at};

use hv_value::Text;
use hw_door::Address;
use std::alloc::{AllocError, Global};
use thiserror::Error;
use url::{ParseError, Url};

/// The port of HTTP (RFC 9110, section 4.2.1).
const HTTP_PORT: u16 = 80;

/// Why a text gave no address.
#[derive(Clone, Copy, Debug, Drop, PartialEq, Eq, Error)]
pub enum AddressError {
    /// It is no URL of a hub.
    #[error("no URL of a hub")]
    NoAddress,
    /// Memory ran out, or the URL would be longer than 4 GB, which says nothing of the text.
    #[error("out of memory")]
    NoMemory,
}

impl From<AllocError> for AddressError {
    ghost use Rattle.std.specs.Prelude.{◌≡◌};
    ghost use Rattle.hn_dialing.specs.declared.address.AddressError.TheVariants.{NoMemory};

    ghost from_gives = { λ _ e. e ≡ NoMemory };

    fn from(_e: AllocError) -> AddressError {
        AddressError::NoMemory
    }
}

/// How often `@` stands in a text.
fn count_at(text: &[u8]) -> usize
    ensures { result ≡ count_by is_at text.now }
{
    text.iter().filter(|&&byte| byte == b'@').count()
}

/// A host without the brackets in which an IPv6 address stands.
fn without_brackets(host: &str) -> &str
    ensures { IsBare host.now result.now }
{
    let Some(rest) = host.strip_prefix("[") else {
        return host;
    };
    match rest.strip_suffix("]") {
        Some(inner) => inner,
        None => host,
    }
}

/// What the text is as a URL.
fn url_of(alloc: Global, text: &str) -> Result<Url, AddressError>
    ensures read { IfOk result (λ url. parse_url None text.now ≡ Ok url) }
    ensures none { result ≡ Err AddressError.NoAddress → (url : Parts) → parse_url None text.now ≡ Ok url → ⊥ }
{
    match Url::parse(alloc, text) {
        Ok(url) => Ok(url),
        Err(ParseError::OutOfMemory) => Err(AddressError::NoMemory),
        Err(ParseError::Overflow) => Err(AddressError::NoMemory),
        Err(_) => Err(AddressError::NoAddress),
    }
}

/// Whether a URL, which was read from this text, is of HTTP and has neither query nor fragment nor user.
fn is_plain(url: &Url, text: &str) -> bool
    ensures { IsTrue result ↔ IsPlain url.now text.now }
{
    url.scheme() == "http"
        && url.query().is_none()
        && url.fragment().is_none()
        && count_at(text.as_bytes()) == count_at(url.path().as_bytes())
}

/// The address of the hub whose URL this is, with this access token for each ask. The URL is of HTTP, has a host, and has neither query nor fragment nor
/// user, not even an empty one; its path is the base. An IPv6 host stands in brackets there, and without them in the address.
///
/// # Errors
///
/// `NoAddress` if the text is no such URL; `NoMemory`, which says nothing of it.
pub fn hub_address(alloc: Global, text: &str, token: Option<Text>) -> Result<Address, AddressError>
    ensures said { IfOk result (λ address. IsAddress text.now address × (address.token ≡ token)) }
    ensures none { result ≡ Err AddressError.NoAddress → (address : Address) → IsAddress text.now address → ⊥ }
{
    let url = url_of(alloc, text)?;
    if !is_plain(&url, text) {
        return Err(AddressError::NoAddress);
    }
    let Some(host) = url.host_str() else {
        return Err(AddressError::NoAddress);
    };
    Ok(Address {
        host: Text::of(alloc, without_brackets(host))?,
        port: url.port().unwrap_or(HTTP_PORT),
        base: Text::of(alloc, url.path())?,
        token,
    })
}

/// A URL says one address, but for the token.
pub fn addresses_are_one()
    ensures { AddressesAreOne }
{}
