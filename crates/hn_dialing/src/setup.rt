//! How one connection is dialed.

ghost use Rattle.std.specs.Prelude.{◌≡◌, IfOk};
ghost use Rattle.hd_dialing.specs.Asks.{setup_as_asked, setup_at};
ghost use Rattle.hn_dialing.specs.Stands.{setup_of};

use hv_value::Text;
use hw_door::Address;
use std::alloc::AllocError;

/// How one connection is dialed.
#[derive(Drop)]
pub struct DialSetup {
    /// The place of its address in the list with which the dialer was started, from 0.
    pub(crate) place: u64,
    /// What stands before each target.
    pub(crate) path: Text,
    /// The access token that each ask has.
    pub(crate) access: Option<Text>,
    /// It is asked to be kept across its links.
    pub(crate) reconnect: bool,
    /// No other grant is taken than the one that is asked for.
    pub(crate) strict: bool,
}

/// A copy of a text, if there is one.
fn copy_text(text: &Option<Text>) -> Result<Option<Text>, AllocError>
    ensures { IfOk result (λ t. t ≡ text.now) }
{
    match text {
        Some(text) => Ok(Some(text.copy()?)),
        None => Ok(None),
    }
}

impl DialSetup {
    /// That of a client with the address at this place of its dialer's list: it asks for a connection that is kept, and takes one that isn't.
    pub fn at(place: u64, address: &Address) -> Result<DialSetup, AllocError>
        ensures { IfOk result (λ setup. setup_of setup ≡ setup_at place address.now) }
    {
        Ok(DialSetup {
            place,
            path: address.base.copy()?,
            access: copy_text(&address.token)?,
            reconnect: true,
            strict: false,
        })
    }

    /// That of whoever takes a connection only as it is asked for: kept across its links or not, and with this access token.
    pub fn as_asked(
        place: u64,
        address: &Address,
        access: Option<Text>,
        reconnect: bool,
    ) -> Result<DialSetup, AllocError>
        ensures { IfOk result (λ setup. setup_of setup ≡ setup_as_asked place address.now access reconnect) }
    {
        Ok(DialSetup {
            place,
            path: address.base.copy()?,
            access,
            reconnect,
            strict: true,
        })
    }
}
