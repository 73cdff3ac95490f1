//! A client between its turns, and how one ends.

ghost use Rattle.std.specs.Prelude.{◌≡◌, [], IfOk};
ghost use Rattle.hd_client.specs.Setups.{Setup};
ghost use Rattle.sr_client.specs.Clients.{StandsClient};
ghost use Rattle.sr_client.specs.Running.{IsSetup};
ghost use Rattle.sr_client.specs.Turning.{AreNone};
ghost use Rattle.sr_client.specs.declared.client.ClientError.TheVariants as error;

use crate::peer::ClientPeer;
use crate::script::ClientScript;
use hd_delivery::Limits;
use hm_message::Codec;
use hn_dialing::{Connection, DialFault, DialSetup};
use hw_door::{Address, DoorError};
use hw_io::Failed;
use std::alloc::{AllocError, Global};
use thiserror::Error;

/// Why a client ended before its script was done, with nothing live.
#[derive(Clone, Copy, Debug, Drop, PartialEq, Eq, Error)]
pub enum ClientError {
    /// Its server refused it or closed the connection, what came can't be read, or the connection was lost for good.
    #[error("the connection was refused or ended")]
    Refused,
    /// The dialer failed, and its count of faults rose.
    #[error("the dialer failed")]
    Dial,
    /// The output failed in one call, and its count of faults rose by one.
    #[error("the output failed")]
    Write,
    /// The lots failed, and their count of faults rose.
    #[error("the random source failed")]
    Lots,
    #[error("out of memory")]
    NoMemory,
    /// All its turns were done first.
    #[error("the turns were done first")]
    Turns,
}

impl From<AllocError> for ClientError {
    ghost from_gives = { λ _ e. e ≡ error.NoMemory };

    fn from(_e: AllocError) -> ClientError {
        ClientError::NoMemory
    }
}

impl From<Failed> for ClientError {
    ghost from_gives = { λ _ e. e ≡ error.Write };

    fn from(_e: Failed) -> ClientError {
        ClientError::Write
    }
}

impl From<DoorError> for ClientError {
    ghost use Rattle.sr_client.specs.Running.{error_of_dialer};

    ghost from_gives = { λ door e. e ≡ error_of_dialer door };

    fn from(e: DoorError) -> ClientError {
        match e {
            DoorError::Failed => ClientError::Dial,
            DoorError::NoMemory => ClientError::NoMemory,
        }
    }
}

impl From<DialFault> for ClientError {
    ghost use Rattle.sr_client.specs.Running.{error_of_dial};

    ghost from_gives = { λ fault e. e ≡ error_of_dial fault };

    fn from(e: DialFault) -> ClientError {
        match e {
            DialFault::Dialer => ClientError::Dial,
            DialFault::NoMemory => ClientError::NoMemory,
        }
    }
}

/// A client of a hub server, which does what the lines of a script ask for.
#[derive(Drop)]
pub struct Client {
    pub(crate) script: ClientScript,
    pub(crate) codec: Codec,
    pub(crate) limits: Limits,
    pub(crate) connection: Connection,
    /// There is none before a token was told.
    pub(crate) peer: Option<ClientPeer>,
    /// How many lines of the script are done.
    pub(crate) passed: usize,
    /// The lane that is up is full.
    pub(crate) full: bool,
    /// It closed its end itself.
    pub(crate) has_closed: bool,
    /// It has no turn more.
    pub(crate) is_ended: bool,
}

/// What is said and printed in a turn. It is gathered first, so that a turn in which memory runs out says and prints nothing.
#[derive(Drop)]
pub(crate) struct Words {
    /// The lane on which a message is said.
    pub(crate) lane: Option<u64>,
    pub(crate) message: Vec<u8>,
    /// The message is a text.
    pub(crate) text: bool,
    /// The lane that is to be shut then.
    pub(crate) shut: Option<u64>,
    pub(crate) printed: Vec<u8>,
}

impl Words {
    pub(crate) fn new(alloc: Global) -> Words
        ensures { AreNone result }
    {
        Words {
            lane: None,
            message: Vec::new(alloc),
            text: false,
            shut: None,
            printed: Vec::new(alloc),
        }
    }
}

impl Client {
    /// A client that wasn't dialed yet, of a server at the first address of its dialer. Its end holds what `limits` allow.
    pub fn start(
        alloc: Global,
        script: ClientScript,
        address: &Address,
        codec: Codec,
        limits: Limits,
    ) -> Result<Client, AllocError>
        ensures { IfOk result (λ client. (s : Setup) → IsSetup s address.now codec limits → StandsClient s script client []) }
    {
        Ok(Client {
            script,
            codec,
            limits,
            connection: Connection::start(DialSetup::at(0, address)?),
            peer: None,
            passed: 0,
            full: false,
            has_closed: false,
            is_ended: false,
        })
    }
}
