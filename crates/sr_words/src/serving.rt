//! What `serve` is asked for, which options it has, and what has to be known of a command before it can run.

use crate::choice::Choice;
use hd_server::LiveLimit;
use hub_server::ResendLimits;
use hv_value::Text;
use hw_door::Address;
use std::net::IpAddr;

/// The options of `serve`.
pub(crate) const SERVE_OPTIONS: &[Choice] = &[
    Choice {
        name: "port",
        values: 1,
    },
    Choice {
        name: "base",
        values: 1,
    },
    Choice {
        name: "turns",
        values: 1,
    },
    Choice {
        name: "listen",
        values: 1,
    },
    Choice {
        name: "resend",
        values: 2,
    },
    Choice {
        name: "live",
        values: 1,
    },
    Choice {
        name: "store",
        values: 1,
    },
];

/// What `serve` is asked for.
#[derive(Drop, PartialEq, Eq)]
pub struct Serving {
    /// The port at which the server listens. 0 asks the system for a free one.
    pub port: u16,
    /// The path under which the hub stands. It begins with a slash and doesn't end with one.
    pub base: Text,
    /// The server makes at most this many turns.
    pub turns: u64,
    /// The address at which the server listens.
    pub listen: IpAddr,
    /// How much the end of each connection holds.
    pub resend: ResendLimits,
    /// How many connections may live at one moment.
    pub live: LiveLimit,
    /// The path of the store's file, if the store is in a file.
    pub store: Option<Text>,
}

/// What has to be known before the objects are made that a command runs over. Only `client` has an address, only `serve`, if it is
/// given, and `user` have the path of a store's file, and only `serve` has the others.
#[derive(Drop, PartialEq, Eq)]
pub struct Settings {
    pub port: Option<u16>,
    pub base: Option<Text>,
    pub listen: Option<IpAddr>,
    pub live: Option<LiveLimit>,
    pub store: Option<Text>,
    pub address: Option<Address>,
}
