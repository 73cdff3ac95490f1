//! A message goes to connections of a room.

ghost use Rattle.std.specs.Prelude.{◌≡◌, ◌≤◌, ◌<◌, nat_eq};
ghost use Rattle.std.specs.List.{IsDistinct};
ghost use Rattle.hm_message.specs.Message.{Fits};
ghost use Rattle.hd_calls.specs.Hubs.{Invoked};
ghost use Rattle.hp_peer.specs.Calling.{IsNotice};
ghost use Rattle.hub_machine.specs.Spreads.{codecs_among, is_spoken};
ghost use Rattle.ht_machine.specs.Deals.{codec_at};

use crate::room::Room;
use he_end::Steps;
use hm_message::{Codec, Message};
use ht_kit::Stop;
use hub_machine::{Members, spread};
use std::alloc::Global;
use std::marker::Brand;
use std::sync::ledger::{Blank, Ledger};

/// Sends them the message: how often it is spelled at most.
pub fn send(alloc: Global, room: &mut Room, to: &[u64], message: &Message) -> Result<u64, Stop>
    requires notice { (c : Invoked) × IsNotice message.now c }
    requires fits { Fits message.now }
    requires once { IsDistinct nat_eq to.now }
{
    let most = send_first::<Brand>(alloc, room, to, message, Blank::new(1))?;
    Ok(most)
}

/// The same with a count of steps that begins with this blank.
fn send_first<L: Ledger>(
    alloc: Global,
    room: &mut Room,
    to: &[u64],
    message: &Message,
    blank: Blank,
) -> Result<u64, Stop>
    requires notice { (c : Invoked) × IsNotice message.now c }
    requires fits { Fits message.now }
    requires once { IsDistinct nat_eq to.now }
    requires name { blank.name ≡ L.name }
    requires parts { blank.parts ≡ L.parts }
    requires some { 0 < L.parts }
{
    let most = codecs_of(to, room);
    let mut steps = Steps::<L>::start(blank);
    spread(alloc, to, message, room, &mut steps)?;
    are_at_most(&steps, most);
    Ok(most)
}

/// That no more steps were counted is proved where it is called.
fn are_at_most<L: Ledger>(_steps: &Steps<L>, _most: u64)
    requires { _steps.now ≤ _most }
{}

/// How many codecs these connections have.
fn codecs_of(to: &[u64], room: &Room) -> u64
    ensures { result ≡ codecs_among (codec_at room.now) to.now }
{
    u64::from(is_codec_of(Codec::Json, to, room)) + u64::from(is_codec_of(Codec::Pack, to, room))
}

/// Whether one of these connections has the codec.
fn is_codec_of(codec: Codec, to: &[u64], room: &Room) -> bool
    ensures { result ≡ is_spoken codec (codec_at room.now) to.now }
{
    to.iter().any(|&conn| room.codec(conn) == Some(codec))
}
