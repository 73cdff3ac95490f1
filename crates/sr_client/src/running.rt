//! A client that runs a script over a dialer.

ghost use Rattle.std.specs.Prelude.{◌≡◌, ◌≢◌, List, ◌++◌, ◌∷◌, [], true, Err};
ghost use Rattle.hw_door.specs.DoorCalls.{flushed};
ghost use Rattle.hd_client.specs.declared.order.Order.{Order};
ghost use Rattle.hd_client.specs.Setups.{Setup};
ghost use Rattle.sr_client.specs.Clients.{StandsClient};
ghost use Rattle.sr_client.specs.declared.client.ClientError.TheVariants as error;
ghost use Rattle.sr_client.specs.Running.{HasRun, IsCausedBy, IsSetup, IsTouchedByBytes, WentSo, faults};

use crate::client::{Client, ClientError};
use crate::script::ClientScript;
use hd_delivery::Limits;
use hm_message::Codec;
use hw_door::{Address, Dialer, Lots};
use hw_io::Sink;
use std::alloc::Global;

/// Lets a client of the server at the first address of the dialer do what the script asks for, in at most so many turns; its end asks for this codec,
/// and holds what `limits` allow. What comes of it is printed. The command `client` ends with the status that stands here.
///
/// - Ok (0): the script is at its end, no call is live, and the end is closed.
/// - `Refused` (8), `Lots` (9), `Turns` (10): so ended its last turn.
/// - `Dial` (5), `Write` (4): a call failed, after which nothing was asked but the flush; and `NoMemory` (7).
///
/// At the end the dialer is flushed. An output to which nothing is printed isn't touched, unless it failed.
pub fn run_client<C: Dialer, L: Lots, K: Sink>(
    alloc: Global,
    script: ClientScript,
    address: &Address,
    codec: Codec,
    limits: Limits,
    dialer: &mut C,
    lots: &mut L,
    out: &mut K,
    turns: u64,
) -> Result<(), ClientError>
    ensures dials { (s : Setup) → IsSetup s address.now codec limits → HasRun s script
        (WentSo (λ calls. C.Goes dialer.old (calls ++ flushed ∷ []) dialer.new) (L.drawn lots.old) (L.drawn lots.new) (K.holds out.old) (K.holds out.new)) turns result }
    ensures cause { IsCausedBy (faults (C.faults dialer.old) (L.faults lots.old) (K.faults out.old)) (faults (C.faults dialer.new) (L.faults lots.new) (K.faults out.new)) result }
    ensures touched { result ≢ Err error.Write → IsTouchedByBytes K.holds out.old out.new }
    ensures flushed { C.is_flushed dialer.new ≡ true }
{
    let ran = start_and_run(
        alloc, script, address, codec, limits, dialer, lots, out, turns,
    );
    dialer.flush();
    ran
}

/// The client begins, and has its turns.
fn start_and_run<C: Dialer, L: Lots, K: Sink>(
    alloc: Global,
    script: ClientScript,
    address: &Address,
    codec: Codec,
    limits: Limits,
    dialer: &mut C,
    lots: &mut L,
    out: &mut K,
    turns: u64,
) -> Result<(), ClientError>
    ensures dials { (s : Setup) → IsSetup s address.now codec limits → HasRun s script
        (WentSo (λ calls. C.Goes dialer.old calls dialer.new) (L.drawn lots.old) (L.drawn lots.new) (K.holds out.old) (K.holds out.new)) turns result }
    ensures cause { IsCausedBy (faults (C.faults dialer.old) (L.faults lots.old) (K.faults out.old)) (faults (C.faults dialer.new) (L.faults lots.new) (K.faults out.new)) result }
    ensures touched { result ≢ Err error.Write → IsTouchedByBytes K.holds out.old out.new }
{
    he_wire::has_wire();
    let mut client = Client::start(alloc, script, address, codec, limits)?;
    run_turns(alloc, &mut client, dialer, lots, out, turns)
}

/// The turns, one after the other, until one ends it.
fn run_turns<C: Dialer, L: Lots, K: Sink>(
    alloc: Global,
    client: &mut Client,
    dialer: &mut C,
    lots: &mut L,
    out: &mut K,
    turns: u64,
) -> Result<(), ClientError>
    ensures dials { (s : Setup) (script : List Order) → StandsClient s script client.old [] → HasRun s script
        (WentSo (λ calls. C.Goes dialer.old calls dialer.new) (L.drawn lots.old) (L.drawn lots.new) (K.holds out.old) (K.holds out.new)) turns result }
    ensures cause { (s : Setup) (script : List Order) → StandsClient s script client.old [] →
        IsCausedBy (faults (C.faults dialer.old) (L.faults lots.old) (K.faults out.old)) (faults (C.faults dialer.new) (L.faults lots.new) (K.faults out.new)) result }
    ensures touched { result ≢ Err error.Write → IsTouchedByBytes K.holds out.old out.new }
{
    for _turn in 0..turns {
        let done = client.turn(alloc, dialer, lots, out)?;
        if done {
            return Ok(());
        }
    }
    Err(ClientError::Turns)
}
