//! A server that hears through a door.

ghost use Rattle.std.specs.Prelude.{◌≡◌, ◌==◌, ◌∷◌, ◌++◌, [], true, false, is_ok};
ghost use Rattle.std.specs.Result.{result_err};
ghost use Rattle.hw_door.specs.Calls.{HasFaultCause};
ghost use Rattle.hw_door.specs.DoorCalls.{flushed};
ghost use Rattle.hd_server.specs.Serving.{ServeEnd};
ghost use Rattle.hj_jobs.specs.Meaning.{meaning};
ghost use Rattle.hub_server.specs.Steps.{outside};
ghost use Rattle.hub_server.specs.Serving.{GivesBy, HasServed, IsCausedBy, cause_of, fault_of};
ghost use Rattle.hub_server.specs.declared.serving.ServeFault.TheVariants as fault;
ghost use Rattle.hub_server.specs.Words.{AreReplies};

use crate::server::Server;
use hd_server::{MOST_WAIT, Said};
use hj_jobs::Hub;
use hk_keeper::Keeper;
use hw_door::{Door, DoorError, Lots};
use std::alloc::{AllocError, Global};
use thiserror::Error;

/// Why serving ended before its turns were done.
#[derive(Clone, Copy, Debug, Drop, PartialEq, Eq, Error)]
pub enum ServeFault {
    /// The door failed, and its count of faults rose.
    #[error("the door failed")]
    Door,
    #[error("out of memory")]
    NoMemory,
}

impl From<AllocError> for ServeFault {
    ghost from_gives = { λ _ e. e ≡ fault.NoMemory };

    fn from(_e: AllocError) -> ServeFault {
        ServeFault::NoMemory
    }
}

impl From<DoorError> for ServeFault {
    ghost from_gives = { λ door e. e ≡ cause_of door };

    fn from(e: DoorError) -> ServeFault {
        match e {
            DoorError::Failed => ServeFault::Door,
            DoorError::NoMemory => ServeFault::NoMemory,
        }
    }
}

/// Hears so many events through the door, each after a wait of at most 100 milliseconds, or of none while a job is due; and does what the
/// server does at each before it hears the next.
///
/// A fault of the door ends it: after the first call of the door that fails nothing is asked of it but one flush. What it was given before stands;
/// the event that was heard last may be answered in part. A fault of the keeper or the lots ends nothing. At the end the door is flushed.
pub fn serve<D: Door, H: Hub, K: Keeper, L: Lots>(
    alloc: Global,
    server: &mut Server<H>,
    hub: &H,
    door: &mut D,
    keeper: &mut K,
    lots: &mut L,
    turns: u64,
) -> Result<(), ServeFault>
    ensures served { (end : ServeEnd) × (result_err result ≡ fault_of end) × HasServed (meaning H.begin_of H.step_of) server.old server.new
        (outside (K.holds keeper.old) (K.answers keeper.old) (K.faults keeper.old) (L.drawn lots.old) (L.faults lots.old))
        (outside (K.holds keeper.new) (K.answers keeper.new) (K.faults keeper.new) (L.drawn lots.new) (L.faults lots.new))
        (λ calls. D.Goes door.old (calls ++ flushed ∷ []) door.new) (D.moment door.old) (D.moment door.new) turns end }
    ensures ended { server.old.is_ended ≡ true → (is_ok result ≡ (turns == 0)) × (server.new.is_ended ≡ true) }
    ensures cause { IsCausedBy (D.faults door.old) (D.faults door.new) result }
    ensures flushed { D.is_flushed door.new ≡ true }
{
    let served = serve_turns(alloc, server, hub, door, keeper, lots, turns);
    door.flush();
    served
}

/// The events, one after the other.
fn serve_turns<D: Door, H: Hub, K: Keeper, L: Lots>(
    alloc: Global,
    server: &mut Server<H>,
    hub: &H,
    door: &mut D,
    keeper: &mut K,
    lots: &mut L,
    turns: u64,
) -> Result<(), ServeFault>
    ensures served { (end : ServeEnd) × (result_err result ≡ fault_of end) × HasServed (meaning H.begin_of H.step_of) server.old server.new
        (outside (K.holds keeper.old) (K.answers keeper.old) (K.faults keeper.old) (L.drawn lots.old) (L.faults lots.old))
        (outside (K.holds keeper.new) (K.answers keeper.new) (K.faults keeper.new) (L.drawn lots.new) (L.faults lots.new))
        (λ calls. D.Goes door.old calls door.new) (D.moment door.old) (D.moment door.new) turns end }
    ensures ended { server.old.is_ended ≡ true → (is_ok result ≡ (turns == 0)) × (server.new.is_ended ≡ true) }
    ensures cause { IsCausedBy (D.faults door.old) (D.faults door.new) result }
{
    hd_rooms::answers_join();
    for _turn in 0..turns {
        turn(alloc, server, hub, door, keeper, lots)?;
    }
    Ok(())
}

/// One event: it is heard, and what the server says of it is given to the door.
fn turn<D: Door, H: Hub, K: Keeper, L: Lots>(
    alloc: Global,
    server: &mut Server<H>,
    hub: &H,
    door: &mut D,
    keeper: &mut K,
    lots: &mut L,
) -> Result<(), ServeFault>
    ensures served { (end : ServeEnd) × (result_err result ≡ fault_of end) × HasServed (meaning H.begin_of H.step_of) server.old server.new
        (outside (K.holds keeper.old) (K.answers keeper.old) (K.faults keeper.old) (L.drawn lots.old) (L.faults lots.old))
        (outside (K.holds keeper.new) (K.answers keeper.new) (K.faults keeper.new) (L.drawn lots.new) (L.faults lots.new))
        (λ calls. D.Goes door.old calls door.new) (D.moment door.old) (D.moment door.new) 1 end }
    ensures ended { server.old.is_ended ≡ true → (is_ok result ≡ false) × (server.new.is_ended ≡ true) }
    ensures cause { IsCausedBy (D.faults door.old) (D.faults door.new) result }
{
    hd_server::parts_of_turns();
    let wait = if server.idle() { MOST_WAIT } else { 0 };
    let heard = door.next(wait)?;
    let words = server.step(alloc, heard, hub, keeper, lots)?;
    give_all(server, door, words)?;
    Ok(())
}

/// The door is given all that is said, in order, and the server notes what it answers to messages.
fn give_all<D: Door, H: Hub>(
    server: &mut Server<H>,
    door: &mut D,
    words: Vec<Said>,
) -> Result<(), DoorError>
    requires { AreReplies words.items }
    ensures given { GivesBy (meaning H.begin_of H.step_of) server.old server.new (λ calls. D.Goes door.old calls door.new) words.items result }
    ensures ended { server.new.is_ended ≡ server.old.is_ended }
    ensures others_unchanged { D.moment door.new ≡ D.moment door.old }
    ensures cause { HasFaultCause (D.faults door.old) (D.faults door.new) result }
{
    for word in words {
        give(server, door, word)?;
    }
    Ok(())
}

/// The door is given this to say.
fn give<D: Door, H: Hub>(server: &mut Server<H>, door: &mut D, word: Said) -> Result<(), DoorError>
    requires { AreReplies (word ∷ []) }
    ensures given { GivesBy (meaning H.begin_of H.step_of) server.old server.new (λ calls. D.Goes door.old calls door.new) (word ∷ []) result }
    ensures ended { server.new.is_ended ≡ server.old.is_ended }
    ensures others_unchanged { D.moment door.new ≡ D.moment door.old }
    ensures cause { HasFaultCause (D.faults door.old) (D.faults door.new) result }
{
    match word {
        Said::Reply { lane, reply } => door.reply(lane, reply)?,
        Said::Bytes { lane, bytes, text } => {
            let full = door.send(lane, bytes.bytes(), text)?;
            server.note_sent(lane, full);
        }
        Said::Shut { lane } => door.shut(lane)?,
    }
    Ok(())
}
