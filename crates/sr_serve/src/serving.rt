//! A server of the one hub, from the first question to its keeper to the last of its turns.

ghost use Rattle.std.specs.Prelude.{◌≡◌, ◌≢◌, ◌⊎◌, ◌∷◌, [], ℕ, IfOk, IfErr, OnOk, Err, is_ok, take};
ghost use Rattle.std.specs.Io.KnownBytes.{Appends};
ghost use Rattle.hd_facts.specs.Counts.{one_more};
ghost use Rattle.hub_server.specs.Steps.{outside};
ghost use Rattle.sr_serve.specs.Serving.{Ends, environment, serving_line, error_of_keeper, error_of_server};
ghost use Rattle.sr_serve.specs.declared.serving.ServeError.TheVariants as end;

use hd_server::LiveLimit;
use hk_keeper::{KeepError, Keeper};
use hub_demo::ServeHub;
use hub_server::{ResendLimits, ServeFault, Server, serve};
use hv_value::Text;
use hw_door::{Door, Lots};
use hw_io::{Failed, Sink};
use std::alloc::{AllocError, Global};
use thiserror::Error;

/// Why serving ended before its turns were done.
#[derive(Clone, Copy, Debug, Drop, PartialEq, Eq, Error)]
pub enum ServeError {
    /// The output failed at the first line, and its count of faults rose by one. Nothing was heard.
    #[error("the output failed")]
    Write,
    /// The door failed, and its count of faults rose.
    #[error("the door failed")]
    Door,
    /// The keeper failed at the first question, and its count of faults rose. Nothing was written or heard.
    #[error("the store failed")]
    Keeper,
    #[error("out of memory")]
    NoMemory,
}

impl From<KeepError> for ServeError {
    ghost from_gives = { λ e s. s ≡ error_of_keeper e };

    fn from(e: KeepError) -> ServeError {
        match e {
            KeepError::Failed => ServeError::Keeper,
            KeepError::NoMemory => ServeError::NoMemory,
        }
    }
}

impl From<ServeFault> for ServeError {
    ghost from_gives = { λ e s. s ≡ error_of_server e };

    fn from(e: ServeFault) -> ServeError {
        match e {
            ServeFault::Door => ServeError::Door,
            ServeFault::NoMemory => ServeError::NoMemory,
        }
    }
}

impl From<AllocError> for ServeError {
    ghost from_gives = { λ _ s. s ≡ end.NoMemory };

    fn from(_e: AllocError) -> ServeError {
        ServeError::NoMemory
    }
}

/// Writes how many rows the keeper has.
fn tell_rows<K: Sink>(alloc: Global, rows: u64, out: &mut K) -> Result<(), ServeError>
    ensures told { OnOk result (Appends (K.holds out.old) (K.holds out.new) (serving_line rows)) }
    ensures part { result ≡ Err end.Write → (K.faults out.new ≡ one_more (K.faults out.old))
        × ((n : ℕ) × Appends (K.holds out.old) (K.holds out.new) (take n (serving_line rows))) }
    ensures unfailed { result ≢ Err end.Write → K.faults out.new ≡ K.faults out.old }
    ensures untouched { result ≡ Err end.NoMemory → out.new ≡ out.old }
    ensures causes { IfErr result (λ e. (e ≡ end.Write) ⊎ (e ≡ end.NoMemory)) }
{
    let line = format!(in alloc; "serving {rows}\n")?;
    match out.put(line.as_bytes()) {
        Ok(()) => Ok(()),
        Err(Failed) => Err(ServeError::Write),
    }
}

/// Serves the calculator and rooms below `base` for `turns` events, each of which is awaited for 100 milliseconds at most, or not at all
/// while a job is due. `resend` says how much the ends of its connections hold, and `live` how many of these may live. First it asks the keeper how
/// many rows there are and writes the line `serving R`.
///
/// # Errors
///
/// `Keeper` if that question fails: nothing is written or heard. `Write` if the line can't be written: nothing is heard. `Door` if the
/// door fails at an event: what it was given before stands, and the last event may be answered in part. `NoMemory` in any of these places.
/// A later fault of the keeper, or of the lots, ends nothing.
pub fn serve_hub<K: Sink, D: Door, R: Keeper, L: Lots>(
    alloc: Global,
    base: Text,
    resend: ResendLimits,
    live: LiveLimit,
    turns: u64,
    out: &mut K,
    door: &mut D,
    keeper: &mut R,
    lots: &mut L,
) -> Result<(), ServeError>
    ensures ends { Ends base resend live turns (λ calls. D.Goes door.old calls door.new)
        (environment (K.holds out.old) (K.faults out.old) (D.moment door.old) (D.faults door.old)
        (outside (R.holds keeper.old) (R.answers keeper.old) (R.faults keeper.old) (L.drawn lots.old) (L.faults lots.old)))
        (environment (K.holds out.new) (K.faults out.new) (D.moment door.new) (D.faults door.new)
        (outside (R.holds keeper.new) (R.answers keeper.new) (R.faults keeper.new) (L.drawn lots.new) (L.faults lots.new)))
        result }
    ensures unwritten { result ≡ Err end.Keeper → out.new ≡ out.old }
    ensures no_memory { result ≡ Err end.NoMemory → (out.new ≡ out.old) ⊎ ((rows : ℕ) × Appends (K.holds out.old) (K.holds out.new) (serving_line rows)) }
    ensures unheard { (result ≡ Err end.Keeper) ⊎ (result ≡ Err end.Write) → (door.new ≡ door.old) × (lots.new ≡ lots.old) }
{
    // Each connection is a side that delivers: what its end sent is read as it was sent.
    hd_delivery::delivery_as_sent();
    hd_delivery::facts_hold();
    hd_delivery::fed_is_unseen();
    hd_delivery::sent_can_be_sent();
    hd_delivery::worlds_are_histories();
    he_wire::wire_is_faithful();
    let rows = keeper.rows()?;
    let mut server = Server::start(alloc, base, resend, live)?;
    tell_rows(alloc, rows, out)?;
    serve(
        alloc,
        &mut server,
        &ServeHub::new(),
        door,
        keeper,
        lots,
        turns,
    )?;
    Ok(())
}
