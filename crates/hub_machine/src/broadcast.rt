//! A message goes to many connections.

ghost use Rattle.std.specs.Prelude.{◌≡◌, ◌≤◌, ◌+◌, ℕ, List, ◌∷◌, [], false, IfOk, OnOk, OnErr, nat_eq, option_copied};
ghost use Rattle.std.specs.List.{IsDistinct};
ghost use Rattle.hm_message.specs.Message.{Fits};
ghost use Rattle.hd_calls.specs.Hubs.{Invoked};
ghost use Rattle.hp_peer.specs.Calling.{IsNotice};
ghost use Rattle.hub_machine.specs.Spreads.{AreSpelled, Delivering, IsCutShort, IsRefused, IsSpelledFor, Spreads};
ghost use Rattle.hub_machine.specs.Spreads.{codecs_among, frame_in, is_listed, is_spoken, one_if};

use crate::members::Members;
use he_end::{SendError, Spelled, Steps, spell};
use hm_message::{Codec, Message};
use std::alloc::{AllocError, Global};
use std::sync::ledger::Ledger;

/// Sends the message, which is an Invocation without an id and without streams, to each of these connections once, in order. One without a
/// codec is passed over, and one that has no room for it is closed as too slow.
///
/// All spelling is done first, once for each codec among the connections: a step of `steps` each. Out of memory for that, nothing was
/// done with any connection; out of memory at one of them, those before it were dealt with, and it is the last. Which one that was isn't
/// told, so a caller can't go on.
pub fn spread<M: Members, L: Ledger>(
    alloc: Global,
    to: &[u64],
    message: &Message,
    members: &mut M,
    steps: &mut Steps<L>,
) -> Result<(), AllocError>
    requires notice { (c : Invoked) × IsNotice message.now c }
    requires fits { Fits message.now }
    requires once { IsDistinct nat_eq to.now }
    ensures ok { OnOk result ((s : M) (before : List Delivering) → M.Delivers s before members.old →
        (after : List Delivering) × Spreads (M.codec_of members.old) to.now message.now before after × M.Delivers s after members.new) }
    ensures cut { OnErr result ((s : M) (before : List Delivering) → M.Delivers s before members.old →
        (after : List Delivering) × IsCutShort (M.codec_of members.old) to.now message.now before after × M.Delivers s after members.new) }
    ensures others { (k : ℕ) → is_listed k to.now ≡ false → M.codec_of members.new k ≡ M.codec_of members.old k }
    ensures cost { steps.new ≤ steps.old + codecs_among (M.codec_of members.old) to.now }
{
    let spellings = Spellings::of(alloc, to, message, members, steps)?;
    for &conn in to {
        spellings.deal(conn, message, members)?;
    }
    Ok(())
}

/// A message's frames, in the codecs in which it is to be said.
#[derive(Drop)]
pub struct Spellings {
    json: Option<Spelled>,
    pack: Option<Spelled>,
}

impl Spellings {
    /// Those in the codecs of these connections.
    fn of<M: Members, L: Ledger>(
        alloc: Global,
        to: &[u64],
        message: &Message,
        members: &M,
        steps: &mut Steps<L>,
    ) -> Result<Spellings, AllocError>
        requires { Fits message.now }
        ensures ok { IfOk result (λ s. AreSpelled s (M.codec_of members.now) to.now message.now) }
        ensures cost { steps.new ≤ steps.old + codecs_among (M.codec_of members.now) to.now }
    {
        Ok(Spellings {
            json: spelled_for(alloc, Codec::Json, to, message, members, steps)?,
            pack: spelled_for(alloc, Codec::Pack, to, message, members, steps)?,
        })
    }

    /// The frame in a codec, if it is among these.
    fn in_codec(&self, codec: Codec) -> Option<&Spelled>
        ensures { option_copied result ≡ frame_in self.now codec }
    {
        match codec {
            Codec::Json => self.json.as_ref(),
            Codec::Pack => self.pack.as_ref(),
        }
    }

    /// Sends the message to a connection, if it has a codec, and closes it as too slow if it has no room.
    fn deal<M: Members>(
        &self,
        conn: u64,
        message: &Message,
        members: &mut M,
    ) -> Result<(), AllocError>
        requires notice { (c : Invoked) × IsNotice message.now c }
        requires fits { Fits message.now }
        requires spelled { AreSpelled self.now (M.codec_of members.old) (conn ∷ []) message.now }
        ensures ok { OnOk result ((s : M) (before : List Delivering) → M.Delivers s before members.old →
            (after : List Delivering) × Spreads (M.codec_of members.old) (conn ∷ []) message.now before after × M.Delivers s after members.new) }
        ensures refused { OnErr result ((s : M) (before : List Delivering) → M.Delivers s before members.old →
            (after : List Delivering) × IsRefused conn message.now before after × M.Delivers s after members.new) }
        ensures others { (k : ℕ) → (k ≡ conn → ⊥) → M.codec_of members.new k ≡ M.codec_of members.old k }
    {
        let Some(codec) = members.codec(conn) else {
            return Ok(());
        };
        let Some(spelled) = self.in_codec(codec) else {
            return Ok(());
        };
        let Err(refusal) = members.send_spelled(conn, message, spelled) else {
            return Ok(());
        };
        match refusal {
            SendError::NoMemory => Err(AllocError),
            SendError::Full { .. } => {
                members.slow(conn);
                Ok(())
            }
            _ => Ok(()),
        }
    }
}

/// The message's frame in a codec, if it is that of one of these connections.
fn spelled_for<M: Members, L: Ledger>(
    alloc: Global,
    codec: Codec,
    to: &[u64],
    message: &Message,
    members: &M,
    steps: &mut Steps<L>,
) -> Result<Option<Spelled>, AllocError>
    requires { Fits message.now }
    ensures ok { IfOk result (IsSpelledFor codec (M.codec_of members.now) to.now message.now) }
    ensures cost { steps.new ≤ steps.old + one_if (is_spoken codec (M.codec_of members.now) to.now) }
{
    if !is_spoken_by(codec, to, members) {
        return Ok(None);
    }
    Ok(Some(spell(alloc, codec, message, steps)?))
}

/// Whether the codec is that of one of these connections.
fn is_spoken_by<M: Members>(codec: Codec, to: &[u64], members: &M) -> bool
    ensures { result ≡ is_spoken codec (M.codec_of members.now) to.now }
{
    to.iter().any(|&conn| members.codec(conn) == Some(codec))
}
