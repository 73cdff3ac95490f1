//! A peer, and the calls of its end.

ghost use Rattle.std.specs.Prelude.{◌≡◌, ◌≤◌, ◌⊎◌, ℕ, true, false, List, [], ◌∷◌, Some, None, IfOk, IfErr, OnOk, OnErr, length, take, is_some, option_map, if◌then◌else◌};
ghost use Rattle.std.specs.Borrow.{sem};
ghost use Rattle.hs_shake.specs.Requests.{IsVersion};
ghost use Rattle.hd_delivery.specs.Histories as of;
ghost use Rattle.hd_delivery.specs.Histories.{Attached, Detached, Ticked, Silenced, present_link, was_on, first_link, is_resumable, is_silence};
ghost use Rattle.hd_delivery.specs.Due.{due};
ghost use Rattle.hd_delivery.specs.Bytes.{Wire, Bytes, Does, unread};
ghost use Rattle.hd_delivery.specs.OneHistory.{next_reader};
ghost use Rattle.he_wire.specs.Wires.{IsHouseWire};
ghost use Rattle.he_end.specs.Calls.{taken_at};
ghost use Rattle.he_end.specs.Spoken.{spoken_in};
ghost use Rattle.hd_calls.specs.Peers.{Plain, begun, byte_steps, codec, drawn, is_shut, steps};
ghost use Rattle.hd_calls.specs.Rules.{own_live};
ghost use Rattle.hj_jobs.specs.Meaning.{meaning};
ghost use Rattle.hp_peer.specs.Lending.{EndsAs, Lends};
ghost use Rattle.hp_peer.specs.Stands.{OfEach, settings, Stands, Stays};

use hd_calls::tables_agree;
use hd_delivery::{Reason, Side};
use he_end::{AttachError, Config, End};
use hi_calls::{Calls, ids_are_of_a_side};
use hj_jobs::{Hub, Jobs};
use hm_message::Message;
use hv_value::Text;
use indexmap::IndexMap;
use std::alloc::{AllocError, Global};

/// One side of a hub connection, across its links: an end, its own calls, and the jobs of the other side's calls.
#[derive(Drop)]
pub struct Peer<H: Hub> {
    pub(crate) end: End,
    pub(crate) calls: Calls,
    pub(crate) jobs: Jobs<H>,
    /// The name of the other side, as hubs are told it.
    pub(crate) who: Text,
    /// A message that the end handed out and that isn't handled yet, since memory was out.
    pub(crate) waiting: Option<Message>,
    /// The jobs that asked for live own calls, by the numbers of these.
    pub(crate) jobs_by_call: IndexMap<u64, u64>,
    /// Memory was out at a turn: no job has another.
    pub(crate) stalled: bool,
}

impl<H: Hub> Peer<H> {
    /// A peer before its first link. `who` is the name under which the hub knows the other side.
    pub fn start(
        alloc: Global,
        side: Side,
        config: Config,
        who: Text,
    ) -> Result<Peer<H>, AllocError>
        requires { IsVersion config.version }
        ensures stands { IfOk result (λ peer. (wire : Wire) → IsHouseWire config.limits.frame wire →
            Stands (meaning H.begin_of H.step_of) (settings side config wire who) peer []) }
        ensures fresh { IfOk result (λ peer. (peer.stalled ≡ false) × (peer.jobs.prepared ≡ false)) }
    {
        ids_are_of_a_side();
        let prefix = match side {
            Side::Client => "",
            Side::Server => "s",
        };
        Ok(Peer {
            end: End::start(alloc, side, config)?,
            calls: Calls::start(alloc, prefix)?,
            jobs: Jobs::start(alloc)?,
            who,
            waiting: None,
            jobs_by_call: IndexMap::new(alloc),
            stalled: false,
        })
    }

    /// The end, to be looked at.
    pub fn end(&self) -> &End
        ensures { result.now ≡ self.now.end }
    {
        &self.end
    }

    /// The name of the other side, as hubs are told it.
    pub fn who(&self) -> &Text
        ensures { OfEach (meaning H.begin_of H.step_of) self.now (λ t h. result.now ≡ t.who) }
    {
        &self.who
    }

    /// How many calls of the other side have begun a job, which is the number of the latest.
    pub fn begun(&self) -> u64
        ensures { OfEach (meaning H.begin_of H.step_of) self.now (λ t h. result ≡ length (begun h)) }
    {
        tables_agree();
        self.jobs.accepted()
    }

    /// The greatest number that its calls and their uploads have drawn.
    pub fn drawn(&self) -> u64
        ensures { OfEach (meaning H.begin_of H.step_of) self.now (λ t h. result ≡ drawn h) }
    {
        tables_agree();
        self.calls.drawn()
    }

    /// How many of its calls and uploads are live: at most `hd_calls::MOST_LIVE`.
    pub fn live(&self) -> u64
        ensures { OfEach (meaning H.begin_of H.step_of) self.now (λ t h. result ≡ own_live h) }
    {
        tables_agree();
        self.calls.live()
    }

    // ---- its end's calls: each does what the end's call of its name does

    /// A link begins, at this moment. An older one is left, and its unread bytes are dropped.
    pub fn attach(&mut self, now: u64) -> Result<(), AttachError>
        ensures ok { OnOk result (OfEach (meaning H.begin_of H.step_of) self.old (λ t h. (l : ℕ) → was_on l (steps t h) ≡ false → of.moment (steps t h) ≤ now →
            Stands (meaning H.begin_of H.step_of) t self.new (Plain (Does (Attached l now)) ∷ h))) }
        ensures closed { IfErr result (λ e. e ≡ AttachError.Closed → OfEach (meaning H.begin_of H.step_of) self.old (λ t h. is_shut t h ≡ true)) }
        ensures not_granted { IfErr result (λ e. e ≡ AttachError.NotGranted → OfEach (meaning H.begin_of H.step_of) self.old (λ t h.
            (is_shut t h ≡ false) × (is_resumable t.config (steps t h) ≡ false) × (first_link (steps t h) ≡ None → ⊥))) }
        ensures unchanged { OnErr result (self.new ≡ self.old) }
        ensures others { self.new ≡ record self.old { end = self.new.end } }
    {
        self.end.attach(now)
    }

    /// The link is lost, at this moment. A connection that isn't kept, or whose handshake isn't complete, is closed by that.
    /// Without a link nothing changes.
    pub fn detach(&mut self, now: u64)
        ensures left { OfEach (meaning H.begin_of H.step_of) self.old (λ t h. (l : ℕ) → present_link (steps t h) ≡ Some l → of.moment (steps t h) ≤ now →
            Stands (meaning H.begin_of H.step_of) t self.new (Plain (Does (Detached now)) ∷ h)) }
        ensures none { OfEach (meaning H.begin_of H.step_of) self.old (λ t h. present_link (steps t h) ≡ None → self.new ≡ self.old) }
        ensures others { self.new ≡ record self.old { end = self.new.end } }
    {
        self.end.detach(now);
    }

    /// Takes the first bytes of what the link brings, and answers how many: none without a link, on a closed end, or where no frame can
    /// begin. `take` until it gives none, and feed it the rest.
    pub fn feed(&mut self, piece: &[u8]) -> usize
        ensures within { result ≤ length piece.now }
        ensures count { OfEach (meaning H.begin_of H.step_of) self.old (λ t h. (l : ℕ) → present_link (steps t h) ≡ Some l → is_shut t h ≡ false →
            result ≡ taken_at t.limits (next_reader t.wire t.config l (steps t h) (unread t.wire t.config l (byte_steps t h)))
            (length (unread t.wire t.config l (byte_steps t h))) (length piece.now)) }
        ensures fed { OfEach (meaning H.begin_of H.step_of) self.old (λ t h. (l : ℕ) → present_link (steps t h) ≡ Some l → is_shut t h ≡ false →
            Stands (meaning H.begin_of H.step_of) t self.new (Plain (Bytes (take result piece.now)) ∷ h)) }
        ensures none { OfEach (meaning H.begin_of H.step_of) self.old (λ t h. (present_link (steps t h) ≡ None) ⊎ (is_shut t h ≡ true) →
            (result ≡ 0) × (self.new ≡ self.old)) }
        ensures others { self.new ≡ record self.old { end = self.new.end } }
    {
        self.end.feed(piece)
    }

    /// A moment came. True exactly if it is a silence, by which the link is lost.
    pub fn tick(&mut self, now: u64) -> bool
        ensures ticks { OfEach (meaning H.begin_of H.step_of) self.old (λ t h. of.moment (steps t h) ≤ now → (result ≡ is_silence t.config now (steps t h))
            × Stands (meaning H.begin_of H.step_of) t self.new (Plain (Does (if result then Silenced now else Ticked now)) ∷ h)) }
        ensures others { self.new ≡ record self.old { end = self.new.end } }
        ensures codec { spoken_in self.new.end ≡ spoken_in self.old.end }
    {
        self.end.tick(now)
    }

    /// Closes the end for this reason. After the handshake a Close that tells it is due. A closed end stays as it is.
    pub fn close(&mut self, reason: Reason, allow: bool)
        ensures live { OfEach (meaning H.begin_of H.step_of) self.old (λ t h. is_shut t h ≡ false →
            Stands (meaning H.begin_of H.step_of) t self.new (Plain (Does (of.Closed reason allow)) ∷ h)) }
        ensures closed { OfEach (meaning H.begin_of H.step_of) self.old (λ t h. is_shut t h ≡ true → self.new ≡ self.old) }
        ensures others { self.new ≡ record self.old { end = self.new.end } }
    {
        self.end.close(reason, allow);
    }

    /// Lends the next bytes to put on the link, whole frames, which count as said; None if nothing is due. It takes no memory.
    pub fn next_out(&mut self) -> Option<&[u8]>
        ensures* after { sem 𝓛 (EndsAs H.row H.Job.row self.entry (λ peer. (peer ≡ record self.old { end = peer.end }) × Lends (meaning H.begin_of H.step_of) self.old peer)) }
        ensures bytes { OfEach (meaning H.begin_of H.step_of) self.old (λ t h.
            option_map (λ bytes. bytes.now) result ≡ option_map (t.wire.spell (codec t h)) (due t.config (steps t h))) }
    {
        self.end.next_out()
    }
}
