//! One end of a replay: what it does on the link where it stands. It doesn't know scripts, nor the other end.

ghost use Rattle.std.specs.Prelude.{◌≡◌, ◌<◌, ◌≤◌, ◌+◌, ℕ, suc, true, false, List, [], ◌∷◌, ◌++◌, Some, None, IfOk, IfErr, OnOk, MatchResult, length, drop, take, if◌then◌else◌};
ghost use Rattle.hm_message.specs.Message.{is_sequenced, Fits};
ghost use Rattle.hm_codec.specs.Frames.{said_again};
ghost use Rattle.hs_shake.specs.Requests.{IsVersion};
ghost use Rattle.hd_delivery.specs.Histories as of;
ghost use Rattle.hd_delivery.specs.Histories.{Attached, Silenced, Ticked, Sent, present_link, was_on, codec_of, is_silence, sent_messages, processed_messages, held_messages};
ghost use Rattle.hd_delivery.specs.Processes.{processes};
ghost use Rattle.hd_delivery.specs.Sending.{SendRefusal, IsRefusedToSend};
ghost use Rattle.hd_delivery.specs.Worlds.{MaySend};
ghost use Rattle.hd_delivery.specs.Bytes.{Wire, ByteStep, Bytes, Does, bytes_on, in_frames, sizes_of};
ghost use Rattle.he_wire.specs.Wires.{IsHouseWire};
ghost use Rattle.he_end.specs.Stands.{begun};
ghost use Rattle.he_end.specs.Words.{attach_words, send_words};
ghost use Rattle.he_end.specs.declared.errors.SendError.TheVariants as send;
ghost use Rattle.sr_replay.specs.Runs.{Makes, Refuses, attaching, losing, closing, steps_of};
ghost use Rattle.sr_lines.specs.Lines.{refusal_words};
ghost use Rattle.hd_delivery.specs.Following.{FollowAll, FollowUpTo};
ghost use Rattle.hd_delivery.specs.Alone.{writing, reading, taking};
ghost use Rattle.sr_replay.specs.Told.{steps_text};
ghost use Rattle.sr_replay.specs.Plays.{Plays, OfEach, Feeds, Goes, Says, limits_at, most_steps};
ghost use Rattle.hd_delivery.specs.Alone.{lent_text};
ghost use Rattle.sr_script.specs.Script.{most_of};

use crate::text_kind::TextKind;
use hd_delivery::{
    Reason, Side, State, facts_hold, fed_is_unseen, taken_has_room, takes_few, writes_few,
};
use he_end::{AttachError, Config, End, NextError, SendError};
use he_wire::wire_is_sound;
use hm_message::Message;
use sr_script::Count;
use std::alloc::{AllocError, Global};

/// An end, and the link on which it stands.
#[derive(Drop)]
pub(crate) struct Player {
    end: End,
    side: Side,
    // the script's number of the link
    link: Option<u64>,
}

impl Player {
    /// An end before its first link.
    pub(crate) fn start(alloc: Global, side: Side, config: Config) -> Result<Player, AllocError>
        requires { IsVersion config.version }
        ensures plays { IfOk result (λ p. (wire : Wire) → IsHouseWire config.limits.frame wire → Plays wire (begun side config) p []) }
        ensures limits { IfOk result (λ p. limits_at p ≡ config.limits) }
    {
        let end = End::start(alloc, side, config)?;
        Ok(Player {
            end,
            side,
            link: None,
        })
    }

    // ---- what it is

    /// Which end it is.
    pub(crate) fn side(&self) -> Side
        ensures { OfEach self.now (λ wire c h. result ≡ c.side) }
    {
        self.side
    }

    /// The link on which it stands.
    pub(crate) fn link(&self) -> Option<u64>
        ensures { OfEach self.now (λ wire c h. result ≡ present_link (in_frames wire c h)) }
    {
        self.link
    }

    /// Its end.
    pub(crate) fn end(&self) -> &End
        ensures { result.now ≡ self.now.end }
    {
        &self.end
    }

    /// What its end can do.
    pub(crate) fn state(&self) -> State
        ensures { OfEach self.now (λ wire c h. result ≡ of.state c (in_frames wire c h)) }
    {
        self.end.state()
    }

    /// How many messages it sent.
    pub(crate) fn sent_count(&self) -> u64
        ensures { OfEach self.now (λ wire c h. result ≡ length (sent_messages (in_frames wire c h))) }
    {
        self.end.sent_count()
    }

    /// How many messages of the other end it handed out.
    pub(crate) fn processed_count(&self) -> u64
        ensures { OfEach self.now (λ wire c h. result ≡ length (processed_messages (in_frames wire c h))) }
    {
        self.end.processed_count()
    }

    /// How many messages it holds.
    pub(crate) fn held_count(&self) -> usize
        ensures { OfEach self.now (λ wire c h. result ≡ length (held_messages c (in_frames wire c h))) }
    {
        self.end.held_count()
    }

    // ---- what it does

    /// Takes this link, on which it never stood.
    pub(crate) fn attach(&mut self, link: u64, now: u64) -> Result<(), AttachError>
        ensures attached { OfEach self.old (λ wire c h. let k = in_frames wire c h in was_on link k ≡ false → of.moment k ≤ now →
            MatchResult result
            (λ _. (attaching c k link now ≡ Makes (Does (Attached link now))) × Plays wire c self.new (Does (Attached link now) ∷ h))
            (λ e. (attaching c k link now ≡ Refuses (attach_words e)) × Plays wire c self.new h)) }
        ensures limits { limits_at self.new ≡ limits_at self.old }
    {
        self.end.attach(now)?;
        self.link = Some(link);
        Ok(())
    }

    /// Loses its link, if it has one.
    pub(crate) fn lose(&mut self, now: u64)
        ensures lost { OfEach self.old (λ wire c h. let k = in_frames wire c h in of.moment k ≤ now → Plays wire c self.new (steps_of (losing k now) ++ h)) }
        ensures limits { limits_at self.new ≡ limits_at self.old }
    {
        self.end.detach(now);
        self.link = None;
    }

    /// Closes the end, if it isn't closed: nothing is left to do.
    pub(crate) fn close(&mut self)
        ensures closed { OfEach self.old (λ wire c h. Plays wire c self.new (steps_of (closing c (in_frames wire c h)) ++ h)) }
        ensures limits { limits_at self.new ≡ limits_at self.old }
    {
        self.end.close(Reason::Done, false);
    }

    /// A moment comes. True exactly if it is a silence.
    pub(crate) fn tick(&mut self, now: u64) -> bool
        ensures ticked { OfEach self.old (λ wire c h. let k = in_frames wire c h in of.moment k ≤ now → (result ≡ is_silence c now k)
            × Plays wire c self.new (Does (if result then Silenced now else Ticked now) ∷ h)) }
        ensures limits { limits_at self.new ≡ limits_at self.old }
    {
        if self.end.tick(now) {
            self.link = None;
            return true;
        }
        false
    }

    /// Sends a message.
    pub(crate) fn send(&mut self, alloc: Global, message: &Message) -> Result<u64, SendError>
        requires sequenced { is_sequenced message.now ≡ true }
        requires fits { Fits message.now }
        ensures ok { IfOk result (λ number. OfEach self.old (λ wire c h. let k = in_frames wire c h in let read = said_again (codec_of c k) message.now in
            MaySend (limits_at self.old) (sizes_of wire) c k read × (number ≡ suc (length (sent_messages k))) × Plays wire c self.new (Does (Sent read) ∷ h))) }
        ensures refused { IfErr result (λ e. OfEach self.old (λ wire c h. let k = in_frames wire c h in
            ((e ≡ send.NoMemory → ⊥) → (why : SendRefusal) × (IsRefusedToSend (limits_at self.old) (sizes_of wire) c k (said_again (codec_of c k) message.now) why
            × (refusal_words why ≡ send_words e)))
            × Plays wire c self.new h)) }
        ensures limits { limits_at self.new ≡ limits_at self.old }
    {
        self.end.send(alloc, message)
    }

    /// Puts so many of the frames that are due on the link whose bytes these are, and tells of each.
    pub(crate) fn write(
        &mut self,
        alloc: Global,
        kind: TextKind,
        count: Count,
        lane: &mut Vec<u8>,
        told: &mut Vec<u8>,
    ) -> Result<(), AllocError>
        ensures written { OnOk result (OfEach self.old (λ wire c h. (ss : List ByteStep) × (FollowUpTo (most_of count) (writing wire c) h ss × Plays wire c self.new (ss ++ h)
            × (lane.new.items ≡ lane.old.items ++ lent_text wire c h ss) × (told.new.items ≡ told.old.items ++ steps_text kind wire c h ss)))) }
        ensures limits { OnOk result (limits_at self.new ≡ limits_at self.old) }
    {
        facts_hold();
        writes_few();
        for _written in 0..most(count) {
            if !self.write_one(alloc, kind, lane, told)? {
                return Ok(());
            }
        }
        Ok(())
    }

    /// Reads these bytes of its link, which are all that are to be read of what comes next there, and tells what they give. All frames that came
    /// before were taken.
    pub(crate) fn read(
        &mut self,
        alloc: Global,
        kind: TextKind,
        bytes: &[u8],
        told: &mut Vec<u8>,
    ) -> Result<(), AllocError>
        ensures read { OnOk result (OfEach self.old (λ wire c h. (l : ℕ) (all : List ℕ) → present_link (in_frames wire c h) ≡ Some l →
            bytes.now ≡ drop (length (bytes_on l h)) all → processes c (in_frames wire c h) ≡ None →
            (ss : List ByteStep) × (FollowAll (reading (limits_at self.old) wire c all) h ss × Plays wire c self.new (ss ++ h)
            × (told.new.items ≡ told.old.items ++ steps_text kind wire c h ss)))) }
        ensures limits { OnOk result (limits_at self.new ≡ limits_at self.old) }
    {
        fed_is_unseen();
        let side = self.side;
        let mut at = 0;
        while at < bytes.len() {
            let rest = &bytes[at..];
            let taken = self.feed(rest);
            if taken == 0 {
                return Ok(());
            }
            kind.push_fed(alloc, told, side, &rest[..taken])?;
            at += taken;
            self.take_all(alloc, kind, told)?;
        }
        Ok(())
    }

    // ---- inside

    /// Puts the next frame that is due on the link, if one is, and tells of it. True exactly if one was.
    fn write_one(
        &mut self,
        alloc: Global,
        kind: TextKind,
        lane: &mut Vec<u8>,
        told: &mut Vec<u8>,
    ) -> Result<bool, AllocError>
        ensures wrote { IfOk result (λ more. OfEach self.old (λ wire c h.
            Says kind wire c h self.new lane.old.items lane.new.items told.old.items told.new.items more)) }
        ensures limits { OnOk result (limits_at self.new ≡ limits_at self.old) }
    {
        let side = self.side;
        let Some(bytes) = self.end.next_out() else {
            return Ok(false);
        };
        lane.extend_from_slice(bytes)?;
        kind.push_lent(alloc, told, side, bytes)?;
        Ok(true)
    }

    /// Feeds it a first part of these bytes of its link, and answers how many: none if nothing can be fed.
    fn feed(&mut self, piece: &[u8]) -> usize
        requires { 0 < length piece.now }
        ensures within { result ≤ length piece.now }
        ensures fed { OfEach self.old (λ wire c h. (l : ℕ) (all : List ℕ) → present_link (in_frames wire c h) ≡ Some l →
            piece.now ≡ drop (length (bytes_on l h)) all → processes c (in_frames wire c h) ≡ None →
            Feeds (reading (limits_at self.old) wire c all) wire c h self.new (take result piece.now)) }
        ensures limits { limits_at self.new ≡ limits_at self.old }
        ensures link { self.new.link ≡ self.old.link }
    {
        fed_is_unseen();
        taken_has_room();
        wire_is_sound();
        self.end.feed(piece)
    }

    /// Takes every whole frame that was fed, and tells what it gives.
    fn take_all(
        &mut self,
        alloc: Global,
        kind: TextKind,
        told: &mut Vec<u8>,
    ) -> Result<(), AllocError>
        ensures taken { OnOk result (OfEach self.old (λ wire c h. (ss : List ByteStep) × (FollowAll (taking wire c) h ss × Plays wire c self.new (ss ++ h)
            × (told.new.items ≡ told.old.items ++ steps_text kind wire c h ss)))) }
        ensures limits { OnOk result (limits_at self.new ≡ limits_at self.old) }
        ensures link { OnOk result (self.new.link ≡ self.old.link) }
    {
        takes_few();
        wire_is_sound();
        // Limits are in range, so an end has fewer frames to take than 64 bits count.
        let _ = self.end.limits().frame();
        for _taken in 0..u64::MAX {
            if !self.take_one(alloc, kind, told)? {
                return Ok(());
            }
        }
        Ok(())
    }

    /// Takes the next whole frame, if there is one, and tells what it gives. True exactly if there was one.
    fn take_one(
        &mut self,
        alloc: Global,
        kind: TextKind,
        told: &mut Vec<u8>,
    ) -> Result<bool, AllocError>
        ensures took { IfOk result (λ more. OfEach self.old (λ wire c h.
            Goes (taking wire c) (steps_text kind wire c) wire c h self.new told.old.items told.new.items more)) }
        ensures limits { OnOk result (limits_at self.new ≡ limits_at self.old) }
        ensures link { OnOk result (self.new.link ≡ self.old.link) }
    {
        fed_is_unseen();
        match self.end.next(alloc) {
            Ok(None) => Ok(false),
            Ok(Some(got)) => {
                let number = self.end.processed_count();
                kind.push_took(alloc, told, self.side, number, &got)?;
                Ok(true)
            }
            Err(fault) => match fault {
                NextError::NoMemory => Err(AllocError),
                fault => {
                    kind.push_failed(alloc, told, self.side, &fault)?;
                    Ok(true)
                }
            },
        }
    }
}

/// A bound of the steps of one call. Nothing that an end does by itself has 2^64-1 steps.
fn most(count: Count) -> u64
    ensures { result ≡ most_steps count }
{
    match count {
        Count::UpTo(n) => n,
        Count::Everything => u64::MAX,
    }
}
