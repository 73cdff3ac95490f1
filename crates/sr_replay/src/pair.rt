//! The two ends of a replay and what is kept of the links between them: what each action of a script makes of these. It
//! doesn't know texts.

ghost use Rattle.std.specs.Prelude.{◌≡◌, ◌≤◌, ◌<◌, ◌++◌, ℕ, Bool, true, false, List, [], ◌∷◌, length, take, IfOk, OnOk, if◌then◌else◌};
ghost use Rattle.hm_message.specs.Message.{is_sequenced, Fits};
ghost use Rattle.hs_shake.specs.Requests.{IsVersion};
ghost use Rattle.hd_delivery.specs.Histories as of;
ghost use Rattle.hd_delivery.specs.Histories.{was_on, is_closed};
ghost use Rattle.hd_delivery.specs.Worlds.{Limits, Terms};
ghost use Rattle.hd_delivery.specs.Bytes.{Wire, ByteStep, bare_steps, bytes_on, in_frames};
ghost use Rattle.he_wire.specs.Wires.{IsHouseWire};
ghost use Rattle.he_end.specs.declared.errors.SendError.TheVariants as send;
ghost use Rattle.sr_script.specs.declared.action.Action.{Action};
ghost use Rattle.sr_script.specs.declared.action.Action.TheVariants as action;
ghost use Rattle.sr_script.specs.Script.{Program, Parses, opened, most_of};
ghost use Rattle.sr_notation.specs.Terms.{limits_in, terms_in};
ghost use Rattle.sr_replay.specs.Runs.{Doing, Run, attaching, closing, losing, ticking, steps_of, Sending, read_in_all};
ghost use Rattle.sr_replay.specs.declared.text_kind.TextKind.TheVariants as kinds;
ghost use Rattle.sr_replay.specs.declared.text_kind.TextKind.{TextKind};
ghost use Rattle.sr_replay.specs.Told.{told_text, doings_text, steps_text};
ghost use Rattle.hd_delivery.specs.Following.{FollowAll, FollowUpTo};
ghost use Rattle.hd_delivery.specs.Alone.{writing, reading};
ghost use Rattle.hd_delivery.specs.Sides.{other};
ghost use Rattle.sr_lines.specs.Lines.{standing_text};
ghost use Rattle.sr_replay.specs.Report.{IsReportOver, report_text};
ghost use Rattle.sr_replay.specs.Plays.{Plays, OfEach, limits_at};
ghost use Rattle.hd_delivery.specs.Alone.{lent_text};
ghost use Rattle.sr_replay.specs.Follows.{Follows, GoesOn, HandsOut, IsOfEnds, MayRead, Tries, said_by};
ghost use Rattle.sr_peers.specs.Begun.{terms_of};

use crate::laws::{ends_report, runs_are_worlds};
use crate::player::Player;
use crate::text_kind::TextKind;
use hd_delivery::{
    Side, State, facts_hold, fed_is_lent, fed_is_unseen, frames_are_taken, lent_comes_last,
    lent_stays, taken_has_room, unused_is_empty, unused_is_untouched,
};
use he_end::{Config, SendError};
use he_wire::wire_is_sound;
use hm_message::Message;
use sr_lines::push_standing;
use sr_script::{Action, Count};
use std::alloc::{AllocError, Global};

/// What both ends said on a link. A lost link keeps it.
#[derive(Drop)]
pub(crate) struct LinkBytes {
    to_server: Vec<u8>,
    to_client: Vec<u8>,
    // whether the client was there: it may have refused the link
    opened: bool,
}

/// The two ends, the links between them, and what was told of what happened so far.
#[derive(Drop)]
pub(crate) struct Pair {
    kind: TextKind,
    client: Player,
    server: Player,
    // how many bytes of its present link each end has read
    client_place: usize,
    server_place: usize,
    // by the script's numbers of the links
    lanes: Vec<LinkBytes>,
    // the latest moment, in milliseconds
    now: u64,
    told: Vec<u8>,
}

/// Takes a link, and reads it from its first byte; or tells why not.
fn attach(
    alloc: Global,
    kind: TextKind,
    player: &mut Player,
    link: u64,
    now: u64,
    place: &mut usize,
    told: &mut Vec<u8>,
) -> Result<bool, AllocError>
    ensures attaches { IfOk result (λ taken. OfEach player.old (λ wire c h. let k = in_frames wire c h in was_on link k ≡ false → of.moment k ≤ now →
        Plays wire c player.new (steps_of (attaching c k link now ∷ []) ++ h) × Tries c k link now taken place.old place.new
        × (told.new.items ≡ told.old.items ++ told_text kind wire c h (attaching c k link now)))) }
    ensures limits { OnOk result (limits_at player.new ≡ limits_at player.old) }
{
    let side = player.side();
    match player.attach(link, now) {
        Ok(()) => {
            *place = 0;
            kind.push_attached(alloc, told, side, link)?;
            Ok(true)
        }
        Err(why) => {
            kind.push_refused_attach(alloc, told, side, &why)?;
            Ok(false)
        }
    }
}

/// Loses the link, if there is one, and tells it.
fn lose(
    alloc: Global,
    kind: TextKind,
    player: &mut Player,
    now: u64,
    told: &mut Vec<u8>,
) -> Result<(), AllocError>
    ensures loses { OnOk result (OfEach player.old (λ wire c h. let k = in_frames wire c h in of.moment k ≤ now →
        Plays wire c player.new (steps_of (losing k now) ++ h) × (told.new.items ≡ told.old.items ++ doings_text kind wire c h (losing k now)))) }
    ensures limits { OnOk result (limits_at player.new ≡ limits_at player.old) }
{
    let side = player.side();
    let link = player.link();
    player.lose(now);
    match link {
        Some(_) => kind.push_detached(alloc, told, side),
        None => Ok(()),
    }
}

/// Closes an end, if it isn't closed, and tells it.
fn close(
    alloc: Global,
    kind: TextKind,
    player: &mut Player,
    told: &mut Vec<u8>,
) -> Result<(), AllocError>
    ensures closes { OnOk result (OfEach player.old (λ wire c h. let k = in_frames wire c h in
        Plays wire c player.new (steps_of (closing c k) ++ h) × (told.new.items ≡ told.old.items ++ doings_text kind wire c h (closing c k)))) }
    ensures limits { OnOk result (limits_at player.new ≡ limits_at player.old) }
{
    let side = player.side();
    let was_closed = is_closed(player);
    player.close();
    if was_closed {
        return Ok(());
    }
    kind.push_closed(alloc, told, side)
}

/// Whether it is a cause that the script has, and not want of memory.
fn is_cause(why: &SendError) -> bool
    ensures { result ≡ true → why.now ≡ send.NoMemory → ⊥ }
{
    match why {
        SendError::Opening => true,
        SendError::Closed => true,
        SendError::TooLong { .. } => true,
        SendError::Full { .. } => true,
        SendError::Exhausted => true,
        SendError::NoMemory => false,
    }
}

/// Whether its end is closed.
fn is_closed(player: &Player) -> bool
    ensures { OfEach player.now (λ wire c h. result ≡ is_closed c (in_frames wire c h)) }
{
    match player.state() {
        State::Opening => false,
        State::Ready => false,
        State::Away => false,
        State::Closed => true,
    }
}

/// Sends a message, and tells it, or why it isn't sent.
fn send(
    alloc: Global,
    kind: TextKind,
    player: &mut Player,
    message: &Message,
    told: &mut Vec<u8>,
) -> Result<(), AllocError>
    requires sequenced { is_sequenced message.now ≡ true }
    requires fits { Fits message.now }
    ensures sends { OnOk result (OfEach player.old (λ wire c h. (d : Doing) × (Sending (limits_at player.old) wire c (in_frames wire c h) message.now d
        × Plays wire c player.new (steps_of (d ∷ []) ++ h) × (told.new.items ≡ told.old.items ++ told_text kind wire c h d)))) }
    ensures limits { OnOk result (limits_at player.new ≡ limits_at player.old) }
{
    fed_is_unseen();
    let side = player.side();
    match player.send(alloc, message) {
        Ok(number) => kind.push_sent(alloc, told, side, number, message),
        Err(why) => {
            if !is_cause(&why) {
                return Err(AllocError);
            }
            kind.push_refused_send(alloc, told, side, &why)
        }
    }
}

/// Lets a moment come, and tells it.
fn tick(
    alloc: Global,
    kind: TextKind,
    player: &mut Player,
    now: u64,
    told: &mut Vec<u8>,
) -> Result<(), AllocError>
    ensures ticks { OnOk result (OfEach player.old (λ wire c h. let k = in_frames wire c h in of.moment k ≤ now →
        Plays wire c player.new (steps_of (ticking c k now ∷ []) ++ h)
        × (told.new.items ≡ told.old.items ++ told_text kind wire c h (ticking c k now)))) }
    ensures limits { OnOk result (limits_at player.new ≡ limits_at player.old) }
{
    let side = player.side();
    let silent = player.tick(now);
    kind.push_ticked(alloc, told, side, silent, now)
}

/// Writes on a link, and tells it.
fn write(
    alloc: Global,
    kind: TextKind,
    player: &mut Player,
    side: Side,
    count: Count,
    lane: &mut LinkBytes,
    told: &mut Vec<u8>,
) -> Result<(), AllocError>
    ensures writes { OnOk result (OfEach player.old (λ wire c h. (ss : List ByteStep) × (FollowUpTo (most_of count) (writing wire c) h ss
        × Plays wire c player.new (ss ++ h) × (said_by side lane.new ≡ said_by side lane.old ++ lent_text wire c h ss)
        × (told.new.items ≡ told.old.items ++ steps_text kind wire c h ss)))) }
    ensures other { said_by (other side) lane.new ≡ said_by (other side) lane.old }
    ensures opened { lane.new.opened ≡ lane.old.opened }
    ensures limits { OnOk result (limits_at player.new ≡ limits_at player.old) }
{
    match side {
        Side::Client => player.write(alloc, kind, count, &mut lane.to_server, told),
        Side::Server => player.write(alloc, kind, count, &mut lane.to_client, told),
    }
}

/// Up to where a link is read, of which `place` bytes were read and `len` bytes were said.
fn end_of_read(count: Count, place: usize, len: usize) -> usize
    ensures within { result ≤ len }
    ensures reads { (said : List ℕ) → length said ≡ len → place ≤ len →
        (take result said ≡ read_in_all count place said) × (result ≡ length (read_in_all count place said)) }
{
    let from = place.min(len);
    match count {
        Count::UpTo(n) => from + n.min((len - from) as u64) as usize,
        Count::Everything => len,
    }
}

/// Reads on from this place of a link, and tells what it gives. A closed end reads nothing.
fn read(
    alloc: Global,
    kind: TextKind,
    player: &mut Player,
    count: Count,
    said: &[u8],
    place: &mut usize,
    told: &mut Vec<u8>,
) -> Result<(), AllocError>
    ensures reads { OnOk result (OfEach player.old (λ wire c h. (l : ℕ) → MayRead wire c h l place.old said.now →
        (ss : List ByteStep) × (FollowAll (reading (limits_at player.old) wire c (read_in_all count (length (bytes_on l h)) said.now)) h ss
        × Plays wire c player.new (ss ++ h) × (told.new.items ≡ told.old.items ++ steps_text kind wire c h ss)
        × (is_closed c (in_frames wire c h) ≡ false → place.new ≡ length (read_in_all count (length (bytes_on l h)) said.now))))) }
    ensures limits { OnOk result (limits_at player.new ≡ limits_at player.old) }
{
    if is_closed(player) {
        return Ok(());
    }
    let end = end_of_read(count, *place, said.len());
    let from = (*place).min(end);
    player.read(alloc, kind, &said[from..end], told)?;
    *place = end;
    Ok(())
}

/// Reports how an end stands.
fn stand(alloc: Global, player: &Player, side: Side, report: &mut Vec<u8>) -> Result<(), AllocError>
    ensures { OnOk result (OfEach player.now (λ wire c h. report.new.items ≡ report.old.items ++ standing_text side c (bare_steps h))) }
{
    fed_is_unseen();
    push_standing(
        alloc,
        report,
        side,
        player.state(),
        player.sent_count(),
        player.processed_count(),
        player.held_count(),
    )
}

impl Pair {
    /// Two ends that are begun alike, before their first link.
    pub(crate) fn start(alloc: Global, kind: TextKind, config: Config) -> Result<Pair, AllocError>
        requires { IsVersion config.version }
        ensures { IfOk result (λ pair. (wire : Wire) → IsHouseWire config.limits.frame wire →
            Follows kind [] config.limits wire (terms_of config) [] [] pair) }
    {
        Ok(Pair {
            kind,
            client: Player::start(alloc, Side::Client, config)?,
            server: Player::start(alloc, Side::Server, config)?,
            client_place: 0,
            server_place: 0,
            lanes: Vec::new(alloc),
            now: 0,
            told: Vec::new(alloc),
        })
    }

    /// Does what an action asks for. After an error the pair is of no use.
    pub(crate) fn act(&mut self, alloc: Global, action: &Action) -> Result<(), AllocError>
        requires { IsOfEnds action.now }
        ensures { OnOk result (GoesOn self.old action.now self.new) }
    {
        match action {
            Action::Open => self.open(alloc),
            Action::Accept(link) => self.accept(alloc, *link),
            Action::Lose(side) => self.lose(alloc, *side),
            Action::Write(side, count) => self.write(alloc, *side, *count),
            Action::Read(side, count) => self.read(alloc, *side, *count),
            Action::Close(side) => self.close(alloc, *side),
            Action::Send(side, message) => self.send(alloc, *side, message),
            Action::Tick(now) => self.tick(alloc, *now),
            Action::Call(_, _) => unreachable!(),
            Action::Item(_, _, _) => unreachable!(),
            Action::Done(_, _) => unreachable!(),
            Action::Cancel(_, _) => unreachable!(),
            Action::Round(_) => unreachable!(),
        }
    }

    /// What it told and that wasn't taken away yet.
    pub(crate) fn told(&self) -> &[u8]
        ensures { result.now ≡ self.entry.now.told.items }
    {
        &self.told
    }

    /// Takes away what it told.
    pub(crate) fn clear_told(&mut self)
        ensures hands_out { HandsOut self.old self.old.told.items self.new }
        ensures empty { self.new.told.items ≡ [] }
    {
        self.told.clear();
    }

    /// How many links were opened.
    pub(crate) fn links(&self) -> u64
        ensures { (kind : TextKind) (gone : List ℕ) (limits : Limits) (wire : Wire) (t : Terms) (actions : List Action) (r : Run) →
            Follows kind gone limits wire t actions r self.entry.now → result ≡ opened actions }
    {
        self.lanes.len() as u64
    }

    /// If the two ends did what a script says, the text of their run is its report. It does nothing: its contract is the law.
    pub(crate) fn reports(&self)
        ensures { (kind : TextKind) (gone : List ℕ) (wire : Wire) (text : List ℕ) (p : Program) (r : Run) → IsHouseWire (limits_in p.settings).frame wire →
            Parses text p → Follows kind gone (limits_in p.settings) wire (terms_in p.settings) p.actions r self.entry.now →
            IsReportOver wire p (report_text (terms_in p.settings) r) }
    {
        ends_report(self.client.end(), self.server.end());
    }

    /// The whole report, if that is what was told: after what happened, how both ends stand.
    pub(crate) fn finish(self, alloc: Global) -> Result<Vec<u8>, AllocError>
        ensures { IfOk result (λ text. (limits : Limits) (wire : Wire) (t : Terms) (actions : List Action) (r : Run) →
            Follows kinds.Report [] limits wire t actions r self → text.items ≡ report_text t r) }
    {
        fed_is_unseen();
        let mut report = self.told;
        stand(alloc, &self.client, Side::Client, &mut report)?;
        stand(alloc, &self.server, Side::Server, &mut report)?;
        Ok(report)
    }

    /// The client attaches to a new link.
    fn open(&mut self, alloc: Global) -> Result<(), AllocError>
        ensures { OnOk result (GoesOn self.old action.Open self.new) }
    {
        runs_are_worlds();
        unused_is_untouched();
        unused_is_empty();
        wire_is_sound();
        let link = self.lanes.len() as u64;
        let opened = attach(
            alloc,
            self.kind,
            &mut self.client,
            link,
            self.now,
            &mut self.client_place,
            &mut self.told,
        )?;
        self.lanes.push(LinkBytes {
            to_server: Vec::new(alloc),
            to_client: Vec::new(alloc),
            opened,
        })?;
        Ok(())
    }

    /// The server attaches to this link, if the client did.
    fn accept(&mut self, alloc: Global, link: u64) -> Result<(), AllocError>
        ensures { OnOk result (GoesOn self.old (action.Accept link) self.new) }
    {
        runs_are_worlds();
        unused_is_untouched();
        unused_is_empty();
        wire_is_sound();
        let at = link as usize;
        if at >= self.lanes.len() {
            return Ok(());
        }
        if !self.lanes[at].opened {
            return Ok(());
        }
        attach(
            alloc,
            self.kind,
            &mut self.server,
            link,
            self.now,
            &mut self.server_place,
            &mut self.told,
        )?;
        Ok(())
    }

    /// An end puts so many of its frames on its link.
    fn write(&mut self, alloc: Global, side: Side, count: Count) -> Result<(), AllocError>
        ensures { OnOk result (GoesOn self.old (action.Write side count) self.new) }
    {
        runs_are_worlds();
        facts_hold();
        lent_comes_last();
        lent_stays();
        wire_is_sound();
        match side {
            Side::Client => {
                let Some(link) = self.client.link() else {
                    return Ok(());
                };
                let at = link as usize;
                if at >= self.lanes.len() {
                    return Ok(());
                }
                write(
                    alloc,
                    self.kind,
                    &mut self.client,
                    side,
                    count,
                    &mut self.lanes[at],
                    &mut self.told,
                )
            }
            Side::Server => {
                let Some(link) = self.server.link() else {
                    return Ok(());
                };
                let at = link as usize;
                if at >= self.lanes.len() {
                    return Ok(());
                }
                write(
                    alloc,
                    self.kind,
                    &mut self.server,
                    side,
                    count,
                    &mut self.lanes[at],
                    &mut self.told,
                )
            }
        }
    }

    /// An end reads so many bytes of its link.
    fn read(&mut self, alloc: Global, side: Side, count: Count) -> Result<(), AllocError>
        ensures { OnOk result (GoesOn self.old (action.Read side count) self.new) }
    {
        runs_are_worlds();
        facts_hold();
        frames_are_taken();
        fed_is_lent();
        lent_stays();
        taken_has_room();
        fed_is_unseen();
        wire_is_sound();
        match side {
            Side::Client => {
                let Some(link) = self.client.link() else {
                    return Ok(());
                };
                let at = link as usize;
                if at >= self.lanes.len() {
                    return Ok(());
                }
                read(
                    alloc,
                    self.kind,
                    &mut self.client,
                    count,
                    &self.lanes[at].to_client,
                    &mut self.client_place,
                    &mut self.told,
                )
            }
            Side::Server => {
                let Some(link) = self.server.link() else {
                    return Ok(());
                };
                let at = link as usize;
                if at >= self.lanes.len() {
                    return Ok(());
                }
                read(
                    alloc,
                    self.kind,
                    &mut self.server,
                    count,
                    &self.lanes[at].to_server,
                    &mut self.server_place,
                    &mut self.told,
                )
            }
        }
    }

    /// An end loses its link.
    fn lose(&mut self, alloc: Global, side: Side) -> Result<(), AllocError>
        ensures { OnOk result (GoesOn self.old (action.Lose side) self.new) }
    {
        runs_are_worlds();
        wire_is_sound();
        match side {
            Side::Client => lose(alloc, self.kind, &mut self.client, self.now, &mut self.told),
            Side::Server => lose(alloc, self.kind, &mut self.server, self.now, &mut self.told),
        }
    }

    /// An end is closed.
    fn close(&mut self, alloc: Global, side: Side) -> Result<(), AllocError>
        ensures { OnOk result (GoesOn self.old (action.Close side) self.new) }
    {
        match side {
            Side::Client => close(alloc, self.kind, &mut self.client, &mut self.told),
            Side::Server => close(alloc, self.kind, &mut self.server, &mut self.told),
        }
    }

    /// An end sends a message.
    fn send(&mut self, alloc: Global, side: Side, message: &Message) -> Result<(), AllocError>
        requires sequenced { is_sequenced message.now ≡ true }
        requires fits { Fits message.now }
        ensures { OnOk result (GoesOn self.old (action.Send side message.now) self.new) }
    {
        match side {
            Side::Client => send(alloc, self.kind, &mut self.client, message, &mut self.told),
            Side::Server => send(alloc, self.kind, &mut self.server, message, &mut self.told),
        }
    }

    /// A moment comes at both ends.
    fn tick(&mut self, alloc: Global, now: u64) -> Result<(), AllocError>
        ensures { OnOk result (GoesOn self.old (action.Tick now) self.new) }
    {
        runs_are_worlds();
        wire_is_sound();
        tick(alloc, self.kind, &mut self.client, now, &mut self.told)?;
        tick(alloc, self.kind, &mut self.server, now, &mut self.told)?;
        self.now = now;
        Ok(())
    }
}
