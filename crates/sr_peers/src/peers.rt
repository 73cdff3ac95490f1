//! The two peers of a replay and what is kept of the links between them: what each action of a script makes of these. It doesn't know
//! texts.

ghost use Rattle.std.specs.Prelude.{◌≡◌, ◌≤◌, ◌+◌, ℕ, false, List, [], ◌++◌, length, drop, take, Some, None, IfOk, OnOk};
ghost use Rattle.hs_shake.specs.Requests.{IsVersion};
ghost use Rattle.hd_delivery.specs.Histories as of;
ghost use Rattle.hd_delivery.specs.Histories.{present_link, was_on};
ghost use Rattle.hd_delivery.specs.Processes.{processes};
ghost use Rattle.hd_delivery.specs.Bytes.{Wire, bytes_on};
ghost use Rattle.he_wire.specs.Wires.{IsHouseWire};
ghost use Rattle.hd_calls.specs.Peers.{PeerEvent, byte_steps, drawn, steps};
ghost use Rattle.hd_calls.specs.Rules.{own_live};
ghost use Rattle.hj_jobs.specs.Meaning.{meaning};
ghost use Rattle.hd_calls.specs.PeerWorlds.{Pair};
ghost use Rattle.sr_lines.specs.Lines.{standing_text};
ghost use Rattle.sr_script.specs.declared.action.Action.{Action};
ghost use Rattle.sr_script.specs.Script.{Program, most_of, opened};
ghost use Rattle.sr_peers.specs.Doings.{IsTried, ReadsTo, WithLosses, attaching, ticking};
ghost use Rattle.sr_peers.specs.Plays.{Goes, HasDone, OfEach};
ghost use Rattle.sr_script.specs.declared.action.Action.TheVariants as action;
ghost use Rattle.sr_peers.specs.Follows.{Follows, GoesOn, HasForgotten, HasMoved, IsOfPeers, WorksOn};
ghost use Rattle.sr_peers.specs.Works.{moves_bytes};
ghost use Rattle.sr_peers.specs.Runs.{Run, TellsRun, pair_of, read_in_all, world_of};
ghost use Rattle.hd_delivery.specs.Sides.{history};
ghost use Rattle.hd_delivery.specs.declared.vocabulary.Side.TheVariants.{Client, Server};
ghost use Rattle.sr_peers.specs.Report.{IsOnce, IsReportOver, pair_in};
ghost use Rattle.sr_peers.specs.Begun.{terms_of};

use crate::lane::{LinkBytes, leave};
use crate::laws::{what_is_lent_goes_on, writes_lend};
use crate::party::Party;
use hd_delivery::{
    Side, facts_hold, fed_is_lent, fed_is_unseen, frames_are_taken, unused_is_empty,
    unused_is_untouched,
};
use he_end::Config;
use hj_jobs::Hub;
use hp_peer::{peers_call_once, peers_keep_their_calls};
use hub_calc::{CalcHub, ClientHub, nothing_is_handed_up};
use hv_value::{Text, Value};
use sr_lines::push_standing;
use sr_script::{Action, Asking, Count};
use std::alloc::{AllocError, Global};

/// The name under which each side's hub knows the other.
const THE_OTHER: &str = "peer";

/// A client's and a server's peer, and the links between them.
#[derive(Drop)]
pub struct Peers {
    client: Party<ClientHub>,
    server: Party<CalcHub>,
    // by the script's numbers of the links
    lanes: Vec<LinkBytes>,
    // the latest moment, in milliseconds
    now: u64,
}

impl Peers {
    /// Two peers that are begun alike, before their first link.
    pub fn start(alloc: Global, config: Config) -> Result<Peers, AllocError>
        requires { IsVersion config.version }
        ensures { IfOk result (λ peers. (wire : Wire) → IsHouseWire config.limits.frame wire → Follows (pair_of config.limits wire (terms_of config)) [] [] peers) }
    {
        let client = Party::start(alloc, Side::Client, config, Text::of(alloc, THE_OTHER)?)?;
        let server = Party::start(alloc, Side::Server, config, Text::of(alloc, THE_OTHER)?)?;
        Ok(Peers {
            client,
            server,
            lanes: Vec::new(alloc),
            now: 0,
        })
    }

    /// Does an action of a script, and reports what comes of it. After an error the peers are of no use.
    pub fn act(
        &mut self,
        alloc: Global,
        action: Action,
        report: &mut Vec<u8>,
    ) -> Result<(), AllocError>
        requires { IsOfPeers action }
        ensures { OnOk result (GoesOn self.old action self.new report.old.items report.new.items) }
    {
        match action {
            Action::Open => self.open(alloc, report),
            Action::Accept(link) => self.accept(alloc, link, report),
            Action::Lose(side) => self.lose(alloc, side, report),
            Action::Write(side, count) => {
                self.write(side, count)?;
                Ok(())
            }
            Action::Read(side, count) => {
                self.read(alloc, side, count, report)?;
                Ok(())
            }
            Action::Close(side) => self.close(alloc, side, report),
            Action::Tick(now) => self.tick(alloc, now, report),
            Action::Call(side, asking) => self.call(alloc, side, asking, report),
            Action::Item(side, call, value) => self.item(alloc, side, call, value, report),
            Action::Done(side, call) => self.done(alloc, side, call, report),
            Action::Cancel(side, call) => self.cancel(alloc, side, call, report),
            Action::Round(side) => {
                self.round(alloc, side)?;
                Ok(())
            }
            Action::Send(_, _) => unreachable!(),
        }
    }

    /// How many links were opened.
    pub fn links(&self) -> u64
        ensures { (p : Pair) (actions : List Action) (r : Run) → Follows p actions r self.entry.now → result ≡ opened actions }
    {
        self.lanes.len() as u64
    }

    /// How many numbers the calls and uploads of both have drawn.
    pub fn drawn(&self) -> u64
        ensures { (p : Pair) (actions : List Action) (r : Run) → Follows p actions r self.entry.now →
            result ≡ drawn (history Client (world_of r)) + drawn (history Server (world_of r)) }
    {
        peers_keep_their_calls(self.client.peer());
        peers_keep_their_calls(self.server.peer());
        // What both draw lies far below 2^64.
        let client = self.client.peer().drawn();
        let server = self.server.peer().drawn();
        client.saturating_add(server)
    }

    /// How many calls and uploads of both are live.
    pub fn live(&self) -> u64
        ensures { (p : Pair) (actions : List Action) (r : Run) → Follows p actions r self.entry.now →
            result ≡ own_live (history Client (world_of r)) + own_live (history Server (world_of r)) }
    {
        peers_keep_their_calls(self.client.peer());
        peers_keep_their_calls(self.server.peer());
        let client = self.client.peer().live();
        let server = self.server.peer().live();
        client.saturating_add(server)
    }

    /// A law, which does nothing: what two peers did is a world in which each has processed a first part of what the other sent, and calls
    /// are carried out once.
    pub fn calls_once(&self)
        ensures { (p : Pair) (actions : List Action) (r : Run) → Follows p actions r self.entry.now → IsOnce p actions r }
    {
        peers_call_once(self.client.peer(), self.server.peer());
    }

    /// Reports how both ends stand, the client first. After the lines of a script's run that makes the report whole.
    pub fn finish(&self, alloc: Global, report: &mut Vec<u8>) -> Result<(), AllocError>
        ensures { OnOk result ((wire : Wire) (p : Program) (r : Run) → Follows (pair_in wire p) p.actions r self.entry.now →
            TellsRun (pair_in wire p) [] r report.old.items → IsReportOver wire p report.new.items) }
    {
        peers_call_once(self.client.peer(), self.server.peer());
        stand(alloc, &self.client, Side::Client, report)?;
        stand(alloc, &self.server, Side::Server, report)?;
        Ok(())
    }

    // ---- links

    /// The client attaches to a new link.
    fn open(&mut self, alloc: Global, report: &mut Vec<u8>) -> Result<(), AllocError>
        ensures { OnOk result (GoesOn self.old action.Open self.new report.old.items report.new.items) }
    {
        what_is_lent_goes_on();
        unused_is_untouched();
        unused_is_empty();
        let link = self.lanes.len() as u64;
        let opened = attach(
            alloc,
            &mut self.client,
            Side::Client,
            &mut self.lanes,
            link,
            self.now,
            report,
        )?;
        self.lanes.push(LinkBytes {
            to_server: Vec::new(alloc),
            to_client: Vec::new(alloc),
            opened,
        })?;
        Ok(())
    }

    /// The server attaches to this link, if the client did.
    fn accept(&mut self, alloc: Global, link: u64, report: &mut Vec<u8>) -> Result<(), AllocError>
        ensures { OnOk result (GoesOn self.old (action.Accept link) self.new report.old.items report.new.items) }
    {
        what_is_lent_goes_on();
        unused_is_untouched();
        unused_is_empty();
        let at = link as usize;
        if at >= self.lanes.len() {
            return Ok(());
        }
        if !self.lanes[at].opened {
            return Ok(());
        }
        attach(
            alloc,
            &mut self.server,
            Side::Server,
            &mut self.lanes,
            link,
            self.now,
            report,
        )?;
        Ok(())
    }

    /// A peer loses its link.
    fn lose(&mut self, alloc: Global, side: Side, report: &mut Vec<u8>) -> Result<(), AllocError>
        ensures { OnOk result (GoesOn self.old (action.Lose side) self.new report.old.items report.new.items) }
    {
        what_is_lent_goes_on();
        match side {
            Side::Client => {
                let left = self.client.link();
                self.client.lose(alloc, self.now, report)?;
                leave(alloc, &mut self.lanes, side, left);
            }
            Side::Server => {
                let left = self.server.link();
                self.server.lose(alloc, self.now, report)?;
                leave(alloc, &mut self.lanes, side, left);
            }
        }
        Ok(())
    }

    /// A peer puts so many of its frames on its link. True exactly if it put any. What this reports is nothing.
    pub fn write(&mut self, side: Side, count: Count) -> Result<bool, AllocError>
        ensures { IfOk result (λ wrote. (report : List ℕ) → WorksOn self.old (action.Write side count) self.new report report wrote) }
    {
        what_is_lent_goes_on();
        writes_lend();
        facts_hold();
        fed_is_lent();
        match side {
            Side::Client => {
                let Some(link) = self.client.link() else {
                    return Ok(false);
                };
                let at = link as usize;
                if at >= self.lanes.len() {
                    return Ok(false);
                }
                self.client
                    .write(most(count), &mut self.lanes[at].to_server)
            }
            Side::Server => {
                let Some(link) = self.server.link() else {
                    return Ok(false);
                };
                let at = link as usize;
                if at >= self.lanes.len() {
                    return Ok(false);
                }
                self.server
                    .write(most(count), &mut self.lanes[at].to_client)
            }
        }
    }

    /// A peer reads so many bytes of its link, and reports what comes of it. True exactly if it read any.
    pub fn read(
        &mut self,
        alloc: Global,
        side: Side,
        count: Count,
        report: &mut Vec<u8>,
    ) -> Result<bool, AllocError>
        ensures { IfOk result (λ has_read. WorksOn self.old (action.Read side count) self.new report.old.items report.new.items has_read) }
    {
        what_is_lent_goes_on();
        writes_lend();
        facts_hold();
        fed_is_lent();
        fed_is_unseen();
        frames_are_taken();
        match side {
            Side::Client => {
                let Some(link) = self.client.link() else {
                    return Ok(false);
                };
                let at = link as usize;
                if at >= self.lanes.len() {
                    return Ok(false);
                }
                let bytes = &mut self.lanes[at].to_client;
                read(
                    alloc,
                    &mut self.client,
                    &ClientHub,
                    self.now,
                    count,
                    bytes,
                    report,
                )
            }
            Side::Server => {
                let Some(link) = self.server.link() else {
                    return Ok(false);
                };
                let at = link as usize;
                if at >= self.lanes.len() {
                    return Ok(false);
                }
                let bytes = &mut self.lanes[at].to_server;
                read(
                    alloc,
                    &mut self.server,
                    &CalcHub,
                    self.now,
                    count,
                    bytes,
                    report,
                )
            }
        }
    }

    /// A peer is closed.
    fn close(&mut self, alloc: Global, side: Side, report: &mut Vec<u8>) -> Result<(), AllocError>
        ensures { OnOk result (GoesOn self.old (action.Close side) self.new report.old.items report.new.items) }
    {
        what_is_lent_goes_on();
        match side {
            Side::Client => self.client.close(alloc, report),
            Side::Server => self.server.close(alloc, report),
        }
    }

    /// A moment comes at both peers.
    fn tick(&mut self, alloc: Global, now: u64, report: &mut Vec<u8>) -> Result<(), AllocError>
        ensures { OnOk result (GoesOn self.old (action.Tick now) self.new report.old.items report.new.items) }
    {
        what_is_lent_goes_on();
        self.now = now;
        tick(
            alloc,
            &mut self.client,
            Side::Client,
            &mut self.lanes,
            now,
            report,
        )?;
        tick(
            alloc,
            &mut self.server,
            Side::Server,
            &mut self.lanes,
            now,
            report,
        )
    }

    // ---- calls and jobs

    /// A peer makes a call.
    fn call(
        &mut self,
        alloc: Global,
        side: Side,
        asking: Asking,
        report: &mut Vec<u8>,
    ) -> Result<(), AllocError>
        requires few { asking.uploads ≤ 1 }
        ensures { OnOk result (GoesOn self.old (action.Call side asking) self.new report.old.items report.new.items) }
    {
        what_is_lent_goes_on();
        let Asking {
            kind,
            uploads,
            target,
            arguments,
        } = asking;
        match side {
            Side::Client => self
                .client
                .call(alloc, kind, target, arguments, uploads, report),
            Side::Server => self
                .server
                .call(alloc, kind, target, arguments, uploads, report),
        }
    }

    /// A peer uploads an item.
    fn item(
        &mut self,
        alloc: Global,
        side: Side,
        call: u64,
        value: Value,
        report: &mut Vec<u8>,
    ) -> Result<(), AllocError>
        ensures { OnOk result (GoesOn self.old (action.Item side call value) self.new report.old.items report.new.items) }
    {
        what_is_lent_goes_on();
        match side {
            Side::Client => self.client.item(alloc, call, value, report),
            Side::Server => self.server.item(alloc, call, value, report),
        }
    }

    /// A peer ends an upload.
    fn done(
        &mut self,
        alloc: Global,
        side: Side,
        call: u64,
        report: &mut Vec<u8>,
    ) -> Result<(), AllocError>
        ensures { OnOk result (GoesOn self.old (action.Done side call) self.new report.old.items report.new.items) }
    {
        what_is_lent_goes_on();
        match side {
            Side::Client => self.client.done(alloc, call, report),
            Side::Server => self.server.done(alloc, call, report),
        }
    }

    /// A peer wants a call ended early.
    fn cancel(
        &mut self,
        alloc: Global,
        side: Side,
        call: u64,
        report: &mut Vec<u8>,
    ) -> Result<(), AllocError>
        ensures { OnOk result (GoesOn self.old (action.Cancel side call) self.new report.old.items report.new.items) }
    {
        what_is_lent_goes_on();
        match side {
            Side::Client => self.client.cancel(alloc, call, report),
            Side::Server => self.server.cancel(alloc, call, report),
        }
    }

    /// The jobs of a peer have their turns. True exactly if one has any. What this reports is nothing.
    pub fn round(&mut self, alloc: Global, side: Side) -> Result<bool, AllocError>
        ensures { IfOk result (λ due. (report : List ℕ) → WorksOn self.old (action.Round side) self.new report report due) }
    {
        what_is_lent_goes_on();
        nothing_is_handed_up();
        match side {
            Side::Client => self.client.round(alloc, &ClientHub, self.now),
            Side::Server => self.server.round(alloc, &CalcHub, self.now),
        }
    }
}

/// Reports how the end of a peer stands.
fn stand<H: Hub>(
    alloc: Global,
    party: &Party<H>,
    side: Side,
    report: &mut Vec<u8>,
) -> Result<(), AllocError>
    ensures { OnOk result (OfEach (meaning H.begin_of H.step_of) party.now (λ t h.
        report.new.items ≡ report.old.items ++ standing_text side t.config (steps t h))) }
{
    let end = party.end();
    push_standing(
        alloc,
        report,
        side,
        end.state(),
        end.sent_count(),
        end.processed_count(),
        end.held_count(),
    )
}

/// How many frames are written; `None`: all of them.
fn most(count: Count) -> Option<u64>
    ensures { result ≡ most_of count }
{
    match count {
        Count::UpTo(n) => Some(n),
        Count::Everything => None,
    }
}

/// A peer takes a link on which it never stood, or reports why not. What came on the link that it leaves is forgotten.
fn attach<H: Hub>(
    alloc: Global,
    party: &mut Party<H>,
    side: Side,
    lanes: &mut Vec<LinkBytes>,
    link: u64,
    now: u64,
    report: &mut Vec<u8>,
) -> Result<bool, AllocError>
    ensures tries { IfOk result (λ taken. OfEach (meaning H.begin_of H.step_of) party.old (λ t h. was_on link (steps t h) ≡ false → of.moment (steps t h) ≤ now →
        IsTried t h link now taken
        × HasDone (meaning H.begin_of H.step_of) t h party.new report.old.items report.new.items (attaching t h link now))) }
    ensures lanes { IfOk result (λ taken. HasMoved (meaning H.begin_of H.step_of) side party.old lanes.old.items lanes.new.items taken) }
{
    let left = party.link();
    let taken = party.attach(alloc, link, now, report)?;
    if taken {
        leave(alloc, lanes, side, left);
    }
    Ok(taken)
}

/// A moment comes at a peer. What came on its link is forgotten if it is silent for too long.
fn tick<H: Hub>(
    alloc: Global,
    party: &mut Party<H>,
    side: Side,
    lanes: &mut Vec<LinkBytes>,
    now: u64,
    report: &mut Vec<u8>,
) -> Result<(), AllocError>
    ensures ticks { OnOk result (OfEach (meaning H.begin_of H.step_of) party.old (λ t h. of.moment (steps t h) ≤ now →
        (ds : List PeerEvent) × (WithLosses t h (ticking t h now) ds
        × Goes (meaning H.begin_of H.step_of) t h party.new report.old.items report.new.items ds))) }
    ensures lanes { OnOk result (HasForgotten (meaning H.begin_of H.step_of) side party.old party.new lanes.old.items lanes.new.items) }
{
    let left = party.link();
    party.tick(alloc, now, report)?;
    if party.link().is_none() {
        leave(alloc, lanes, side, left);
    }
    Ok(())
}

/// How many bytes are read now, where `len` are left to be read.
fn end_of_read(count: Count, len: usize) -> usize
    ensures within { result ≤ len }
    ensures reads { (before : ℕ) (lent : List ℕ) → length (drop before lent) ≡ len →
        take result (drop before lent) ≡ drop before (read_in_all count before lent) }
{
    match count {
        Count::UpTo(n) => n.min(len as u64) as usize,
        Count::Everything => len,
    }
}

/// Reads so many of these bytes of its link, which are all that came there and weren't read, and takes them away.
fn read<H: Hub>(
    alloc: Global,
    party: &mut Party<H>,
    hub: &H,
    now: u64,
    count: Count,
    bytes: &mut Vec<u8>,
    report: &mut Vec<u8>,
) -> Result<bool, AllocError>
    ensures { IfOk result (λ has_read. OfEach (meaning H.begin_of H.step_of) party.old (λ t h. (l : ℕ) (lent : List ℕ) → present_link (steps t h) ≡ Some l →
        length (bytes_on l (byte_steps t h)) ≤ length lent → bytes.old.items ≡ drop (length (bytes_on l (byte_steps t h))) lent → processes t.config (steps t h) ≡ None →
        (ds : List PeerEvent) × (ReadsTo t h now (read_in_all count (length (bytes_on l (byte_steps t h))) lent) ds
        × Goes (meaning H.begin_of H.step_of) t h party.new report.old.items report.new.items ds
        × (bytes.new.items ≡ drop (length (bytes_on l (byte_steps t (ds ++ h)))) lent)
        × (has_read ≡ moves_bytes ds)))) }
{
    let len = bytes.len();
    let end = end_of_read(count, len);
    let fed = party.read(alloc, hub, now, &bytes[..end], report)?;
    // A party that stands for its moves is fed no more than there was.
    drop_front(bytes, fed.min(len));
    Ok(fed > 0)
}

/// Drops the first `count` bytes.
fn drop_front(bytes: &mut Vec<u8>, count: usize)
    requires { count ≤ length bytes.old.items }
    ensures { bytes.new.items ≡ drop count bytes.old.items }
{
    bytes.drain(..count);
}
