//! One turn of a client: it dials or hears, works, and says and prints what comes of that.

ghost use Rattle.std.specs.Prelude.{◌≡◌, ◌≢◌, ◌≤◌, ◌+◌, ℕ, List, [], Option, true, false, not, Some as Given, None as Absent, Ok, Err, IfOk, OnOk, MatchResult, if◌then◌else◌};
ghost use Rattle.hd_facts.specs.Counts.{CountsFailure, HasCause};
ghost use Rattle.hd_facts.specs.Writes.{PutAppends};
ghost use Rattle.hub_calc.specs.Client.{client_hub};
ghost use Rattle.hd_calls.specs.Peers.{Settings};
ghost use Rattle.hw_door.specs.Calls.{HasFaultCause};
ghost use Rattle.hd_server.specs.Plans.{onto};
ghost use Rattle.hd_dialing.specs.Asks.{Setup as Dialing};
ghost use Rattle.hd_dialing.specs.Events.{DialEvent};
ghost use Rattle.hd_dialing.specs.Telling.{has_failed_draw};
ghost use Rattle.hd_client.specs.declared.order.Order.{Order};
ghost use Rattle.hd_client.specs.Setups.{Setup};
ghost use Rattle.hd_client.specs.Events.{ClientEvent, settings_of, moves, moment, phase_of, is_over, has_closed, IsClientPeer};
ghost use Rattle.hd_client.specs.Events.{is_over as is_over_by};
ghost use Rattle.hd_client.specs.Plans.{linking, ticking, losing, closing, losses, leaving, obeys as obeys_by};
ghost use Rattle.hd_client.specs.Turns.{IsFed, RoundsWith, LinesDone};
ghost use Rattle.hd_client.specs.Telling.{wait_for, is_idle};
ghost use Rattle.hd_client.specs.Laws.{IsDialedSo};
ghost use Rattle.hn_dialing.specs.Calls.{news_of as news_as};
ghost use Rattle.hn_dialing.specs.Stands.{Stands as Connected};
ghost use Rattle.sr_client.specs.declared.client.ClientError.TheVariants as error;
ghost use Rattle.sr_client.specs.declared.client.Words.{Words as WordsMeant};
ghost use Rattle.sr_client.specs.Clients.{Before, Fits, Kept, PlaysBy, Standing, StandsClient, Tells, Working};
ghost use Rattle.sr_client.specs.Running.{HasTurned, IsCausedBy, IsTouchedByBytes, WentSo, faults};
ghost use Rattle.sr_client.specs.Turning.{AreNone, BeginsBy, FitsNews, Follows, GivesBy, HasDone, IsAnswer, MayLink, MayStart, ObeysBy, SaysDue, SaysIn, WorksOn};

use crate::client::{Client, ClientError, Words};
use crate::orders::{Obeyed, obey};
use crate::peer::ClientPeer;
use hd_server::MOST_WAIT;
use hm_message::Ending;
use hn_dialing::{News, Phase};
use hw_door::{Dialer, DoorError, Lots};
use hw_io::{Failed, Sink};
use std::alloc::{AllocError, Global};

impl Client {
    /// One turn: it dials, if its connection is due, and else hears what happens next, after a wait of 100 milliseconds at most, or of none while a job
    /// is due, or, while it may not dial yet, of the time until it may. What comes is taken, its end ticks, its jobs have a round, and the lines of its
    /// script that can be done are done. Then what is due is said, and what came of all this is printed.
    ///
    /// True once it is done: its script is at its end, no call is live, and its end is closed. After its end, whatever that was, a turn asks for
    /// nothing, and answers true: there is nothing more to do.
    ///
    /// What fails ends it. What is said and printed comes last, so that nothing is of a turn whose own work memory cut short.
    pub fn turn<C: Dialer, L: Lots, K: Sink>(
        &mut self,
        alloc: Global,
        dialer: &mut C,
        lots: &mut L,
        out: &mut K,
    ) -> Result<bool, ClientError>
        ensures turn { (s : Setup) (script : List Order) (h : List ClientEvent) → StandsClient s script self.old h → Fits (C.lanes dialer.old) (C.moment dialer.old) h →
            HasTurned s script (λ after. StandsClient s script self.new after × Fits (C.lanes dialer.new) (C.moment dialer.new) after)
            (WentSo (λ calls. C.Goes dialer.old calls dialer.new) (L.drawn lots.old) (L.drawn lots.new) (K.holds out.old) (K.holds out.new)) h result }
        ensures over { MatchResult result (λ done. self.new.is_ended ≡ done) (λ e. self.new.is_ended ≡ true) }
        ensures ended { self.old.is_ended ≡ true → (result ≡ Ok true) × (self.new ≡ self.old) × C.Goes dialer.old [] dialer.new × (lots.new ≡ lots.old) × (out.new ≡ out.old) }
        ensures cause { (s : Setup) (script : List Order) (h : List ClientEvent) → StandsClient s script self.old h → Fits (C.lanes dialer.old) (C.moment dialer.old) h →
            IsCausedBy (faults (C.faults dialer.old) (L.faults lots.old) (K.faults out.old)) (faults (C.faults dialer.new) (L.faults lots.new) (K.faults out.new)) result }
        ensures touched { result ≢ Err error.Write → IsTouchedByBytes K.holds out.old out.new }
    {
        if self.is_ended {
            return Ok(true);
        }
        self.is_ended = true;
        hd_client::clients_are_dialed::<Ending>();
        let mut words = Words::new(alloc);
        self.begin(alloc, dialer, lots, &mut words)?;
        self.work(alloc, &mut words)?;
        self.peer_is_sound();
        self.give(dialer, &words)?;
        put_all(out, words.printed.as_slice())?;
        self.answer()
    }

    /// What its peer did is what a peer can do.
    fn peer_is_sound(&self)
        ensures { (s : Setup) (h : List ClientEvent) → Standing s self.now h → IsClientPeer client_hub (settings_of s h) (moves h) }
    {
        if let Some(peer) = &self.peer {
            hp_peer::peers_keep_their_calls(&peer.peer);
        }
    }

    /// How the turn ends it, if it does.
    fn answer(&mut self) -> Result<bool, ClientError>
        ensures ends { (s : Setup) (h : List ClientEvent) → Standing s self.old h → IsAnswer s h result }
        ensures over { self.old.is_ended ≡ true → MatchResult result (λ done. self.new.is_ended ≡ done) (λ e. self.new.is_ended ≡ true) }
        ensures others_unchanged { self.new ≡ record self.old { is_ended = self.new.is_ended } }
    {
        if !self.is_over() {
            self.is_ended = false;
            return Ok(false);
        }
        if !self.has_closed {
            return Err(ClientError::Refused);
        }
        Ok(true)
    }

    // ---- its beginning

    /// It dials, or hears, and what came is taken.
    fn begin<C: Dialer, L: Lots>(
        &mut self,
        alloc: Global,
        dialer: &mut C,
        lots: &mut L,
        words: &mut Words,
    ) -> Result<(), ClientError>
        ensures begun { (s : Setup) (script : List Order) (h : List ClientEvent) (held : Option (List ℕ)) → Standing s self.old h → is_over s h ≡ false → IsDialedSo s h →
            Fits (C.lanes dialer.old) (C.moment dialer.old) h → AreNone words.old →
            BeginsBy s script self.new words.new (WentSo (λ calls. C.Goes dialer.old calls dialer.new) (L.drawn lots.old) (L.drawn lots.new) held held)
            (C.lanes dialer.new) (C.moment dialer.new) h result }
        ensures others { (self.new.script ≡ self.old.script) × (self.new.is_ended ≡ self.old.is_ended) × (words.new.lane ≡ words.old.lane) × (words.new.message ≡ words.old.message) }
        ensures cause { (s : Setup) (h : List ClientEvent) (output : ℕ) → Standing s self.old h → moment h ≤ C.moment dialer.old →
            IsCausedBy (faults (C.faults dialer.old) (L.faults lots.old) output) (faults (C.faults dialer.new) (L.faults lots.new) output) result }
    {
        hd_dialing::phases_suit_asks();
        self.peer_is_sound();
        if self.connection.dial(alloc, dialer, lots)? {
            return self.drawn();
        }
        let heard = dialer.next(self.wait())?;
        let news = self
            .connection
            .hear(alloc, heard.now, &heard.event, dialer, lots)?;
        self.drawn()?;
        self.follow(alloc, heard.now, news, words)?;
        Ok(())
    }

    /// A draw that failed ends it.
    fn drawn(&self) -> Result<(), ClientError>
        ensures drawn { (d : Dialing) (h : List DialEvent) → Connected d self.now.connection h →
            MatchResult result (λ _. has_failed_draw h ≡ false) (λ e. (e ≡ error.Lots) × (has_failed_draw h ≡ true)) }
    {
        if self.connection.failed_draw() {
            return Err(ClientError::Lots);
        }
        Ok(())
    }

    /// For how many milliseconds its dialer may wait.
    fn wait(&self) -> u64
        ensures { (s : Setup) (h : List ClientEvent) → Standing s self.now h → result ≡ wait_for s h }
    {
        if self.is_due() {
            return 0;
        }
        match self.connection.phase() {
            Phase::Away => self.connection.wait_left(),
            _ => MOST_WAIT,
        }
    }

    /// Whether a round that begins now would give some job a turn.
    fn is_due(&self) -> bool
        ensures { (s : Setup) (h : List ClientEvent) → Standing s self.now h → result ≡ not (is_idle s h) }
    {
        match &self.peer {
            Some(peer) => peer.is_due(),
            None => false,
        }
    }

    /// What was heard at this moment is followed: its peer begins once a token was told, links begin and end, what came is taken, and its end ticks.
    fn follow(
        &mut self,
        alloc: Global,
        now: u64,
        news: News,
        words: &mut Words,
    ) -> Result<(), AllocError>
        ensures followed { OnOk result ((s : Setup) (b : Before) (h : List ClientEvent) → Kept s self.old h → MayStart (settings_of s h) self.old.peer (moves h) (moment h) →
            Tells s b words.old h → has_closed s h ≡ false → words.old.shut ≡ Absent → FitsNews s self.old (news_as news.entry) h → now ≡ moment h →
            Follows s b self.new words.new (news_as news.entry) h) }
        ensures others { (self.new.script ≡ self.old.script) × (self.new.is_ended ≡ self.old.is_ended) × (words.new.lane ≡ words.old.lane) × (words.new.message ≡ words.old.message) }
    {
        self.start_peer(alloc)?;
        self.link(alloc, now, news, words)?;
        if self.is_over() {
            return Ok(());
        }
        self.tick(now, words)
    }

    /// Its peer begins once a token was told.
    fn start_peer(&mut self, alloc: Global) -> Result<(), AllocError>
        ensures started { OnOk result ((s : Setup) (h : List ClientEvent) → Kept s self.old h → MayStart (settings_of s h) self.old.peer (moves h) (moment h) →
            PlaysBy (settings_of s h) self.new.peer (moves h) (moment h)) }
        ensures others { self.new ≡ record self.old { peer = self.new.peer } }
    {
        if self.peer.is_some() {
            return Ok(());
        }
        if let Some(reconnect) = self.connection.granted() {
            self.peer = Some(ClientPeer::start(alloc, self.codec, self.limits, reconnect)?);
        }
        Ok(())
    }

    /// What is news of its link.
    fn link(
        &mut self,
        alloc: Global,
        now: u64,
        news: News,
        words: &mut Words,
    ) -> Result<(), AllocError>
        ensures linked { OnOk result ((s : Setup) (b : Before) (h : List ClientEvent) → MayLink s b self.old words.old (news_as news.entry) h → now ≡ moment h →
            WorksOn s b self.new words.new (λ fed. IsFed s (news_as news.entry) (onto (linking s now (news_as news.entry) h) h) fed × (moment fed ≡ moment h))) }
        ensures others { self.new ≡ record self.old { peer = self.new.peer; full = self.new.full } }
        ensures words { words.new ≡ record words.old { printed = words.new.printed } }
    {
        let Some(peer) = &mut self.peer else {
            return Ok(());
        };
        match news {
            News::Nothing => Ok(()),
            News::Begins { lane: _ } => {
                self.full = false;
                peer.attach(now, &mut words.printed)?;
                Ok(())
            }
            News::Brings(bytes) => {
                peer.feed(alloc, bytes, now, &mut words.printed)?;
                Ok(())
            }
            News::Drains => {
                self.full = false;
                Ok(())
            }
            News::Ends => {
                let _was = peer.detach(now, &mut words.printed)?;
                Ok(())
            }
        }
    }

    /// Its end ticks, if it is on a link. After a silence its lane is dropped.
    fn tick(&mut self, now: u64, words: &mut Words) -> Result<(), AllocError>
        ensures ticked { OnOk result ((s : Setup) (b : Before) (h : List ClientEvent) → Working s b self.old words.old h → is_over s h ≡ false → now ≡ moment h →
            Working s b self.new words.new (onto (ticking now (settings_of s h) h) h)) }
        ensures others { self.new ≡ record self.old { peer = self.new.peer; connection = self.new.connection } }
        ensures words { words.new ≡ record words.old { printed = words.new.printed; shut = words.new.shut } }
    {
        let Some(peer) = &mut self.peer else {
            return Ok(());
        };
        if peer.is_attached() {
            if peer.tick(now, &mut words.printed)? {
                words.shut = self.connection.drop_lane();
            }
        }
        Ok(())
    }

    // ---- its work

    /// Whether nothing comes any more: its connection is dialed no more, or its end is closed.
    fn is_over(&self) -> bool
        ensures { (s : Setup) (h : List ClientEvent) → Standing s self.now h → result ≡ is_over_by s h }
    {
        self.connection.is_over() || self.is_closed()
    }

    fn is_closed(&self) -> bool
        ensures { (s : Setup) (h : List ClientEvent) → Standing s self.now h → result ≡ has_closed s h }
    {
        match &self.peer {
            Some(peer) => peer.is_closed(),
            None => false,
        }
    }

    /// What its jobs do and its script asks for, unless it is over; and what is said and printed at the end of a turn.
    fn work(&mut self, alloc: Global, words: &mut Words) -> Result<(), AllocError>
        ensures worked { OnOk result ((s : Setup) (script : List Order) (b : Before) (h : List ClientEvent) → Working s b self.old words.old h → self.old.script ≡ script →
            words.old.lane ≡ Absent → words.old.message.items ≡ [] → HasDone s script b self.new words.new h) }
        ensures others { (self.new.script ≡ self.old.script) × (self.new.is_ended ≡ self.old.is_ended) }
    {
        if self.is_over() {
            self.end_turn(alloc, words)?;
            return Ok(());
        }
        self.round(alloc)?;
        self.obey_all(alloc, words)?;
        self.close_at_end();
        self.end_turn(alloc, words)?;
        Ok(())
    }

    /// Each job that is due has one turn.
    fn round(&mut self, alloc: Global) -> Result<(), AllocError>
        ensures round { OnOk result ((s : Setup) (b : Before) (w : WordsMeant) (h : List ClientEvent) → Working s b self.old w h →
            WorksOn s b self.new w (RoundsWith (settings_of s h) h)) }
        ensures others { self.new ≡ record self.old { peer = self.new.peer } }
    {
        let now = self.connection.moment();
        match &mut self.peer {
            Some(peer) => peer.round(alloc, now),
            None => Ok(()),
        }
    }

    /// Each line of the script that can be done, one after the other.
    fn obey_all(&mut self, alloc: Global, words: &mut Words) -> Result<(), AllocError>
        ensures obeyed { OnOk result ((s : Setup) (b : Before) (h : List ClientEvent) → Working s b self.old words.old h →
            (lines : List (List ClientEvent)) × WorksOn s b self.new words.new (LinesDone s self.old.script lines h)) }
        ensures others { (self.new.script ≡ self.old.script) × (self.new.is_ended ≡ self.old.is_ended) × (words.new.lane ≡ words.old.lane) × (words.new.message ≡ words.old.message) }
    {
        while self.passed < self.script.orders().len() {
            if !self.obey_next(alloc, words)? {
                return Ok(());
            }
        }
        Ok(())
    }

    /// The next line of the script, if it can be done. False if it can't yet.
    fn obey_next(&mut self, alloc: Global, words: &mut Words) -> Result<bool, AllocError>
        ensures obeyed { IfOk result (λ done. (s : Setup) (b : Before) (h : List ClientEvent) → Working s b self.old words.old h →
            ObeysBy s self.old.script b self.new words.new h done) }
        ensures passed { IfOk result (λ done. self.new.passed ≡ (if done then self.old.passed + 1 else self.old.passed)) }
        ensures others { (self.new.script ≡ self.old.script) × (self.new.is_ended ≡ self.old.is_ended) × (words.new.lane ≡ words.old.lane) × (words.new.message ≡ words.old.message) }
    {
        if !self.obeys() {
            return Ok(false);
        }
        let Some(order) = self.script.orders().get(self.passed) else {
            return Ok(false);
        };
        let Some(peer) = &mut self.peer else {
            return Ok(false);
        };
        match obey(alloc, order, peer, &mut words.printed)? {
            Obeyed::Waits => Ok(false),
            Obeyed::Passed => {
                self.passed += 1;
                Ok(true)
            }
            Obeyed::Loses => {
                self.lose(words)?;
                self.passed += 1;
                Ok(true)
            }
        }
    }

    /// Lines are done after the handshake, and while the end is open.
    fn obeys(&self) -> bool
        ensures { (s : Setup) (h : List ClientEvent) → Standing s self.now h → result ≡ obeys_by s h }
    {
        if self.connection.is_over() {
            return false;
        }
        match &self.peer {
            Some(peer) => peer.is_ready(),
            None => false,
        }
    }

    /// The link is given up, if there is one.
    fn lose(&mut self, words: &mut Words) -> Result<(), AllocError>
        ensures lost { OnOk result ((s : Setup) (b : Before) (h : List ClientEvent) (t : Settings) → Working s b self.old words.old h → is_over_by s h ≡ false → settings_of s h ≡ Given t →
            Working s b self.new words.new (onto (losing t h) h)) }
        ensures others { self.new ≡ record self.old { peer = self.new.peer; connection = self.new.connection } }
        ensures words { words.new ≡ record words.old { printed = words.new.printed; shut = words.new.shut } }
    {
        let now = self.connection.moment();
        let Some(peer) = &mut self.peer else {
            return Ok(());
        };
        if peer.detach(now, &mut words.printed)? {
            words.shut = self.connection.drop_lane();
        }
        Ok(())
    }

    /// After the last line, once no call is live, its end is closed.
    fn close_at_end(&mut self)
        ensures closed { (s : Setup) (b : Before) (w : WordsMeant) (h : List ClientEvent) → Working s b self.old w h → Working s b self.new w (onto (closing s self.old.script h) h) }
        ensures others { self.new ≡ record self.old { peer = self.new.peer; has_closed = self.new.has_closed } }
    {
        if !self.obeys() || self.passed < self.script.orders().len() {
            return;
        }
        let Some(peer) = &mut self.peer else {
            return;
        };
        if !peer.has_live() {
            peer.close();
            self.has_closed = true;
        }
    }

    // ---- the end of a turn

    /// The live calls of a closed end are gone, and what is due is said.
    fn end_turn(&mut self, alloc: Global, words: &mut Words) -> Result<(), AllocError>
        ensures said { OnOk result ((s : Setup) (b : Before) (h : List ClientEvent) → Working s b self.old words.old h → words.old.lane ≡ Absent → words.old.message.items ≡ [] →
            SaysIn s b self.new words.new (onto (losses s h) h)) }
        ensures others { (self.new.script ≡ self.old.script) × (self.new.is_ended ≡ self.old.is_ended) }
    {
        self.tell_gone(alloc, words)?;
        self.say(words)?;
        Ok(())
    }

    /// The live calls of a closed end are gone.
    fn tell_gone(&mut self, alloc: Global, words: &mut Words) -> Result<(), AllocError>
        ensures gone { OnOk result ((s : Setup) (b : Before) (h : List ClientEvent) → Working s b self.old words.old h → Working s b self.new words.new (onto (losses s h) h)) }
        ensures others { self.new ≡ record self.old { peer = self.new.peer } }
        ensures words { words.new ≡ record words.old { printed = words.new.printed } }
    {
        match &mut self.peer {
            Some(peer) => peer.tell_gone(alloc, &mut words.printed),
            None => Ok(()),
        }
    }

    /// What is due is said, unless the lane is full and the end open. The connection of a closed end is left.
    fn say(&mut self, words: &mut Words) -> Result<(), AllocError>
        ensures said { OnOk result ((s : Setup) (b : Before) (h : List ClientEvent) → Working s b self.old words.old h → words.old.lane ≡ Absent → words.old.message.items ≡ [] →
            SaysIn s b self.new words.new h) }
        ensures others { self.new ≡ record self.old { peer = self.new.peer; connection = self.new.connection } }
    {
        if self.is_closed() {
            self.say_due(words)?;
            self.leave(words);
            return Ok(());
        }
        if self.full {
            return Ok(());
        }
        self.say_due(words)?;
        Ok(())
    }

    /// All that is due, in one message.
    fn say_due(&mut self, words: &mut Words) -> Result<(), AllocError>
        ensures said { OnOk result ((s : Setup) (b : Before) (h : List ClientEvent) → Working s b self.old words.old h → words.old.lane ≡ Absent → words.old.message.items ≡ [] →
            SaysDue s b self.new words.new h) }
        ensures others { self.new ≡ record self.old { peer = self.new.peer } }
        ensures words { words.new ≡ record words.old { lane = words.new.lane; message = words.new.message; text = words.new.text } }
    {
        let Phase::Stands { lane } = self.connection.phase() else {
            return Ok(());
        };
        let Some(peer) = &mut self.peer else {
            return Ok(());
        };
        words.text = peer.is_text();
        if peer.say_all(&mut words.message)? {
            words.lane = Some(lane);
        }
        Ok(())
    }

    /// The connection is left, and the lane that is left is to be shut.
    fn leave(&mut self, words: &mut Words)
        ensures left { (s : Setup) (b : Before) (h : List ClientEvent) → Working s b self.old words.old h → has_closed s h ≡ true →
            Working s b self.new words.new (onto (leaving (phase_of h)) h) }
        ensures others { self.new ≡ record self.old { connection = self.new.connection } }
        ensures words { words.new ≡ record words.old { shut = words.new.shut } }
    {
        if self.connection.is_over() {
            return;
        }
        if let Some(lane) = self.connection.leave_lane() {
            words.shut = Some(lane);
        }
    }

    /// The dialer is given what is said.
    fn give<C: Dialer>(&mut self, dialer: &mut C, words: &Words) -> Result<(), DoorError>
        ensures given { GivesBy words.now (λ calls. C.Goes dialer.old calls dialer.new) self.old self.new result }
        ensures others_unchanged { (C.moment dialer.new ≡ C.moment dialer.old) × (C.lanes dialer.new ≡ C.lanes dialer.old) }
        ensures others { self.new ≡ record self.old { full = self.new.full } }
        ensures cause { HasFaultCause (C.faults dialer.old) (C.faults dialer.new) result }
    {
        if let Some(lane) = words.lane {
            self.full = dialer.send(lane, words.message.as_slice(), words.text)?;
        }
        if let Some(lane) = words.shut {
            dialer.shut(lane)?;
        }
        Ok(())
    }
}

/// The output is given this, unless it is nothing.
fn put_all<K: Sink>(out: &mut K, printed: &[u8]) -> Result<(), Failed>
    ensures bytes { PutAppends (K.holds out.old) (K.holds out.new) result printed.now }
    ensures touched { OnOk result (IsTouchedByBytes K.holds out.old out.new) }
    ensures cause { HasCause (K.faults out.old) (K.faults out.new) result }
    ensures counted { CountsFailure (K.faults out.old) (K.faults out.new) result }
{
    if printed.is_empty() {
        return Ok(());
    }
    out.put(printed)
}
