//! A connection that is dialed.

ghost use Rattle.std.specs.Prelude.{◌≡◌, ◌≤◌, ◌++◌, List, [], ◌∷◌, Some, None, Ok, false, OnErr, OnOk, IfOk, option_map};
ghost use Rattle.hw_door.specs.Calls.{AddsSome};
ghost use Rattle.hw_door.specs.DoorCalls.{given_in};
ghost use Rattle.hd_dialing.specs.Asks.{Setup};
ghost use Rattle.hd_dialing.specs.Events.{DialEvent, is_due as is_due_by, is_over as is_over_by, is_up as is_up_by, Stops, moment, phase, told, wait_left as left_by};
ghost use Rattle.hd_dialing.specs.Plans.{Dial, heard, news};
ghost use Rattle.hd_dialing.specs.Dialing as move;
ghost use Rattle.hd_dialing.specs.Dialing.{moved};
ghost use Rattle.hd_dialing.specs.Telling.{has_failed_draw};
ghost use Rattle.hn_dialing.specs.Calls.{AreNewLanes, DialsBy, DoesBy, IsCausedBy, IsCountOf, IsIdle, dials_by, news_of, shut_of};
ghost use Rattle.hn_dialing.specs.Stands.{Stands, lane_in, phase_of, setup_of};
ghost use Rattle.hn_dialing.specs.declared.phase.Phase.TheVariants.{Over};

use crate::bodies::Granted;
use crate::errors::DialFault;
use crate::news::News;
use crate::numbers::pause_after;
use crate::phase::Phase;
use crate::setup::DialSetup;
use hw_door::{Dialer, Event, Lots};
use std::alloc::Global;

/// A connection to a hub server, which is dialed over a dialer that it shares with others. Moments are in milliseconds.
#[derive(Drop)]
pub struct Connection {
    pub(crate) setup: DialSetup,
    pub(crate) phase: Phase,
    pub(crate) told: Option<Granted>,
    /// In a row.
    pub(crate) lost_dials: u8,
    /// When the last of them was heard.
    pub(crate) lost_at: u64,
    /// That of the last event that was heard.
    pub(crate) moment: u64,
    /// The lots gave nothing.
    pub(crate) failed_draw: bool,
}

impl Connection {
    /// A connection that wasn't dialed yet. It is due. It takes no memory.
    pub fn start(setup: DialSetup) -> Connection
        ensures { Stands (setup_of setup) result [] }
    {
        Connection {
            setup,
            phase: Phase::Away,
            told: None,
            lost_dials: 0,
            lost_at: 0,
            moment: 0,
            failed_draw: false,
        }
    }

    // ---- what it is

    /// How far it is, with its lane.
    pub fn phase(&self) -> Phase
        ensures { (s : Setup) (h : List DialEvent) → Stands s self.now h → phase_of result ≡ phase h }
    {
        self.phase
    }

    /// The lane that is up or being made.
    pub fn lane(&self) -> Option<u64>
        ensures at { result ≡ lane_in (phase_of self.now.phase) }
        ensures stands { (s : Setup) (h : List DialEvent) → Stands s self.now h → result ≡ lane_in (phase h) }
    {
        self.phase.lane()
    }

    /// Its socket is up.
    pub fn is_up(&self) -> bool
        ensures { (s : Setup) (h : List DialEvent) → Stands s self.now h → result ≡ is_up_by (phase h) }
    {
        match self.phase {
            Phase::Stands { .. } => true,
            _ => false,
        }
    }

    /// It is dialed no more: it was refused, five dials in a row were lost, a draw failed, it was left, or a call on it failed.
    pub fn is_over(&self) -> bool
        ensures over { result ≡ is_over_by (phase_of self.now.phase) }
        ensures stands { (s : Setup) (h : List DialEvent) → Stands s self.now h → result ≡ is_over_by (phase h) }
    {
        self.phase.is_over()
    }

    /// The lots were asked for it, and gave nothing. It is over then.
    pub fn failed_draw(&self) -> bool
        ensures { (s : Setup) (h : List DialEvent) → Stands s self.now h → result ≡ has_failed_draw h }
    {
        self.failed_draw
    }

    /// Whether it is kept across its links, once a token was told.
    pub fn granted(&self) -> Option<bool>
        ensures { (s : Setup) (h : List DialEvent) → Stands s self.now h → result ≡ option_map (λ t. t.reconnect) (told h) }
    {
        match &self.told {
            Some(granted) => Some(granted.reconnect),
            None => None,
        }
    }

    /// The moment of the last event that was heard, or 0.
    pub fn moment(&self) -> u64
        ensures { result ≡ self.now.moment }
    {
        self.moment
    }

    // ---- when it is dialed

    /// It is to be dialed before anything else is heard.
    pub fn is_due(&self) -> bool
        ensures due { (s : Setup) (h : List DialEvent) → Stands s self.now h → result ≡ is_due_by h }
        ensures over { self.now.phase ≡ Over → result ≡ false }
    {
        match self.phase {
            Phase::Away => self.wait_left() == 0,
            _ => false,
        }
    }

    /// For how many milliseconds at most whoever dials it lets the dialer wait, while it is away: at most 2,000.
    pub fn wait_left(&self) -> u64
        ensures wait { (s : Setup) (h : List DialEvent) → Stands s self.now h → result ≡ left_by h }
        ensures most { result ≤ 2000 }
    {
        pause_after(self.lost_dials).saturating_sub(self.moment.saturating_sub(self.lost_at))
    }

    // ---- moves

    /// Dials it, if it is due, and answers whether it was: a token is asked for, or with the token that was told a socket. What comes of that is
    /// heard later. Where a draw fails it is over.
    ///
    /// After a fault it is over. Of one that is over nothing is asked.
    pub fn dial<D: Dialer, L: Lots>(
        &mut self,
        alloc: Global,
        dialer: &mut D,
        lots: &mut L,
    ) -> Result<bool, DialFault>
        ensures due { (s : Setup) (h : List DialEvent) → Stands s self.old h → dials_by result ≡ is_due_by h }
        ensures dialed { (d : Dial) × IfOk result (λ done. D.lanes dialer.old ≤ d.lane) × DialsBy d self.old self.new
            (λ calls. D.Goes dialer.old calls dialer.new × AreNewLanes (given_in calls) (D.lanes dialer.old) (D.lanes dialer.new))
            (λ drawn. AddsSome (L.drawn lots.old) (L.drawn lots.new) drawn × IsCountOf drawn (L.faults lots.old) (L.faults lots.new)) result }
        ensures idle { self.old.phase ≡ Over → result ≡ Ok false }
        ensures over { OnErr result (self.new.phase ≡ Over) }
        ensures cause { IsCausedBy (D.faults dialer.old) (D.faults dialer.new) result }
        ensures lots { OnErr result (L.faults lots.new ≡ L.faults lots.old) }
        ensures others_unchanged { D.moment dialer.new ≡ D.moment dialer.old }
    {
        if !self.is_due() {
            return Ok(false);
        }
        let asked = self.ask(alloc, dialer, lots);
        self.over_if_failed(asked)?;
        Ok(true)
    }

    /// What an event comes to that the dialer gave at this moment. A lane whose token was told is shut, and the socket is asked for at once; a
    /// dial that was lost is counted; what comes on no lane of its own changes nothing.
    ///
    /// After a fault it is over. Of one that is over nothing is asked.
    pub fn hear<'e, D: Dialer, L: Lots>(
        &mut self,
        alloc: Global,
        now: u64,
        event: &'e Event,
        dialer: &mut D,
        lots: &mut L,
    ) -> Result<News<'e>, DialFault>
        ensures heard { (d : Dial) × IfOk result (λ done. D.lanes dialer.old ≤ d.lane) × DoesBy (λ h. moment h ≤ now) (λ s h. heard s d now event.now h) self.old self.new
            (λ calls. D.Goes dialer.old calls dialer.new × AreNewLanes (given_in calls) (D.lanes dialer.old) (D.lanes dialer.new))
            (λ drawn. AddsSome (L.drawn lots.old) (L.drawn lots.new) drawn × IsCountOf drawn (L.faults lots.old) (L.faults lots.new)) result }
        ensures news { IfOk result (λ told. (s : Setup) (h : List DialEvent) → Stands s self.old h → news_of told ≡ news event.now (phase h)) }
        ensures idle { self.old.phase ≡ Over → IsIdle self.new (D.Goes dialer.old [] dialer.new) (AddsSome (L.drawn lots.old) (L.drawn lots.new) []) result }
        ensures over { OnErr result (self.new.phase ≡ Over) }
        ensures cause { IsCausedBy (D.faults dialer.old) (D.faults dialer.new) result }
        ensures lots { OnErr result (L.faults lots.new ≡ L.faults lots.old) }
        ensures others_unchanged { D.moment dialer.new ≡ D.moment dialer.old }
    {
        if self.phase.is_over() {
            self.moment = now;
            return Ok(News::Nothing);
        }
        let news = self.news(event);
        let heard = self.answer(alloc, now, event, dialer, lots);
        self.over_if_failed(heard)?;
        Ok(news)
    }

    /// Gives up the lane that is up or being made, if there is one, and not the connection, which is dialed again. The lane is answered, and whoever
    /// calls this is to shut it.
    pub fn drop_lane(&mut self) -> Option<u64>
        ensures dropped { (s : Setup) (h : List DialEvent) → Stands s self.old h
            → (moved s move.Drops h ≡ shut_of result ++ h) × Stands s self.new (moved s move.Drops h) }
        ensures lane { result ≡ lane_in (phase_of self.old.phase) }
    {
        let lane = self.lane();
        if lane.is_some() {
            self.phase = Phase::Away;
        }
        lane
    }

    /// Ends it: it is dialed no more. Its lane is answered, if there is one, and whoever calls this is to shut it.
    pub fn leave_lane(&mut self) -> Option<u64>
        ensures left { (s : Setup) (h : List DialEvent) → Stands s self.old h
            → (moved s move.Leaves h ≡ Stops ∷ (shut_of result ++ h)) × Stands s self.new (moved s move.Leaves h) }
        ensures lane { result ≡ lane_in (phase_of self.old.phase) }
        ensures over { self.new.phase ≡ Over }
    {
        let lane = self.drop_lane();
        self.phase = Phase::Over;
        lane
    }

    /// After a failed call it is over.
    fn over_if_failed(&mut self, done: Result<(), DialFault>) -> Result<(), DialFault>
        ensures same { result ≡ done }
        ensures ok { OnOk result (self.new ≡ self.old) }
        ensures over { OnErr result (self.new.phase ≡ Over) }
    {
        if done.is_err() {
            self.phase = Phase::Over;
        }
        done
    }
}
