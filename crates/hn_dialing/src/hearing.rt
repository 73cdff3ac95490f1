//! What events come to on a connection.

ghost use Rattle.std.specs.Prelude.{◌≡◌, ◌≤◌, suc, true, List, ◌∷◌, IfOk, option_map};
ghost use Rattle.hw_door.specs.declared.heard.Event.TheVariants as event;
ghost use Rattle.hw_door.specs.Calls.{AddsSome};
ghost use Rattle.hw_door.specs.DoorCalls.{given_in};
ghost use Rattle.hd_dialing.specs.Asks.{Setup};
ghost use Rattle.hd_dialing.specs.Events.{DialEvent, Hears, Negotiates, is_dial, lost_dials, moment, phase};
ghost use Rattle.hd_dialing.specs.Plans.{Dial, answered, counted, heard, negotiated, news, told_in_response};
ghost use Rattle.hn_dialing.specs.Calls.{AreNewLanes, DoesBy, IsCausedBy, IsCountOf, news_of};
ghost use Rattle.hn_dialing.specs.Stands.{Stands, setup_of, told_of};

use crate::bodies::{Granted, told};
use crate::connection::Connection;
use crate::errors::DialFault;
use crate::news::News;
use crate::numbers::MOST_LOST;
use crate::phase::Phase;
use hw_door::{Dialer, Event, Lots};
use std::alloc::{AllocError, Global};

/// The status of a response that tells something (RFC 9110, section 15.3.1).
const OK: u16 = 200;

impl Connection {
    /// What an event means for the link, before anything is done about it.
    pub(crate) fn news<'e>(&self, event: &'e Event) -> News<'e>
        ensures { (s : Setup) (h : List DialEvent) → Stands s self.now h → news_of result ≡ news event.now (phase h) }
    {
        match event {
            Event::Upgraded { lane } if self.phase.upgrades_on(*lane) => News::Begins {
                lane: *lane,
            },
            Event::Bytes { lane, bytes } if self.phase.stands_on(*lane) => {
                News::Brings(bytes.bytes())
            }
            Event::Drained { lane } if self.phase.stands_on(*lane) => News::Drains,
            Event::Lost { lane } if self.phase.stands_on(*lane) => News::Ends,
            _ => News::Nothing,
        }
    }

    /// What is done about an event.
    pub(crate) fn answer<D: Dialer, L: Lots>(
        &mut self,
        alloc: Global,
        now: u64,
        event: &Event,
        dialer: &mut D,
        lots: &mut L,
    ) -> Result<(), DialFault>
        ensures heard { (d : Dial) × IfOk result (λ done. D.lanes dialer.old ≤ d.lane) × DoesBy (λ h. moment h ≤ now) (λ s h. heard s d now event.now h) self.old self.new
            (λ calls. D.Goes dialer.old calls dialer.new × AreNewLanes (given_in calls) (D.lanes dialer.old) (D.lanes dialer.new))
            (λ drawn. AddsSome (L.drawn lots.old) (L.drawn lots.new) drawn × IsCountOf drawn (L.faults lots.old) (L.faults lots.new)) result }
        ensures cause { IsCausedBy (D.faults dialer.old) (D.faults dialer.new) result }
        ensures others_unchanged { D.moment dialer.new ≡ D.moment dialer.old }
    {
        hd_dialing::what_is_new_is_told_last();
        match event {
            Event::Response { lane, status, body } => {
                self.moment = now;
                return self.respond(alloc, *lane, *status, body.bytes(), dialer, lots);
            }
            Event::Upgraded { lane } => self.rise(now, *lane),
            Event::Lost { lane } => self.lose(now, *lane),
            _ => self.moment = now,
        }
        Ok(())
    }

    /// A socket came up.
    fn rise(&mut self, now: u64, lane: u64)
        ensures { (s : Setup) (h : List DialEvent) → Stands s self.old h → moment h ≤ now → Stands s self.new (Hears now (event.Upgraded lane) ∷ h) }
    {
        self.moment = now;
        if self.phase.upgrades_on(lane) {
            self.phase = Phase::Stands { lane };
            self.lost_dials = 0;
        }
    }

    /// A lane was lost.
    fn lose(&mut self, now: u64, lane: u64)
        ensures { (s : Setup) (d : Dial) (h : List DialEvent) → Stands s self.old h → moment h ≤ now → Stands s self.new (heard s d now (event.Lost lane) h) }
    {
        if self.phase.negotiates_on(lane) {
            return self.lose_dial(now, lane);
        }
        if self.phase.upgrades_on(lane) {
            return self.lose_dial(now, lane);
        }
        self.moment = now;
        if self.phase.stands_on(lane) {
            self.phase = Phase::Away;
        }
    }

    /// Another dial in a row was lost, which was on this lane.
    fn lose_dial(&mut self, now: u64, lane: u64)
        ensures { (s : Setup) (h : List DialEvent) → Stands s self.old h → moment h ≤ now → is_dial lane (phase h) ≡ true
            → Stands s self.new (counted (suc (lost_dials h)) (Hears now (event.Lost lane) ∷ h)) }
    {
        let lost = self.lost_dials.saturating_add(1);
        self.lost_dials = lost;
        self.lost_at = now;
        self.moment = now;
        self.phase = if lost >= MOST_LOST {
            Phase::Over
        } else {
            Phase::Away
        };
    }

    /// A response came.
    fn respond<D: Dialer, L: Lots>(
        &mut self,
        alloc: Global,
        lane: u64,
        status: u16,
        body: &[u8],
        dialer: &mut D,
        lots: &mut L,
    ) -> Result<(), DialFault>
        ensures answered { (d : Dial) × IfOk result (λ done. D.lanes dialer.old ≤ d.lane)
            × DoesBy (λ h. Unit {0}) (λ s h. answered s d (event.Response lane status body.now) (phase h) (lost_dials h) h) self.old self.new
            (λ calls. D.Goes dialer.old calls dialer.new × AreNewLanes (given_in calls) (D.lanes dialer.old) (D.lanes dialer.new))
            (λ drawn. AddsSome (L.drawn lots.old) (L.drawn lots.new) drawn × IsCountOf drawn (L.faults lots.old) (L.faults lots.new)) result }
        ensures cause { IsCausedBy (D.faults dialer.old) (D.faults dialer.new) result }
        ensures others_unchanged { D.moment dialer.new ≡ D.moment dialer.old }
    {
        if self.phase.negotiates_on(lane) {
            return self.learn(alloc, lane, status, body, dialer, lots);
        }
        if self.phase.upgrades_on(lane) {
            self.phase = Phase::Over;
        }
        Ok(())
    }

    /// The response to the ask for a token came on this lane.
    fn learn<D: Dialer, L: Lots>(
        &mut self,
        alloc: Global,
        lane: u64,
        status: u16,
        body: &[u8],
        dialer: &mut D,
        lots: &mut L,
    ) -> Result<(), DialFault>
        ensures negotiated { (d : Dial) × IfOk result (λ done. D.lanes dialer.old ≤ d.lane)
            × DoesBy (λ h. phase h ≡ Negotiates lane) (λ s h. negotiated s d lane (told_in_response s status body.now) h) self.old self.new
            (λ calls. D.Goes dialer.old calls dialer.new × AreNewLanes (given_in calls) (D.lanes dialer.old) (D.lanes dialer.new))
            (λ drawn. AddsSome (L.drawn lots.old) (L.drawn lots.new) drawn × IsCountOf drawn (L.faults lots.old) (L.faults lots.new)) result }
        ensures cause { IsCausedBy (D.faults dialer.old) (D.faults dialer.new) result }
        ensures others_unchanged { D.moment dialer.new ≡ D.moment dialer.old }
    {
        hd_dialing::what_is_new_is_told_last();
        let told = self.told_in(alloc, status, body)?;
        dialer.shut(lane)?;
        match told {
            Some(granted) => {
                self.phase = Phase::Away;
                self.told = Some(granted);
                self.ask(alloc, dialer, lots)
            }
            None => {
                self.phase = Phase::Over;
                Ok(())
            }
        }
    }

    /// What the response to the ask for a token tells.
    fn told_in(
        &self,
        alloc: Global,
        status: u16,
        body: &[u8],
    ) -> Result<Option<Granted>, AllocError>
        ensures { IfOk result (λ granted. option_map told_of granted ≡ told_in_response (setup_of self.now.setup) status body.now) }
    {
        if status != OK {
            return Ok(None);
        }
        told(alloc, self.setup.strict, self.setup.reconnect, body)
    }
}
