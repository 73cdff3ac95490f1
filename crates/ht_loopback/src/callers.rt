//! The lanes of the dialer: it asks as the plans of conversations say, and hears what comes of each.

use crate::plan::{Kind, Plan};
use crate::sockets::stop_of;
use ht_kit::Stop;
use hw_door::{Dialer, Event, Upgrade};
use hw_lanes::Method;
use std::alloc::{AllocError, Global};

/// A conversation that goes on.
#[derive(Clone, Copy)]
struct Caller {
    lane: u64,
    plan: Plan,
    /// How many echoes came.
    heard: u64,
}

/// How many there were of what the dialer heard.
#[derive(Clone, Copy)]
pub struct Counts {
    pub responses: u64,
    pub declined: u64,
    pub upgrades: u64,
    pub echoes: u64,
    pub bytes: u64,
    pub losses: u64,
    /// How often something was heard that isn't next on its lane.
    pub wrong: u64,
}

/// The conversations of a dialer.
#[derive(Drop)]
pub struct Callers {
    alloc: Global,
    items: Vec<Caller>,
    counts: Counts,
}

fn target_of(alloc: Global, plan: &Plan) -> Result<String, AllocError> {
    let number = plan.number;
    match plan.kind {
        Kind::Declines => format!(in alloc; "/no/{number}"),
        Kind::EndedByDoor => {
            let echoes = plan.echoes;
            format!(in alloc; "/talk/{number}/{echoes}")
        }
        Kind::EndedByDialer => format!(in alloc; "/talk/{number}/0"),
        _ => format!(in alloc; "/yes/{number}"),
    }
}

/// The key and the seed of an ask: its number twice, and then backwards.
fn upgrade_of(plan: &Plan) -> Option<Upgrade> {
    match plan.kind {
        Kind::Responds => None,
        Kind::Dropped => None,
        _ => {
            let number = u128::from(plan.number);
            let key = (number << 64 | number).to_be_bytes();
            let seed = (number << 64 | number).to_le_bytes();
            Some(Upgrade { key, seed })
        }
    }
}

impl Callers {
    pub fn start(alloc: Global) -> Callers {
        Callers {
            alloc,
            items: Vec::new(alloc),
            counts: Counts {
                responses: 0,
                declined: 0,
                upgrades: 0,
                echoes: 0,
                bytes: 0,
                losses: 0,
                wrong: 0,
            },
        }
    }

    /// How many conversations go on.
    pub fn live(&self) -> usize {
        self.items.len()
    }

    pub fn counts(&self) -> Counts {
        self.counts
    }

    /// Begins a conversation.
    pub fn begin<C: Dialer>(&mut self, dialer: &mut C, plan: Plan) -> Result<(), Stop> {
        let target = target_of(self.alloc, &plan)?;
        let lane = dialer
            .ask(0, Method::Get, &target, upgrade_of(&plan))
            .map_err(stop_of)?;
        if plan.kind == Kind::Dropped {
            return dialer.shut(lane).map_err(stop_of);
        }
        self.items.push(Caller {
            lane,
            plan,
            heard: 0,
        })?;
        Ok(())
    }

    /// What comes of an event. False if nothing was heard.
    pub fn hear<C: Dialer>(&mut self, dialer: &mut C, event: &Event) -> Result<bool, Stop> {
        match event {
            Event::Upgraded { lane } => self.upgraded(dialer, *lane)?,
            Event::Bytes { lane, bytes } => self.echoed(dialer, *lane, bytes.bytes())?,
            Event::Response { lane, status, body } => {
                self.responded(dialer, *lane, *status, body.bytes())?;
            }
            Event::Lost { lane } => self.lost(*lane),
            Event::Drained { .. } => {}
            Event::Quiet => return Ok(false),
            _ => self.note_wrong(),
        }
        Ok(true)
    }

    fn note_wrong(&mut self) {
        self.counts.wrong = self.counts.wrong.saturating_add(1);
    }

    fn find(&self, lane: u64) -> Option<Caller> {
        self.items
            .iter()
            .find(|caller| caller.lane == lane)
            .copied()
    }

    fn forget(&mut self, lane: u64) {
        self.items.retain(|caller| caller.lane != lane);
    }

    /// Sends the messages from this one on, or this one alone.
    fn send<C: Dialer>(&mut self, dialer: &mut C, caller: Caller, first: u64) -> Result<(), Stop> {
        let plan = caller.plan;
        let end = if plan.at_once {
            plan.messages
        } else {
            plan.messages.min(first.saturating_add(1))
        };
        for message in first..end {
            let bytes = plan.message(self.alloc, message)?;
            dialer.send(caller.lane, &bytes, false).map_err(stop_of)?;
        }
        Ok(())
    }

    fn upgraded<C: Dialer>(&mut self, dialer: &mut C, lane: u64) -> Result<(), Stop> {
        let Some(caller) = self.find(lane) else {
            self.note_wrong();
            return Ok(());
        };
        self.counts.upgrades = self.counts.upgrades.saturating_add(1);
        self.send(dialer, caller, 0)?;
        self.end_if_cut(dialer, caller)
    }

    /// Ends the lane if all echoes came after which the dialer is to end it.
    fn end_if_cut<C: Dialer>(&mut self, dialer: &mut C, caller: Caller) -> Result<(), Stop> {
        if caller.plan.kind == Kind::EndedByDialer && caller.heard == caller.plan.echoes {
            dialer.shut(caller.lane).map_err(stop_of)?;
            self.forget(caller.lane);
        }
        Ok(())
    }

    fn echoed<C: Dialer>(&mut self, dialer: &mut C, lane: u64, bytes: &[u8]) -> Result<(), Stop> {
        let Some(mut caller) = self.find(lane) else {
            self.note_wrong();
            return Ok(());
        };
        let wanted = caller.plan.message(self.alloc, caller.heard)?;
        if bytes != wanted.as_slice() || caller.heard >= caller.plan.messages {
            self.note_wrong();
        }
        caller.heard = caller.heard.saturating_add(1);
        self.counts.echoes = self.counts.echoes.saturating_add(1);
        self.counts.bytes = self.counts.bytes.saturating_add(bytes.len() as u64);
        self.keep(caller);
        if !caller.plan.at_once {
            self.send(dialer, caller, caller.heard)?;
        }
        self.end_if_cut(dialer, caller)
    }

    /// Keeps what is now known of a conversation.
    fn keep(&mut self, caller: Caller) {
        let kept = self.items.iter_mut().find(|kept| kept.lane == caller.lane);
        if let Some(kept) = kept {
            *kept = caller;
        }
    }

    fn responded<C: Dialer>(
        &mut self,
        dialer: &mut C,
        lane: u64,
        status: u16,
        body: &[u8],
    ) -> Result<(), Stop> {
        let Some(caller) = self.find(lane) else {
            self.note_wrong();
            return Ok(());
        };
        let target = target_of(self.alloc, &caller.plan)?;
        match (caller.plan.kind, status) {
            (Kind::Responds, 200) if body == target.as_bytes() => {
                self.counts.responses = self.counts.responses.saturating_add(1);
            }
            (Kind::Declines, 404) if body.is_empty() => {
                self.counts.declined = self.counts.declined.saturating_add(1);
            }
            _ => self.note_wrong(),
        }
        self.forget(lane);
        dialer.shut(lane).map_err(stop_of)
    }

    /// The door ended the lane, which it is to do after all echoes.
    fn lost(&mut self, lane: u64) {
        match self.find(lane) {
            Some(caller)
                if caller.plan.kind == Kind::EndedByDoor && caller.heard == caller.plan.messages =>
                {
                    self.counts.losses = self.counts.losses.saturating_add(1);
                }
            _ => self.note_wrong(),
        }
        self.forget(lane);
    }
}
