//! What is asked for when a connection is dialed: a token, or a socket.

ghost use Rattle.std.specs.Prelude.{◌≡◌, ◌≤◌, ℕ, [], ◌∷◌, false, IfOk};
ghost use Rattle.hw_door.specs.Calls.{AddsSome};
ghost use Rattle.hw_door.specs.DoorCalls.{given_in};
ghost use Rattle.hd_dialing.specs.Asks.{negotiate_ask};
ghost use Rattle.hd_dialing.specs.Events.{Asks, is_over, phase, told};
ghost use Rattle.hd_dialing.specs.Plans.{Dial, dialed, socket_asked};
ghost use Rattle.hn_dialing.specs.Calls.{AreNewLanes, DoesBy, IsCausedBy, IsCountOf, Tells};
ghost use Rattle.hn_dialing.specs.Stands.{phase_of, setup_of};
ghost use Rattle.hn_dialing.specs.declared.phase.Phase.TheVariants.{Negotiates};

use crate::connection::Connection;
use crate::errors::DialFault;
use crate::phase::Phase;
use crate::setup::DialSetup;
use crate::targets::{negotiate_target, socket_target};
use hw_door::{Dialer, Lots, Upgrade};
use hw_lanes::Method;
use std::alloc::Global;

/// A token is asked for.
fn ask_for_token<D: Dialer>(
    alloc: Global,
    setup: &DialSetup,
    dialer: &mut D,
) -> Result<Phase, DialFault>
    ensures asked { (lane : ℕ) × Tells (Asks lane (negotiate_ask (setup_of setup.now)) ∷ [])
        (λ calls. D.Goes dialer.old calls dialer.new × AreNewLanes (given_in calls) (D.lanes dialer.old) (D.lanes dialer.new)) (λ drawn. drawn ≡ []) result
        × IfOk result (λ p. (p ≡ Negotiates lane) × (D.lanes dialer.old ≤ lane)) }
    ensures cause { IsCausedBy (D.faults dialer.old) (D.faults dialer.new) result }
    ensures others_unchanged { D.moment dialer.new ≡ D.moment dialer.old }
{
    let target = negotiate_target(alloc, setup)?;
    let lane = dialer.ask(setup.place, Method::Post, target.as_str(), None)?;
    Ok(Phase::Negotiates { lane })
}

/// A socket is asked for, by a key and a seed that are drawn. Where a draw fails nothing is asked.
fn ask_for_socket<D: Dialer, L: Lots>(
    alloc: Global,
    setup: &DialSetup,
    token: &str,
    dialer: &mut D,
    lots: &mut L,
) -> Result<Phase, DialFault>
    ensures asked { (d : Dial) × IfOk result (λ done. D.lanes dialer.old ≤ d.lane) × Tells (socket_asked (setup_of setup.now) d.lane token.now d.key d.seed [])
        (λ calls. D.Goes dialer.old calls dialer.new × AreNewLanes (given_in calls) (D.lanes dialer.old) (D.lanes dialer.new))
        (λ drawn. AddsSome (L.drawn lots.old) (L.drawn lots.new) drawn × IsCountOf drawn (L.faults lots.old) (L.faults lots.new)) result
        × IfOk result (λ p. phase_of p ≡ phase (socket_asked (setup_of setup.now) d.lane token.now d.key d.seed [])) }
    ensures cause { IsCausedBy (D.faults dialer.old) (D.faults dialer.new) result }
    ensures others_unchanged { D.moment dialer.new ≡ D.moment dialer.old }
{
    let target = socket_target(alloc, setup, token)?;
    let Ok(key) = lots.draw() else {
        return Ok(Phase::Over);
    };
    let Ok(seed) = lots.draw() else {
        return Ok(Phase::Over);
    };
    let upgrade = Upgrade { key, seed };
    let lane = dialer.ask(setup.place, Method::Get, target.as_str(), Some(upgrade))?;
    Ok(Phase::Upgrades { lane })
}

impl Connection {
    /// A token is asked for, if none was told, and else a socket with the one that was. After a fault nothing is noted.
    pub(crate) fn ask<D: Dialer, L: Lots>(
        &mut self,
        alloc: Global,
        dialer: &mut D,
        lots: &mut L,
    ) -> Result<(), DialFault>
        ensures asked { (d : Dial) × IfOk result (λ done. D.lanes dialer.old ≤ d.lane) × DoesBy (λ h. is_over (phase h) ≡ false) (λ s h. dialed s d (told h) h) self.old self.new
            (λ calls. D.Goes dialer.old calls dialer.new × AreNewLanes (given_in calls) (D.lanes dialer.old) (D.lanes dialer.new))
            (λ drawn. AddsSome (L.drawn lots.old) (L.drawn lots.new) drawn × IsCountOf drawn (L.faults lots.old) (L.faults lots.new)) result }
        ensures cause { IsCausedBy (D.faults dialer.old) (D.faults dialer.new) result }
        ensures others_unchanged { D.moment dialer.new ≡ D.moment dialer.old }
    {
        match &self.told {
            Some(granted) => {
                let token = granted.token.as_str();
                let phase = ask_for_socket(alloc, &self.setup, token, dialer, lots)?;
                self.phase = phase;
                self.failed_draw = self.failed_draw || phase.is_over();
            }
            None => self.phase = ask_for_token(alloc, &self.setup, dialer)?,
        }
        Ok(())
    }
}
