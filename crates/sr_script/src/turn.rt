//! What of the lines before decides which line may come next. It doesn't know how lines are written.

ghost use Rattle.std.specs.Prelude.{◌≡◌, ◌↔◌, ℕ, true, List, [], ◌∷◌, IfOk, IsTrue};
ghost use Rattle.sr_notation.specs.declared.setting.Setting.TheVariants as setting;
ghost use Rattle.sr_script.specs.declared.action.Action.{Action};
ghost use Rattle.sr_script.specs.declared.action.Action.TheVariants.{Open, Accept, Tick};
ghost use Rattle.sr_script.specs.declared.line.Asked.TheVariants as asked;
ghost use Rattle.sr_script.specs.Script.{Program, Suits};
ghost use Rattle.sr_script.specs.Turns.{Knows, Admits, IsPlain};

use crate::action::Action;
use crate::line::Asked;
use sr_notation::Setting;
use std::alloc::{AllocError, Global};
use std::mem;

/// The most links that a script opens.
const MOST_LINKS: usize = 1024;

/// Which lines may come next.
#[derive(Drop)]
pub(crate) struct Turn {
    // whether options may come: no line asked for an action
    options: bool,
    // whether each option may come: no line said it
    codec: bool,
    version: bool,
    reconnect: bool,
    buffer: bool,
    peers: bool,
    // whether there are peers
    between_peers: bool,
    // of each link that was opened, whether it was accepted
    accepted: Vec<bool>,
    // the moment that came last
    now: u64,
}

impl Turn {
    /// Before the first line.
    pub(crate) fn start(alloc: Global) -> Turn
        ensures { Knows result (record { settings = []; actions = [] }) }
    {
        Turn {
            options: true,
            codec: true,
            version: true,
            reconnect: true,
            buffer: true,
            peers: true,
            between_peers: false,
            accepted: Vec::new(alloc),
            now: 0,
        }
    }

    /// Whether what a line asks for may come now. If so, it has come; otherwise nothing changes.
    pub(crate) fn admit(&mut self, asked: &Asked) -> Result<bool, AllocError>
        ensures { IfOk result (λ may. (p : Program) → Knows self.old p → Admits may self.new p asked.now) }
    {
        match asked {
            Asked::Setting(setting) => Ok(self.admit_setting(setting)),
            Asked::Action(Action::Open) => self.open(),
            Asked::Action(Action::Accept(link)) => Ok(self.accept(*link)),
            Asked::Action(Action::Tick(now)) => Ok(self.tick(*now)),
            Asked::Action(action) => Ok(self.act(action)),
        }
    }

    /// Whether the option may come now.
    fn admit_setting(&mut self, setting: &Setting) -> bool
        ensures { (p : Program) → Knows self.old p → Admits result self.new p (asked.Setting setting.now) }
    {
        if !self.options {
            return false;
        }
        match setting {
            Setting::Codec(_) => mem::replace(&mut self.codec, false),
            Setting::Version(_) => mem::replace(&mut self.version, false),
            Setting::Reconnect(_) => mem::replace(&mut self.reconnect, false),
            Setting::Buffer(_) => mem::replace(&mut self.buffer, false),
            Setting::Peers => self.admit_peers(),
        }
    }

    /// Whether the option of peers may come now, where options may.
    fn admit_peers(&mut self) -> bool
        requires { self.old.options ≡ true }
        ensures { (p : Program) → Knows self.old p → Admits result self.new p (asked.Setting setting.Peers) }
    {
        if !self.peers {
            return false;
        }
        self.peers = false;
        self.between_peers = true;
        true
    }

    /// Whether one link more may be opened.
    fn open(&mut self) -> Result<bool, AllocError>
        ensures { IfOk result (λ may. (p : Program) → Knows self.old p → Admits may self.new p (asked.Action Open)) }
    {
        if self.accepted.len() >= MOST_LINKS {
            return Ok(false);
        }
        self.accepted.push(false)?;
        self.options = false;
        Ok(true)
    }

    /// Whether the link of this number may be accepted.
    fn accept(&mut self, link: u64) -> bool
        ensures { (p : Program) → Knows self.old p → Admits result self.new p (asked.Action (Accept link)) }
    {
        let at = link as usize;
        if at >= self.accepted.len() {
            return false;
        }
        if self.accepted[at] {
            return false;
        }
        self.accepted[at] = true;
        self.options = false;
        true
    }

    /// Whether this moment may come.
    fn tick(&mut self, now: u64) -> bool
        ensures { (p : Program) → Knows self.old p → Admits result self.new p (asked.Action (Tick now)) }
    {
        if now < self.now {
            return false;
        }
        self.now = now;
        self.options = false;
        true
    }

    /// Whether an action that may come at any time suits the options.
    fn act(&mut self, action: &Action) -> bool
        requires { IsPlain action.now }
        ensures { (p : Program) → Knows self.old p → Admits result self.new p (asked.Action action.now) }
    {
        if !suits(action, self.between_peers) {
            return false;
        }
        self.options = false;
        true
    }
}

/// Whether the action is one of peers where there are peers, or of ends alone where there are none, or of both.
fn suits(action: &Action, peers: bool) -> bool
    ensures { IsTrue result ↔ Suits peers action.now }
{
    match action {
        Action::Send(_, _) => !peers,
        Action::Call(_, _) => peers,
        Action::Item(_, _, _) => peers,
        Action::Done(_, _) => peers,
        Action::Cancel(_, _) => peers,
        Action::Round(_) => peers,
        _ => true,
    }
}
