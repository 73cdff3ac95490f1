//! The reading of a script: from its text to what its lines ask for, or to the first line that isn't one of a script.

ghost use Rattle.std.specs.Prelude.{◌≡◌, ◌<◌, ◌≤◌, ◌+◌, ℕ, true, false, List, [], ◌∷◌, IsTrue, IfOk, IfErr, IfSome, IfNone, IsSome, OnOk, length, suc};
ghost use Rattle.hd_facts.specs.Unique.{IsTheOne};
ghost use Rattle.sr_script.specs.declared.script.ScriptError.TheVariants.{Line, NoMemory};
ghost use Rattle.sr_script.specs.Script.{Program, Parses, IsRefusedAt};
ghost use Rattle.sr_script.specs.Asking.{and_then, IsAllowed, MayCome};
ghost use Rattle.sr_script.specs.Turns.{Knows};
ghost use Rattle.sr_script.specs.Reading.{HasCome, HasRead, HasReadWithoutPeers, IsLineEnd, Comes, CantCome, ParsesWithoutPeers, RefusesWithoutPeers, RefusesText, asks_for_peers};

use crate::line::{Asked, is_passed_over, parse_line};
use crate::turn::Turn;
use sr_notation::Setting;
use std::alloc::{AllocError, AllocFailed, Global};
use std::fmt;
use std::marker::Model;

/// The most bytes of a script: 16 MiB.
pub const MOST_SCRIPT: usize = 16_777_216;

/// Why no script was read from a text.
#[derive(Clone, Copy, Debug, PartialEq, Eq)]
pub enum ScriptError {
    /// The text is no script: the number of its first line, counted from 1, with which no script goes on.
    Line(u64),
    /// Memory ran out, which says nothing of the text.
    NoMemory,
}

impl fmt::Display for ScriptError {
    ghost use Rattle.std.specs.Prelude.{Some};
    ghost use Rattle.sr_script.specs.Words.{script_error_words};

    ghost output = { λ error. Some (script_error_words error) };

    fn fmt<W: fmt::Write>(&self, f: &mut fmt::Formatter<W>) -> fmt::Result {
        match self {
            ScriptError::Line(number) => write!(f, "line {number} is none of a script"),
            ScriptError::NoMemory => f.write_str("out of memory"),
        }
    }
}

impl std::error::Error for ScriptError {}

impl From<AllocError> for ScriptError {
    ghost from_gives = { λ _ e. e ≡ NoMemory };

    fn from(_e: AllocError) -> ScriptError {
        ScriptError::NoMemory
    }
}

/// The text of a script.
#[derive(Drop)]
pub struct Script {
    text: Vec<u8>,
}

impl Model for Script {
    ghost use Rattle.std.specs.Prelude.{ℕ, List};
    ghost use Rattle.sr_script.specs.Script.{Program, Parses};

    ghost Value = { List ℕ };

    ghost view = { λ s. s.text.items };

    ghost invariant = { λ s. (p : Program) × Parses s.text.items p };
}

impl Script {
    /// Its bytes.
    pub fn text(&self) -> &[u8]
        ensures value { result.now ≡ self.now }
        ensures script { (p : Program) × Parses self.now p }
    {
        &self.text
    }
}

/// The script that this text is, or the number of the first line at which it stops being one. A line that goes past the first 16 MiB is
/// refused.
pub fn parse(alloc: Global, text: &[u8]) -> Result<Script, ScriptError>
    ensures ok { IfOk result (λ script. (script ≡ text.now) × ((p : Program) × IsTheOne (Parses text.now) p)) }
    ensures refused { IfErr result (λ e. RefusesText e text.now) }
{
    let mut reader = Reader::start(alloc);
    while reader.pass(alloc, text)? {}
    let text = Vec::from_slice(alloc, text)?;
    Ok(Script { text })
}

/// The script that this text is, if it is one of two ends alone; or the number of the first line at which it stops being one. The option
/// of peers is none of such a script, so its line is refused as any other.
pub fn parse_without_peers(alloc: Global, text: &[u8]) -> Result<Script, ScriptError>
    ensures ok { IfOk result (λ script. (script ≡ text.now) × ((p : Program) × ParsesWithoutPeers text.now p)) }
    ensures refused { IfErr result (λ e. RefusesWithoutPeers e text.now) }
{
    let mut reader = Reader::start(alloc);
    while reader.pass_without_peers(alloc, text)? {}
    let text = Vec::from_slice(alloc, text)?;
    Ok(Script { text })
}

/// Whether a line asked for peers.
fn asks_for_peers(asked: &Asked) -> bool
    ensures { result ≡ asks_for_peers asked.now }
{
    match asked {
        Asked::Setting(Setting::Peers) => true,
        _ => false,
    }
}

/// The length of the first line, without its end.
pub fn line_end(text: &[u8]) -> usize
    ensures { IsLineEnd text.now result }
{
    for (i, byte) in text.iter().enumerate() {
        if *byte == b'\n' {
            return i;
        }
    }
    text.len()
}

/// Where in a text the next line begins, and which lines may come there. It keeps nothing of the text, which is handed in at each call.
#[derive(Drop)]
pub struct Reader {
    at: usize,
    // the number of the line that comes next, counted from 1
    number: u64,
    turn: Turn,
}

impl Reader {
    /// Before the first line of any text.
    pub fn start(alloc: Global) -> Reader
        ensures { (text : List ℕ) → HasRead result text (record { settings = []; actions = [] }) }
    {
        Reader {
            at: 0,
            number: 1,
            turn: Turn::start(alloc),
        }
    }

    /// What the next line of the text asks for that isn't passed over, or `None` after the last. After an error nothing is known of the
    /// reader. The text is the same at each call.
    fn next(&mut self, alloc: Global, text: &[u8]) -> Result<Option<Asked>, ScriptError>
        requires { (p : Program) × HasRead self.old text.now p }
        ensures next { IfOk result (λ r. IfSome r (λ x. (p : Program) → HasRead self.old text.now p →
            MayCome p x × IsAllowed x × HasRead self.new text.now (and_then p x))) }
        ensures end { IfOk result (λ r. IfNone r ((p : Program) → HasRead self.old text.now p → IsTheOne (Parses text.now) p)) }
        ensures refused { IfErr result (λ e. RefusesText e text.now) }
        ensures came { IfOk result (λ r. IsSome r → (p : Program) → HasRead self.old text.now p →
            (n : ℕ) × HasCome text.now p n × (self.new.number ≡ suc n)) }
        ensures stopped { IfErr result (λ e. (n : ℕ) → e ≡ Line n → (p : Program) → HasRead self.old text.now p → HasCome text.now p n) }
        ensures moves { IfOk result (λ r. IsSome r → (self.old.at < self.new.at) × (self.new.at ≤ length text.now)) }
    {
        while self.at < text.len() {
            let rest = &text[self.at..];
            let end = line_end(rest);
            let after = self.at + (end + 1).min(rest.len());
            if after > MOST_SCRIPT {
                return Err(ScriptError::Line(self.number));
            }
            let line = &rest[..end];
            if !is_passed_over(line) {
                let asked = self.ask(alloc, line)?;
                self.at = after;
                self.number += 1;
                return Ok(Some(asked));
            }
            self.at = after;
            self.number += 1;
        }
        Ok(None)
    }

    /// What the next line of a script asks for, or `None` after the last. The script is the same at each call.
    pub fn next_in(&mut self, alloc: Global, script: &Script) -> Result<Option<Asked>, AllocError>
        requires { (p : Program) × HasRead self.old script.now p }
        ensures next { IfOk result (λ r. IfSome r (λ x. (p : Program) → HasRead self.old script.now p →
            MayCome p x × IsAllowed x × HasRead self.new script.now (and_then p x))) }
        ensures end { IfOk result (λ r. IfNone r ((p : Program) → HasRead self.old script.now p → IsTheOne (Parses script.now) p)) }
        ensures moves { IfOk result (λ r. IsSome r → (self.old.at < self.new.at) × (self.new.at ≤ length script.now)) }
    {
        match self.next(alloc, script.text()) {
            Ok(asked) => Ok(asked),
            Err(ScriptError::NoMemory) => Err(AllocError),
            Err(ScriptError::Line(_)) => unreachable!(),
        }
    }

    /// Whether a line of the text was left that asks for something. It is passed.
    fn pass(&mut self, alloc: Global, text: &[u8]) -> Result<bool, ScriptError>
        requires { (p : Program) × HasRead self.old text.now p }
        ensures more { IfOk result (λ more. IsTrue more → (p : Program) × HasRead self.new text.now p) }
        ensures end { IfOk result (λ more. more ≡ false → (p : Program) × IsTheOne (Parses text.now) p) }
        ensures refused { IfErr result (λ e. RefusesText e text.now) }
        ensures moves { IfOk result (λ more. IsTrue more → (self.old.at < self.new.at) × (self.new.at ≤ length text.now)) }
    {
        match self.next(alloc, text)? {
            Some(asked) => {
                drop(asked);
                Ok(true)
            }
            None => Ok(false),
        }
    }

    /// The same in a script of two ends alone.
    fn pass_without_peers(&mut self, alloc: Global, text: &[u8]) -> Result<bool, ScriptError>
        requires { (p : Program) × HasReadWithoutPeers self.old text.now p }
        ensures more { IfOk result (λ more. IsTrue more → (p : Program) × HasReadWithoutPeers self.new text.now p) }
        ensures end { IfOk result (λ more. more ≡ false → (p : Program) × ParsesWithoutPeers text.now p) }
        ensures refused { IfErr result (λ e. RefusesWithoutPeers e text.now) }
        ensures moves { IfOk result (λ more. IsTrue more → (self.old.at < self.new.at) × (self.new.at ≤ length text.now)) }
    {
        let Some(asked) = self.next(alloc, text)? else {
            return Ok(false);
        };
        if asks_for_peers(&asked) {
            return Err(ScriptError::Line(self.number - 1));
        }
        Ok(true)
    }

    /// What the line asks for.
    fn ask(&mut self, alloc: Global, line: &[u8]) -> Result<Asked, ScriptError>
        ensures ok { IfOk result (λ x. (p : Program) → Knows self.old.turn p → Comes line.now p x × Knows self.new.turn (and_then p x)) }
        ensures refused { IfErr result (λ e. (n : ℕ) → e ≡ Line n → (n ≡ self.old.number) × ((p : Program) → Knows self.old.turn p → CantCome line.now p)) }
        ensures place { OnOk result ((self.new.at ≡ self.old.at) × (self.new.number ≡ self.old.number)) }
    {
        if str::from_utf8(line).is_err() {
            return Err(ScriptError::Line(self.number));
        }
        let Some(asked) = parse_line(alloc, line)? else {
            return Err(ScriptError::Line(self.number));
        };
        if self.turn.admit(&asked)? {
            Ok(asked)
        } else {
            Err(ScriptError::Line(self.number))
        }
    }
}
