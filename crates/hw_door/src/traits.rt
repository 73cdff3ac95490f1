//! The traits of the outside in whole requests and replies: lots that are drawn, doors that a server hears through, dialers for a client.

ghost use Rattle.std.specs.Prelude.{◌≡◌, ◌≢◌, ℕ, Bool, true, List, [], ◌∷◌, ◌++◌, Option, None};
ghost use Rattle.std.specs.Result.{result_ok};
ghost use Rattle.hd_facts.specs.Counts.{HasCause};
ghost use Rattle.hw_lanes.specs.Replies.{IsReply};
ghost use Rattle.hw_door.specs.declared.heard.Given.TheVariants as say;
ghost use Rattle.hw_door.specs.DoorCalls.{DoorCall, heard_call, given_call, sent_call, asked_call, flushed};
ghost use Rattle.hw_door.specs.Calls.{Adds, HasFaultCause, IsLater, IsNewLane};

use crate::error::DoorError;
use crate::heard::{Heard, Upgrade};
use hw_io::Failed;
use hw_lanes::{Method, Reply};

/// Random draws, of the system or of memory.
///
/// An implementation tells by `drawn` what each call gave, in order, with `None` for one that failed, or it tells nothing if nobody can
/// know it; and by `faults` how often it has failed. That count never falls. It holds 64 bits and stays at 2^64 - 1, and a further
/// failure there counts as a rise.
pub trait Lots {
    ghost drawn: { Self → Option (List (Option (List ℕ))) } = { λ _. None };

    ghost faults: { Self → ℕ };

    /// Draws sixteen bytes.
    ///
    /// `trace`: what it gave stands last in what is told, if anything still is. `cause`: the call fails only if the count of faults rose
    /// in it, and at Ok the count is as it was.
    fn draw(&mut self) -> Result<[u8; 16], Failed>
        ensures trace { Adds (drawn self.old) (drawn self.new) (result_ok result) }
        ensures cause { HasCause (faults self.old) (faults self.new) result };
}

/// What a server hears through, and says through.
///
/// An implementation tells by `Goes` which calls, as they were answered, lead in order from one state to another. The empty list leads from each state
/// to itself (`stays`), and lists that lead on one after the other do so joined (`joins`). Where nobody can know anything of the calls, any list
/// leads anywhere. It tells by `moment` the moment of what was heard last, 0 before the first; by `faults` how often it has failed, as [`Lots`] do; and by `is_flushed` that nothing was asked of it since the
/// last `flush`, or true where what it says never waits or nobody can know.
///
/// In each call, `cause` says that it fails only if the count of faults rose in it. After an error the moment is as before; out of memory the
/// count is as before too.
pub trait Door {
    ghost Goes: { Self → List DoorCall → Self → Type 0 };

    ghost moment: { Self → ℕ };

    ghost is_flushed: { Self → Bool } = { λ _. true };

    ghost faults: { Self → ℕ };

    /// Hears what happens next, and waits for that at most `wait` milliseconds. Its moment is never before that of what was heard last.
    fn next(&mut self, wait: u64) -> Result<Heard, DoorError>
        ensures heard { Goes self.old (heard_call wait result ∷ []) self.new }
        ensures later { IsLater (moment self.old) (moment self.new) result }
        ensures cause { HasFaultCause (faults self.old) (faults self.new) result };

    /// Replies to the request that the lane waits for. On a lane that is broken this is Ok, and nothing is said.
    fn reply(&mut self, lane: u64, reply: Reply) -> Result<(), DoorError>
        requires { IsReply reply }
        ensures given { (is_said : Bool) × Goes self.old (given_call (say.Reply lane reply) is_said result ∷ []) self.new }
        ensures others_unchanged { moment self.new ≡ moment self.old }
        ensures cause { HasFaultCause (faults self.old) (faults self.new) result };

    /// Sends one message, a text or not, on a lane that is a WebSocket, and answers whether the lane is full now: so much waits there that
    /// nothing more should be sent, though it may be, until [`Drained`](crate::Event::Drained) is heard of the lane or a later message is answered
    /// with false. Neither comes of a lane that is shut or lost. On a lane that is broken this is Ok, and nothing is said.
    fn send(&mut self, lane: u64, bytes: &[u8], text: bool) -> Result<bool, DoorError>
        ensures given { (is_said : Bool) × Goes self.old (sent_call (say.Bytes lane bytes.now text) is_said result ∷ []) self.new }
        ensures others_unchanged { moment self.new ≡ moment self.old }
        ensures cause { HasFaultCause (faults self.old) (faults self.new) result };

    /// Ends the lane, once what it was given before is said.
    fn shut(&mut self, lane: u64) -> Result<(), DoorError>
        ensures given { (is_said : Bool) × Goes self.old (given_call (say.Shut lane) is_said result ∷ []) self.new }
        ensures others_unchanged { moment self.new ≡ moment self.old }
        ensures cause { HasFaultCause (faults self.old) (faults self.new) result };

    /// Writes what was said on lanes that aren't shut and isn't written yet, as far as the other side takes it now. What a door says may wait, so
    /// that several messages go out at once; whoever hears nothing more calls this last. A door that says all at once does nothing.
    fn flush(&mut self)
        ensures flushed { is_flushed self.new ≡ true }
        ensures goes { Goes self.old (flushed ∷ []) self.new }
        ensures others_unchanged { moment self.new ≡ moment self.old }
        ensures unfailed { faults self.new ≡ faults self.old };

    ghost stays: { (s : Self) → Goes s [] s };

    ghost joins: { (a b c : Self) (x y : List DoorCall) → Goes a x b → Goes b y c → Goes a (x ++ y) c };
}

/// What a client asks through, and hears through.
///
/// An implementation tells by `Goes` which calls, its asks among them, lead from one state to another, as a [`Door`] does; by `lanes` a bound
/// below which each lane lies that it answered; and by `moment`, `faults` and `is_flushed` what a [`Door`] does.
/// `cause` is as at a [`Door`]. After an error the moment is as before; out of memory the count of faults is as before too.
pub trait Dialer {
    ghost Goes: { Self → List DoorCall → Self → Type 0 };

    ghost moment: { Self → ℕ };

    ghost lanes: { Self → ℕ };

    ghost is_flushed: { Self → Bool } = { λ _. true };

    ghost faults: { Self → ℕ };

    /// Asks with a method for a target, at the address that stands at this place of the dialer's list, from 0; on a new lane, whose number it
    /// answers: one that it never answered before. With an upgrade it asks for a WebSocket. What comes of it is heard later: where nothing can
    /// be asked, as no address stands at the place or nothing at the address, the lane is lost.
    fn ask(
        &mut self,
        place: u64,
        method: Method,
        target: &str,
        upgrade: Option<Upgrade>,
    ) -> Result<u64, DoorError>
        requires { method ≢ Method.Other }
        ensures given { (is_said : Bool) × (unanswered : ℕ) × Goes self.old (asked_call place method target.now upgrade unanswered is_said result ∷ []) self.new }
        ensures fresh { IsNewLane (lanes self.old) (lanes self.new) result }
        ensures others_unchanged { moment self.new ≡ moment self.old }
        ensures cause { HasFaultCause (faults self.old) (faults self.new) result };

    /// Hears what happens next, and waits for that at most `wait` milliseconds. Its moment is never before that of what was heard last.
    fn next(&mut self, wait: u64) -> Result<Heard, DoorError>
        ensures heard { Goes self.old (heard_call wait result ∷ []) self.new }
        ensures later { IsLater (moment self.old) (moment self.new) result }
        ensures lanes { lanes self.new ≡ lanes self.old }
        ensures cause { HasFaultCause (faults self.old) (faults self.new) result };

    /// Sends one message, a text or not, on a lane that is a WebSocket, and answers whether the lane is full now: so much waits there that
    /// nothing more should be sent, though it may be, until [`Drained`](crate::Event::Drained) is heard of the lane or a later message is answered
    /// with false. Neither comes of a lane that is shut or lost. On a lane that is broken this is Ok, and nothing is said.
    fn send(&mut self, lane: u64, bytes: &[u8], text: bool) -> Result<bool, DoorError>
        ensures given { (is_said : Bool) × Goes self.old (sent_call (say.Bytes lane bytes.now text) is_said result ∷ []) self.new }
        ensures others_unchanged { moment self.new ≡ moment self.old }
        ensures lanes { lanes self.new ≡ lanes self.old }
        ensures cause { HasFaultCause (faults self.old) (faults self.new) result };

    /// Ends the lane, once what it was given before is said.
    fn shut(&mut self, lane: u64) -> Result<(), DoorError>
        ensures given { (is_said : Bool) × Goes self.old (given_call (say.Shut lane) is_said result ∷ []) self.new }
        ensures others_unchanged { moment self.new ≡ moment self.old }
        ensures lanes { lanes self.new ≡ lanes self.old }
        ensures cause { HasFaultCause (faults self.old) (faults self.new) result };

    /// Writes what was said on lanes that aren't shut and isn't written yet, as far as the other side takes it now. What a dialer says may wait, so
    /// that several messages go out at once; whoever hears nothing more calls this last. A dialer that says all at once does nothing.
    fn flush(&mut self)
        ensures flushed { is_flushed self.new ≡ true }
        ensures goes { Goes self.old (flushed ∷ []) self.new }
        ensures others_unchanged { moment self.new ≡ moment self.old }
        ensures lanes { lanes self.new ≡ lanes self.old }
        ensures unfailed { faults self.new ≡ faults self.old };

    ghost stays: { (s : Self) → Goes s [] s };

    ghost joins: { (a b c : Self) (x y : List DoorCall) → Goes a x b → Goes b y c → Goes a (x ++ y) c };
}
