//! The trait of connections as streams of bytes, which are read and written without waiting.

ghost use Rattle.std.specs.Prelude.{◌≡◌, ◌+◌, ◌≤◌, ℕ, List, Option, None, length, IfOk};
ghost use Rattle.hd_facts.specs.Counts.{HasCause};
ghost use Rattle.hw_door.specs.Calls.{Adds, AddsSome};
ghost use Rattle.hw_door.specs.Traffic.{Answer, CountsWithin, IsPolled, IsNewWire, poll_answer, accept_answer, connect_answer, read_answer, write_answer, accepted_wire, connected_wire, ready_answer, was_shut};

use hw_io::Failed;

/// What a read on a wire gave.
#[derive(Clone, Copy, Debug, PartialEq, Eq)]
pub enum WireRead {
    /// This many bytes, at the beginning of the buffer.
    Some(usize),
    /// None have come yet.
    NotYet,
    /// The other side sends no more.
    Ended,
}

/// Connections as streams of bytes, each by its number, which are read and written without waiting. Only `poll` waits.
///
/// An implementation tells by `trace` what its calls answered, in order, or `None` if nobody can know it, as at sockets; by `moment` the
/// moment polled last, 0 before the first; by `wires` a bound below which each number lies that it answered; and by `faults` how often
/// it has failed. That count never falls. It holds 64 bits and stays at 2^64 - 1, and a further failure there counts as a rise.
///
/// In each call, `trace` says that its answer stands last in what is told, if anything still is, and `cause` that it fails only if the
/// count of faults rose in it, and at Ok the count is as it was.
pub trait Wires {
    ghost trace: { Self → Option (List Answer) } = { λ _. None };

    ghost moment: { Self → ℕ };

    ghost wires: { Self → ℕ };

    ghost faults: { Self → ℕ };

    /// Waits at most `wait` milliseconds until something may be ready, and answers the moment, in milliseconds since a start of its own.
    /// It is never before the moment polled last. What is told of the call has the wait that it was handed.
    fn poll(&mut self, wait: u64) -> Result<u64, Failed>
        ensures later { IsPolled (moment self.old) (moment self.new) result }
        ensures wires { wires self.new ≡ wires self.old }
        ensures trace { Adds (trace self.old) (trace self.new) (poll_answer wait result) }
        ensures cause { HasCause (faults self.old) (faults self.new) result };

    /// Takes a connection that came, if there is one, and answers its number: one that was never answered before.
    fn accept(&mut self) -> Result<Option<u64>, Failed>
        ensures fresh { IsNewWire (wires self.old) (wires self.new) (accepted_wire result) }
        ensures others_unchanged { moment self.new ≡ moment self.old }
        ensures trace { Adds (trace self.old) (trace self.new) (accept_answer result) }
        ensures cause { HasCause (faults self.old) (faults self.new) result };

    /// Begins a connection, and answers its number: one that was never answered before. It may not be there yet, or never come to be.
    fn connect(&mut self, host: &str, port: u16) -> Result<u64, Failed>
        ensures fresh { IsNewWire (wires self.old) (wires self.new) (connected_wire result) }
        ensures others_unchanged { moment self.new ≡ moment self.old }
        ensures trace { Adds (trace self.old) (trace self.new) (connect_answer result) }
        ensures cause { HasCause (faults self.old) (faults self.new) result };

    /// Reads what has come, at most what `buf` has room for.
    fn read(&mut self, wire: u64, buf: &mut [u8]) -> Result<WireRead, Failed>
        ensures count { IfOk result (λ r. CountsWithin r (length buf.new)) }
        ensures wires { wires self.new ≡ wires self.old }
        ensures others_unchanged { moment self.new ≡ moment self.old }
        ensures trace { Adds (trace self.old) (trace self.new) (read_answer wire buf.new result) }
        ensures cause { HasCause (faults self.old) (faults self.new) result };

    /// Writes as many of the first bytes as the wire takes now, and answers how many.
    fn write(&mut self, wire: u64, bytes: &[u8]) -> Result<usize, Failed>
        ensures count { IfOk result (λ count. count ≤ length bytes.now) }
        ensures wires { wires self.new ≡ wires self.old }
        ensures others_unchanged { moment self.new ≡ moment self.old }
        ensures trace { Adds (trace self.old) (trace self.new) (write_answer wire bytes.now result) }
        ensures cause { HasCause (faults self.old) (faults self.new) result };

    /// Ends the wire.
    fn shut(&mut self, wire: u64)
        ensures wires { wires self.new ≡ wires self.old }
        ensures others_unchanged { moment self.new ≡ moment self.old }
        ensures trace { Adds (trace self.old) (trace self.new) (was_shut wire) }
        ensures unfailed { faults self.new ≡ faults self.old };

    /// Whether no wire has anything to give: none that was answered and not shut, so that a read of any would be answered with `NotYet`. That is what
    /// true promises; wires that can't tell answer false.
    fn none_ready(&mut self) -> bool
        ensures wires { wires self.new ≡ wires self.old }
        ensures others_unchanged { moment self.new ≡ moment self.old }
        ensures trace { AddsSome (trace self.old) (trace self.new) (ready_answer result) }
        ensures unfailed { faults self.new ≡ faults self.old }
    {
        false
    }

    /// A wire on which a read may give something: the first after that of this number, in an order of the wires that goes round. It is a
    /// hint of which nothing is promised: the wire may have nothing or be none of the caller's, and one that has something may never be
    /// named. A caller that begins its reads there finds what there is sooner. Wires that can't tell name none.
    fn ready_after(&self, wire: u64) -> Option<u64> {
        None
    }
}
