//! Connections that wait for as long as each other: until their lives end, or their polls; in the order of their moments. Room for all of them is
//! taken beforehand, so that a connection can wait without more memory.

ghost use Rattle.std.specs.Prelude.{◌≡◌, ◌≤◌, ◌<◌, ◌+◌, ◌&&◌, ◌||◌, ℕ, [], true, not, filter, length, min, nat_le, unwrap_or, OnOk};
ghost use Rattle.std.specs.Vec.{vec_capacity};
ghost use Rattle.hn_server_front.specs.Moments.{HasPlace, IsInOrder, IsLeast, at, is_due, is_same, is_within, waits_as};

use std::alloc::{AllocError, Global};

/// A connection, and the moment, in milliseconds, since which it waits. They are ordered by the moments, and at one moment by the numbers.
#[derive(Clone, Copy, Debug, PartialEq, Eq, PartialOrd, Ord)]
pub struct Waiting {
    pub since: u64,
    pub conn: u64,
}

/// Those that wait for their moments, in order. They are a plain list: nearly all that is added comes last, since moments rise. Of lives, those
/// on sockets and with held polls don't wait, unless they are ending.
#[derive(Drop)]
pub struct Moments {
    /// For how many milliseconds each waits.
    lasts: u64,
    waiting: Vec<Waiting>,
}

impl Moments {
    pub(crate) fn start(alloc: Global, lasts: u64) -> Moments
        ensures none { result.waiting.items ≡ [] }
        ensures lasts { result.lasts ≡ lasts }
    {
        Moments {
            lasts,
            waiting: Vec::new(alloc),
        }
    }

    /// Takes room for this many in all.
    pub(crate) fn reserve(&mut self, count: usize) -> Result<(), AllocError>
        ensures ok { OnOk result (count ≤ vec_capacity self.new.waiting) }
        ensures items { self.new.waiting.items ≡ self.old.waiting.items }
        ensures lasts { self.new.lasts ≡ self.old.lasts }
        ensures capacity { vec_capacity self.old.waiting ≤ vec_capacity self.new.waiting }
    {
        let len = self.waiting.len();
        self.waiting.reserve(count.saturating_sub(len))
    }

    /// A connection that waited as `before` says waits as `after` says; None: not at all.
    pub(crate) fn change(&mut self, conn: u64, before: Option<u64>, after: Option<u64>)
        ensures changed { IsInOrder self.old.waiting.items → waits_as conn before self.old.waiting.items → HasPlace self.old before →
            waits_as conn after self.new.waiting.items }
        ensures others { IsInOrder self.old.waiting.items → waits_as conn before self.old.waiting.items → HasPlace self.old before →
            (since k : ℕ) → (k ≡ conn → ⊥) →
            is_within (at since k) self.new.waiting.items ≡ is_within (at since k) self.old.waiting.items }
        ensures order { IsInOrder self.old.waiting.items → IsInOrder self.new.waiting.items }
        ensures lasts { self.new.lasts ≡ self.old.lasts }
        ensures capacity { vec_capacity self.old.waiting ≤ vec_capacity self.new.waiting }
    {
        if before == after {
            return;
        }
        if let Some(since) = before {
            self.remove(Waiting { since, conn });
        }
        if let Some(since) = after {
            self.add(Waiting { since, conn });
        }
    }

    /// It waits, if it didn't.
    fn add(&mut self, one: Waiting)
        ensures added { IsInOrder self.old.waiting.items → length self.old.waiting.items < vec_capacity self.old.waiting →
            (since conn : ℕ) → is_within (at since conn) self.new.waiting.items ≡
            (is_same (at since conn) one || is_within (at since conn) self.old.waiting.items) }
        ensures order { IsInOrder self.old.waiting.items → IsInOrder self.new.waiting.items }
        ensures lasts { self.new.lasts ≡ self.old.lasts }
        ensures capacity { vec_capacity self.old.waiting ≤ vec_capacity self.new.waiting }
    {
        if let Err(place) = self.waiting.binary_search(&one) {
            // It has its place, so this takes no memory.
            let _inserted = self.waiting.insert(place, one);
        }
    }

    /// It doesn't wait any more, if it did.
    fn remove(&mut self, one: Waiting)
        ensures removed { IsInOrder self.old.waiting.items → (since conn : ℕ) →
            is_within (at since conn) self.new.waiting.items ≡ (is_within (at since conn) self.old.waiting.items && not (is_same (at since conn) one)) }
        ensures fewer { IsInOrder self.old.waiting.items → is_within one self.old.waiting.items ≡ true →
            length self.new.waiting.items < length self.old.waiting.items }
        ensures order { IsInOrder self.old.waiting.items → IsInOrder self.new.waiting.items }
        ensures lasts { self.new.lasts ≡ self.old.lasts }
        ensures capacity { vec_capacity self.old.waiting ≤ vec_capacity self.new.waiting }
    {
        if let Ok(place) = self.waiting.binary_search(&one) {
            self.waiting.remove(place);
        }
    }

    /// Those whose moment has come, found by halving.
    pub(crate) fn due(&self, now: u64) -> &[Waiting]
        ensures { IsInOrder self.now.waiting.items → result.now ≡ filter (λ w. is_due self.now.lasts now w) self.now.waiting.items }
    {
        let past = self
            .waiting
            .partition_point(|waiting| is_past(waiting.since, self.lasts, now));
        &self.waiting[..past]
    }

    /// The least number of a connection whose moment has come.
    pub(crate) fn first_due(&self, now: u64) -> Option<u64>
        ensures { IsInOrder self.now.waiting.items → IsLeast (filter (λ w. is_due self.now.lasts now w) self.now.waiting.items) result }
    {
        least(self.due(now))
    }
}

/// Whether what began at one moment, and lasts for so long, has ended at another.
pub(crate) fn is_past(since: u64, lasts: u64, now: u64) -> bool
    ensures { result ≡ nat_le (since + lasts) now }
{
    since <= now && now - since >= lasts
}

/// The least number of these.
fn least(waiting: &[Waiting]) -> Option<u64>
    ensures { IsLeast waiting.now result }
{
    let mut least = None;
    for one in waiting {
        least = Some(lesser(least, one.conn));
    }
    least
}

/// The lesser of two numbers, if there are two.
pub(crate) fn lesser(least: Option<u64>, conn: u64) -> u64
    ensures { result ≡ min (unwrap_or least conn) conn }
{
    match least {
        None => conn,
        Some(least) => least.min(conn),
    }
}
