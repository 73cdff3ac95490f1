//! One list of distinct pairs of a name and a connection, indexed both ways.
ghost use Rattle.std.proofs.Props.{props};
ghost use Rattle.hg_groups.specs.Maps.{Agree, EachOnce};

use crate::members::Members;
use crate::names::Names;
use hv_value::Text;
use std::alloc::{AllocError, Global};

/// Names and the connections under them. Both sides have the same pairs, and each once.
#[derive(Drop)]
pub struct Index {
    members: Members,
    names: Names,
    ghost agree: { Agree names.by_conn members.by_name },
    ghost once: { EachOnce members.by_name } by { Prim.hlevel props },
}

impl Index {
    ghost use Rattle.std.specs.Prelude.{◌≡◌, ℕ, List, [], not, IfOk, OnOk, OnErr, nat_eq};
    ghost use Rattle.std.specs.List.{IsDistinct};
    ghost use Rattle.hd_rooms.specs.Registry.{Pair, has, members, count_of, with_pair, without_pair, without};
    ghost use Rattle.hg_groups.specs.Standing.{StandsIndex};

    /// No pairs.
    pub(crate) fn new(alloc: Global) -> Index
        ensures { StandsIndex result [] }
    {
        Index {
            members: Members::new(alloc),
            names: Names::new(alloc),
        }
    }

    /// The connections of a name, in order of joining, each once.
    pub(crate) fn of(&self, name: &Text) -> &[u64]
        ensures listed { (pairs : List Pair) → StandsIndex self.now pairs → result.now ≡ members name.now pairs }
        ensures once { IsDistinct nat_eq result.now }
    {
        self.members.of(name)
    }

    /// How many names the connection has.
    pub(crate) fn count(&self, conn: u64) -> usize
        ensures { (pairs : List Pair) → StandsIndex self.now pairs → result ≡ count_of conn pairs }
    {
        hd_rooms::members_follow();
        hd_rooms::counts_agree();
        self.names.count(conn)
    }

    /// Whether the pair is there.
    pub(crate) fn has(&self, name: &Text, conn: u64) -> bool
        ensures { (pairs : List Pair) → StandsIndex self.now pairs → result ≡ has (name.now, conn) pairs }
    {
        hd_rooms::members_follow();
        self.names.has(conn, name)
    }

    /// Adds the pair, last. Whether it is new: a pair that is there stays where it is. Out of memory nothing has changed.
    pub(crate) fn add(&mut self, alloc: Global, name: &Text, conn: u64) -> Result<bool, AllocError>
        ensures answer { IfOk result
            (λ new. (pairs : List Pair) → StandsIndex self.old pairs → new ≡ not (has (name.now, conn) pairs)) }
        ensures added { OnOk result
            ((pairs : List Pair) → StandsIndex self.old pairs → StandsIndex self.new (with_pair (name.now, conn) pairs)) }
        ensures unchanged { OnErr result ((pairs : List Pair) → StandsIndex self.old pairs → StandsIndex self.new pairs) }
    {
        hd_rooms::members_follow();
        hd_rooms::pairs_stay_distinct();
        if self.names.has(conn, name) {
            return Ok(false);
        }
        self.names.enter(alloc, conn, name)?;
        if let Err(error) = self.members.join(alloc, name, conn) {
            self.names.exit(conn, name);
            return Err(error);
        }
        Ok(true)
    }

    /// Takes the pair out. Whether it was there.
    pub(crate) fn remove(&mut self, name: &Text, conn: u64) -> bool
        ensures answer { (pairs : List Pair) → StandsIndex self.old pairs → result ≡ has (name.now, conn) pairs }
        ensures removed { (pairs : List Pair) → StandsIndex self.old pairs
            → StandsIndex self.new (without_pair (name.now, conn) pairs) }
    {
        hd_rooms::members_follow();
        hd_rooms::pairs_stay_distinct();
        if !self.names.has(conn, name) {
            return false;
        }
        self.names.exit(conn, name);
        self.members.leave(name, conn);
        true
    }

    /// Takes all pairs of the connection out.
    pub(crate) fn gone(&mut self, conn: u64)
        ensures { (pairs : List Pair) → StandsIndex self.old pairs → StandsIndex self.new (without conn pairs) }
    {
        hd_rooms::members_follow();
        hd_rooms::pairs_stay_distinct();
        let Some(names) = self.names.forget(conn) else {
            return;
        };
        self.members.leave_all(names, conn);
    }
}
