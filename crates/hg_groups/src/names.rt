//! The side of an index that goes from a connection to its names. A connection without names isn't kept.
ghost use Rattle.std.specs.Prelude.{◌≡◌, ℕ, List, false, not, OnOk, OnErr, IsTrue, MatchOption};
ghost use Rattle.hg_groups.specs.Maps.{NoneIsNameless, SameNames, Entered, Exited, Forgotten, HasCount, at_conn, holds, has_name};

use hv_value::Text;
use indexmap::IndexMap;
use std::alloc::{AllocError, Global};
use std::collections::BTreeSet;

/// From a connection to its names.
///
/// Each has its own copy of a name, because a connection has few; instead of numbers for names, which would be a third map.
#[derive(Drop)]
pub struct Names {
    by_conn: IndexMap<u64, BTreeSet<Text>>,
    ghost none_is_nameless: { NoneIsNameless by_conn },
}

impl Names {
    /// No connections.
    pub(crate) fn new(alloc: Global) -> Names
        ensures { (conn : ℕ) (name : List ℕ) → holds result.by_conn conn name ≡ false }
    {
        Names {
            by_conn: IndexMap::new(alloc),
        }
    }

    /// Whether the connection has the name.
    pub(crate) fn has(&self, conn: u64, name: &Text) -> bool
        ensures { result ≡ holds self.now.by_conn conn name.now }
    {
        match self.by_conn.get(&conn) {
            Some(names) => names.contains(name),
            None => false,
        }
    }

    /// How many names the connection has.
    pub(crate) fn count(&self, conn: u64) -> usize
        ensures { HasCount (at_conn self.now.by_conn conn) result }
    {
        match self.by_conn.get(&conn) {
            Some(names) => names.len(),
            None => 0,
        }
    }

    /// Gives the connection the name, of which it takes a copy.
    pub(crate) fn enter(&mut self, alloc: Global, conn: u64, name: &Text) -> Result<(), AllocError>
        ensures entered { OnOk result (Entered self.old.by_conn self.new.by_conn conn name.now) }
        ensures unchanged { OnErr result (SameNames self.old.by_conn self.new.by_conn) }
    {
        let name = name.copy()?;
        if let Some(names) = self.by_conn.get_mut(&conn) {
            names.insert(name)?;
            return Ok(());
        }
        let mut names = BTreeSet::new(alloc);
        names.insert(name)?;
        self.by_conn.insert(conn, names)?;
        Ok(())
    }

    /// Takes the name from the connection, and the connection out if it was the last.
    pub(crate) fn exit(&mut self, conn: u64, name: &Text)
        ensures { Exited self.old.by_conn self.new.by_conn conn name.now }
    {
        let Some(names) = self.by_conn.get_mut(&conn) else {
            return;
        };
        names.remove(name);
        if names.is_empty() {
            self.by_conn.swap_remove(&conn);
        }
    }

    /// Takes the connection out, with all names that it has.
    pub(crate) fn forget(&mut self, conn: u64) -> Option<BTreeSet<Text>>
        ensures forgotten { Forgotten self.old.by_conn self.new.by_conn conn }
        ensures names { (name : List ℕ) → MatchOption result
            (holds self.old.by_conn conn name ≡ false) (λ names. has_name names name ≡ holds self.old.by_conn conn name) }
    {
        self.by_conn.swap_remove(&conn)
    }
}
