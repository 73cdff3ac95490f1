//! The side of an index that goes from a name to its connections, in order of joining. A name without connections isn't kept.
ghost use Rattle.std.specs.Prelude.{◌≡◌, ◌<◌, ℕ, List, [], OnOk, OnErr, IsTrue, vec_len};
ghost use Rattle.std.specs.Bool.{OnTrue, OnFalse};
ghost use Rattle.hd_rooms.specs.RegistryLaws.{is_among, others_than};
ghost use Rattle.hg_groups.specs.Maps.{NoneIsEmpty, SameLists, Begun, Joined, Left, LeftAll, listed, has_name};

use hv_value::Text;
use std::alloc::{AllocError, Global};
use std::collections::{BTreeMap, BTreeSet};

/// From a name to its connections.
///
/// They are a plain list, because it is read for each message to a group, and reading it is one copy. One that leaves costs a pass
/// over 8 bytes a member; instead of a tree of places in order of joining, which would make each reading slower.
#[derive(Drop)]
pub struct Members {
    by_name: BTreeMap<Text, Vec<u64>>,
    ghost none_is_empty: { NoneIsEmpty by_name },
}

impl Members {
    /// No names.
    pub(crate) fn new(alloc: Global) -> Members
        ensures { (name : List ℕ) → listed result.by_name name ≡ [] }
    {
        Members {
            by_name: BTreeMap::new(alloc),
        }
    }

    /// The connections of a name, in order of joining.
    pub(crate) fn of(&self, name: &Text) -> &[u64]
        ensures { result.now ≡ listed self.now.by_name name.now }
    {
        match self.by_name.get(name) {
            Some(conns) => conns.as_slice(),
            None => &[],
        }
    }

    /// Puts the connection last under the name.
    pub(crate) fn join(&mut self, alloc: Global, name: &Text, conn: u64) -> Result<(), AllocError>
        ensures joined { OnOk result (Joined self.old.by_name self.new.by_name name.now conn) }
        ensures unchanged { OnErr result (SameLists self.old.by_name self.new.by_name) }
    {
        if let Some(conns) = self.by_name.get_mut(name) {
            conns.push(conn)?;
            return Ok(());
        }
        self.begin(alloc, name, conn)?;
        Ok(())
    }

    /// Puts the connection alone under the name.
    fn begin(&mut self, alloc: Global, name: &Text, conn: u64) -> Result<(), AllocError>
        ensures begun { OnOk result (Begun self.old.by_name self.new.by_name name.now conn) }
        ensures unchanged { OnErr result (SameLists self.old.by_name self.new.by_name) }
    {
        let name = name.copy()?;
        let mut conns = Vec::new(alloc);
        conns.push(conn)?;
        self.by_name.insert(name, conns)?;
        Ok(())
    }

    /// Takes the connection out from under the name, and the name out if it was the last.
    pub(crate) fn leave(&mut self, name: &Text, conn: u64)
        ensures { Left self.old.by_name self.new.by_name name.now conn }
    {
        let Some(conns) = self.by_name.get_mut(name) else {
            return;
        };
        if take_out(conns, conn) {
            self.by_name.remove(name);
        }
    }

    /// Takes the connection out from under these names, which are all that it is under.
    pub(crate) fn leave_all(&mut self, mut names: BTreeSet<Text>, conn: u64)
        requires { (name : List ℕ) → IsTrue (is_among conn (listed self.old.by_name name)) → IsTrue (has_name names name) }
        ensures { LeftAll self.old.by_name self.new.by_name conn }
    {
        while let Some(name) = names.pop_first() {
            self.leave(&name, conn);
        }
    }
}

/// Takes a connection out of a list, whose others keep their order. Whether none is left.
fn take_out(conns: &mut Vec<u64>, conn: u64) -> bool
    ensures others { conns.new.items ≡ others_than conn conns.old.items }
    ensures empty { OnTrue result (conns.new.items ≡ []) }
    ensures more { OnFalse result (0 < vec_len conns.new) }
{
    conns.retain(|c| conn != *c);
    conns.is_empty()
}
