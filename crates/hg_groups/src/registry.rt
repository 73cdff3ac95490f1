//! Groups and users: who joined what, in order of joining.
ghost use Rattle.std.specs.Prelude.{◌≡◌, ℕ, not, IfOk, OnOk, OnErr, nat_eq};
ghost use Rattle.std.specs.List.{IsDistinct};
ghost use Rattle.hd_rooms.specs.Registry.{Lists, nobody, has, members, may_join, added, removed, named, gone};
ghost use Rattle.hg_groups.specs.Standing.{StandsRegistry};

use crate::index::Index;
use hd_rooms::MOST_GROUPS;
use hv_value::Text;
use std::alloc::{AllocError, Global};

/// Two lists of distinct pairs in order of joining: groups with their members, and users with their connections.
///
/// A group begins with its first member and ends with its last, and takes no memory while it has none. Each contract speaks of any
/// lists that the registry stood for: it now stands for those lists with this change.
#[derive(Drop)]
pub struct Registry {
    groups: Index,
    users: Index,
}

impl Registry {
    /// A registry without groups and users, which takes no memory yet.
    pub fn start(alloc: Global) -> Result<Registry, AllocError>
        ensures { IfOk result (λ registry. StandsRegistry registry nobody) }
    {
        Ok(Registry {
            groups: Index::new(alloc),
            users: Index::new(alloc),
        })
    }

    /// A connection joins a group, as its last member; one that is a member already stays in its place. `false` if and only if it may not,
    /// since it is in `MOST_GROUPS` others: then nothing has changed. Nor has it out of memory.
    pub fn join(&mut self, alloc: Global, group: &Text, conn: u64) -> Result<bool, AllocError>
        ensures answer { IfOk result
            (λ may. (l : Lists) → StandsRegistry self.old l → may ≡ may_join (group.now, conn) l.groups) }
        ensures joined { OnOk result ((l : Lists) → StandsRegistry self.old l → StandsRegistry self.new (added l group.now conn)) }
        ensures unchanged { OnErr result ((l : Lists) → StandsRegistry self.old l → StandsRegistry self.new l) }
    {
        hd_rooms::groups_are_bounded();
        let is_member = self.groups.has(group, conn);
        let is_full = self.groups.count(conn) >= MOST_GROUPS;
        if is_full && !is_member {
            return Ok(false);
        }
        self.groups.add(alloc, group, conn)?;
        Ok(true)
    }

    /// A connection leaves a group. `true` if and only if it was a member. It takes no memory.
    pub fn remove(&mut self, group: &Text, conn: u64) -> bool
        ensures answer { (l : Lists) → StandsRegistry self.old l → result ≡ has (group.now, conn) l.groups }
        ensures removed { (l : Lists) → StandsRegistry self.old l → StandsRegistry self.new (removed l group.now conn) }
    {
        self.groups.remove(group, conn)
    }

    /// A connection is a user's from now on. Nothing happens if it is already. Out of memory nothing has changed.
    pub fn name(&mut self, alloc: Global, user: &Text, conn: u64) -> Result<(), AllocError>
        ensures named { OnOk result ((l : Lists) → StandsRegistry self.old l → StandsRegistry self.new (named l user.now conn)) }
        ensures unchanged { OnErr result ((l : Lists) → StandsRegistry self.old l → StandsRegistry self.new l) }
    {
        self.users.add(alloc, user, conn)?;
        Ok(())
    }

    /// A connection leaves every group, and is no user's any more. It takes no memory, and goes through the
    /// connection's own groups alone.
    pub fn gone(&mut self, conn: u64)
        ensures { (l : Lists) → StandsRegistry self.old l → StandsRegistry self.new (gone l conn) }
    {
        self.groups.gone(conn);
        self.users.gone(conn);
    }

    /// The members of a group, in order of joining, each once.
    pub fn members(&self, alloc: Global, group: &Text) -> Result<Vec<u64>, AllocError>
        ensures listed { IfOk result (λ v. (l : Lists) → StandsRegistry self.now l → v.items ≡ members group.now l.groups) }
        ensures once { IfOk result (λ v. IsDistinct nat_eq v.items) }
    {
        Vec::from_slice(alloc, self.groups.of(group))
    }

    /// The connections of a user, in order of joining, each once.
    pub fn of_user(&self, alloc: Global, user: &Text) -> Result<Vec<u64>, AllocError>
        ensures listed { IfOk result (λ v. (l : Lists) → StandsRegistry self.now l → v.items ≡ members user.now l.users) }
        ensures once { IfOk result (λ v. IsDistinct nat_eq v.items) }
    {
        Vec::from_slice(alloc, self.users.of(user))
    }
}
