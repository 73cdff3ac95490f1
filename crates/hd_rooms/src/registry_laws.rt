//! What crates above cite of the definitions. No function here does anything: its contract is the law.

ghost use Rattle.std.specs.Prelude.{◌≡◌};
ghost use Rattle.hd_rooms.specs.Registry.{most_groups};
ghost use Rattle.hd_rooms.specs.RegistryLaws.{CountsAgree, GroupsAreBounded, MembersFollow, PairsStayDistinct};

use crate::vocabulary::MOST_GROUPS;

/// The members of each name after a pair came, a pair went, or a connection went from everything.
pub fn members_follow()
    ensures { MembersFollow }
{}

/// Pairs that are distinct stay so, and so each connection is a member of a name once.
pub fn pairs_stay_distinct()
    ensures { PairsStayDistinct }
{}

/// A connection that has the same names in two lists of distinct pairs has as many in both.
pub fn counts_agree()
    ensures { CountsAgree }
{}

/// No connection is in more groups than the most, which is the constant.
pub fn groups_are_bounded()
    ensures bounded { GroupsAreBounded }
    ensures most { MOST_GROUPS ≡ most_groups }
{}
