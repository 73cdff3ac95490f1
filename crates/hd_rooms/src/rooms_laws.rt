//! Laws of the rooms hub. No function here does anything: its contract is the law.

ghost use Rattle.std.specs.Prelude.{◌≡◌};
ghost use Rattle.hd_rooms.specs.Rooms.{most_name, most_recalled};
ghost use Rattle.hd_rooms.specs.RoomsLaws.{RoomsDo, RoomsRefuse};

use crate::vocabulary::{MOST_NAME, MOST_RECALLED};

/// What each method does, turn by turn, if its deeds are done, and how it ends if one of them can't be.
pub fn rooms_do_their_deeds()
    ensures { RoomsDo }
{}

/// What is refused at the first turn: an unknown target, then a Stream, then uploads, and then arguments of another number or kind,
/// among them a room whose name is too long.
pub fn rooms_refuse()
    ensures { RoomsRefuse }
{}

/// The constant is the number of the definitions.
pub fn recalls_are_bounded()
    ensures { MOST_RECALLED ≡ most_recalled }
{}

/// The constant is the number of the definitions.
pub fn names_are_bounded()
    ensures { MOST_NAME ≡ most_name }
{}
