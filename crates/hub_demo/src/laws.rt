//! What each call does, by the hub whose method it is. No function here does anything: its contract is the law.

ghost use Rattle.hub_demo.specs.Laws.{CalculationsAreServed, RoomsAreServed};

/// A call whose target names a room's method does turn by turn what it does at the rooms hub.
pub fn rooms_are_served()
    ensures { RoomsAreServed }
{}

/// Every other call does turn by turn what it does at the calculator, which refuses what it doesn't know.
pub fn calculations_are_served()
    ensures { CalculationsAreServed }
{}
