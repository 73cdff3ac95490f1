//! What crates above cite of a machine. No function here does anything: its contract is the law.

ghost use Rattle.hub_machine.specs.Laws.{ConnectionsAreFound, ConnectionsAreNumbered, MovesComeFirst};

/// Connections are numbered from 1, and none has a greater number than the greatest.
pub fn connections_are_numbered()
    ensures { ConnectionsAreNumbered }
{}

/// Among the connections that are there the only one that passes a test is found, and none where none passes.
pub fn connections_are_found()
    ensures { ConnectionsAreFound }
{}

/// What a connection does next comes before what it did, the latest first.
pub fn moves_come_first()
    ensures { MovesComeFirst }
{}
