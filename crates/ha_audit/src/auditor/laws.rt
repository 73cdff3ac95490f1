//! What holds of a world that is kept. No function here does anything: its contract is the law.

ghost use Rattle.ha_audit.specs.AuditLaws.{KeptIsKnown};

use hd_delivery::{facts_hold, worlds_are_histories};
use hd_trace::told_is_world;
use he_wire::{wire_is_faithful, wire_is_sound};

/// A world that is kept is what lines tell, over readers that are sound, and faithful to what is sent in it.
pub(crate) fn kept_is_known()
    ensures { KeptIsKnown }
{
    told_is_world();
    worlds_are_histories();
    facts_hold();
    wire_is_sound();
    wire_is_faithful();
}
