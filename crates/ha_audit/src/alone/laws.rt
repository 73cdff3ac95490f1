//! What holds of a history that is kept. No function here does anything: its contract is the law.

ghost use Rattle.ha_audit.specs.AloneKeeps.{KeptAloneIsKnown};

use hd_delivery::facts_hold;
use hd_trace::told_is_history;
use he_wire::wire_is_sound;

/// A history that is kept is what lines tell, over readers that are sound.
pub(crate) fn kept_alone_is_known()
    ensures { KeptAloneIsKnown }
{
    told_is_history();
    facts_hold();
    wire_is_sound();
}
