//! What holds of scripts. No function here does anything: its contract is the law.

ghost use Rattle.sr_client.specs.Grammar.{LongIsRefusedByItsFront};

/// A text of more bytes than a client's script may have is refused at the line at which its front is, whatever comes after that.
pub fn long_scripts_are_refused_by_their_front()
    ensures { LongIsRefusedByItsFront }
{
    sr_script::fronts_keep_lines();
}
