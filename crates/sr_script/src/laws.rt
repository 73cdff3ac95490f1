//! What holds of scripts. No function here does anything: its contract is the law.

ghost use Rattle.sr_script.specs.Laws.{FrontsKeepLines, LinesAreCut, LongIsRefusedByItsFront, LongIsRefusedByItsFrontWithoutPeers, ScriptsAreInTurn, ScriptsAreSettled, ScriptsSuit, SettingsComeFirst};

/// Each action of a script may come after those before it.
pub fn scripts_are_in_turn()
    ensures { ScriptsAreInTurn }
{}

/// Each action of a script suits its options: calls go where there are peers, and messages are sent where there are none.
pub fn scripts_suit()
    ensures { ScriptsSuit }
{}

/// A script begins its ends in a version that there is, within limits that an end may have.
pub fn scripts_are_settled()
    ensures { ScriptsAreSettled }
{}

/// The options that stand before the first action of a script are all its options.
pub fn settings_come_first()
    ensures { SettingsComeFirst }
{}

/// A text of more bytes than a script may have is refused at the line at which its front is.
pub fn long_is_refused_by_its_front()
    ensures { LongIsRefusedByItsFront }
{}

/// So it is as a script without peers.
pub fn long_is_refused_by_its_front_without_peers()
    ensures { LongIsRefusedByItsFrontWithoutPeers }
{}

/// A text is its first line, up to the end that [`line_end`](crate::line_end) finds, and the lines of what comes after that.
pub fn lines_are_cut()
    ensures { LinesAreCut }
{}

/// The lines that end within the front of a text are the same whatever comes after that front, and there are no fewer with more bytes.
pub fn fronts_keep_lines()
    ensures { FrontsKeepLines }
{}
