//! What crates above cite of the definitions. No function here does anything: its contract is the law.

ghost use Rattle.hi_calls.specs.Laws.{CallsAreMade, IdsAreOfASide, LedgersAreLegal, NoticesPass};

/// A call that is begun is one that a peer makes which draws its ids in this way.
pub fn calls_are_made()
    ensures { CallsAreMade }
{}

/// The ids that a client or a server draws are a prefix and a number.
pub fn ids_are_of_a_side()
    ensures { IdsAreOfASide }
{}

/// Whatever a table stands for, each call comes first and once in its ledger, and nothing follows its ending or loss; nothing follows the
/// ending of an upload.
pub fn ledgers_are_legal()
    ensures { LedgersAreLegal }
{}

/// A Notify without uploads may be made without this table, which stands for it all the same.
pub fn notices_pass()
    ensures { NoticesPass }
{}
