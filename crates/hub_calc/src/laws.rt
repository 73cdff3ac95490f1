//! What whole runs of the jobs are, for whoever calls. No function here does anything: its contract is the law.

ghost use Rattle.hub_calc.specs.Laws.{AddAdds, AddStopsAtItsRange, AskAsks, AsksNothing, AsksOnlyForAsk, ConfirmGivesBack, CountCounts, EchoGivesBack, FailFails, HandsUpNothing, OthersEnd, SlowWaits, SumAddsUp, SumStopsAtItsRange, SumTakesWholeNumbers, UnknownIsRefused, WrongArgumentsAreRefused, WrongKindIsRefused};
ghost use Rattle.hub_calc.specs.Client.{client_hub};
ghost use Rattle.hub_calc.specs.Table.{calc_hub};

use hm_message::values_are_trees;

/// What the calculator's methods do for right arguments, from the first turn to the ending.
pub fn methods_do_their_work()
    ensures echo { EchoGivesBack }
    ensures add { AddAdds }
    ensures add_range { AddStopsAtItsRange }
    ensures count { CountCounts }
    ensures slow { SlowWaits }
    ensures fail { FailFails }
    ensures ask { AskAsks }
{
    values_are_trees();
}

/// What `Sum` does with what is uploaded.
pub fn sums_add_up()
    ensures sum { SumAddsUp }
    ensures range { SumStopsAtItsRange }
    ensures whole { SumTakesWholeNumbers }
{}

/// Which calls the calculator refuses: the target is tested first, then the kind, then the uploads and arguments.
pub fn refusals_have_an_order()
    ensures unknown { UnknownIsRefused }
    ensures kind { WrongKindIsRefused }
    ensures arguments { WrongArgumentsAreRefused }
{}

/// How a client answers its server.
pub fn clients_answer()
    ensures confirm { ConfirmGivesBack }
    ensures others { OthersEnd }
{
    values_are_trees();
}

/// Neither hub hands up a deed, whatever is called and whatever its job is given.
pub fn nothing_is_handed_up()
    ensures calculator { HandsUpNothing calc_hub }
    ensures client { HandsUpNothing client_hub }
{}

/// Only a call of the calculator's `Ask` asks. A client asks its server for nothing.
pub fn only_ask_asks()
    ensures calculator { AsksOnlyForAsk calc_hub }
    ensures client { AsksNothing client_hub }
{}
