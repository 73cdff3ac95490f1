//! That what is refused is told in the words of its reason. No function here does anything: its contract is the law.

ghost use Rattle.sr_lines.specs.Laws.{AsksAreTold, FaultsAreTold, RefusalsAreTold};

/// Why an end doesn't send a message is told in the words of the reason that the rules of sending give.
pub fn refusals_are_told()
    ensures { RefusalsAreTold }
{}

/// Why a peer makes no call, uploads nothing or cancels nothing is told in the words of the reason that its rules give: there is one, unless
/// memory ran out.
pub fn asks_are_told()
    ensures { AsksAreTold }
{}

/// By what an end was closed is told in the words of its fault.
pub fn faults_are_told()
    ensures { FaultsAreTold }
{}
