//! Laws of what a keeper keeps and answers. No function here does anything: its contract is the law.

ghost use Rattle.hd_rooms.specs.KeptLaws.{AnswersAdd, AnswersJoin};

/// What two lists of answers lead to one after the other, their concatenation leads to, and so it is of the faults.
pub fn answers_join()
    ensures { AnswersJoin }
{}

/// Whatever a keeper is asked, it holds what it held before and, after that, exactly what was logged and added, in order.
pub fn answers_add()
    ensures { AnswersAdd }
{}
