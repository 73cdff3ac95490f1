//! What the clauses of the trait tell its caller. It has nothing else.

ghost use Rattle.std.specs.Prelude.{◌≡◌, ◌∷◌, [], IfOk, IfSome};
ghost use Rattle.hk_keeper.specs.Known.{AreAnswered, IsKnown};

use crate::keeper::{KeepError, Keeper};
use hd_rooms::answers_join;
use hv_value::{Text, Texts};
use std::alloc::Global;

/// Makes each call once, up to the first that isn't Ok, for the sake of its contract: for any keeper that tells what it keeps, a caller
/// knows the users and rows after any calls, that each answer is the one on what was kept before it, and which calls failed. It answers
/// the last text of the room, which is the one that was just said there.
pub fn ask_all<K: Keeper>(
    keeper: &mut K,
    alloc: Global,
    user: &(Text, Text),
    said: &(Text, Text),
) -> Result<Texts, KeepError>
    ensures known { IsKnown (K.holds keeper.old) (K.holds keeper.new) (K.answers keeper.old) (K.answers keeper.new)
        (K.faults keeper.old) (K.faults keeper.new) }
    ensures answered { IfOk result
        (λ texts. AreAnswered user.now said.now texts (K.answers keeper.old) (K.answers keeper.new)) }
    ensures last { IfOk result
        (λ texts. IfSome (K.holds keeper.old) (λ kept. texts ≡ said.now.1 ∷ [])) }
{
    answers_join();
    let (token, name) = user;
    let (room, text) = said;
    let _is_new = keeper.add_user(alloc, token, name)?;
    let _known = keeper.user_of(alloc, token)?;
    keeper.log(alloc, room, name, text)?;
    let _count = keeper.rows()?;
    let texts = keeper.history(alloc, room, 1)?;
    Ok(texts)
}
