//! What a keeper is: the one trait, and why a call of it fails.

ghost use Rattle.std.specs.Prelude.{◌≡◌, ℕ, List, Option, IfOk, OnOk, OnErr, IfSome, option_map, is_none, is_some, if◌then◌else◌};
ghost use Rattle.hd_rooms.specs.declared.vocabulary.Asked.{Asked as Answered};
ghost use Rattle.hd_rooms.specs.declared.vocabulary.Asked.TheVariants.{User, Rows, Log, History, AddUser};
ghost use Rattle.hd_rooms.specs.Kept.{Content, name_of, row_count, recalled, with_row, with_user};
ghost use Rattle.hk_keeper.specs.Calls.{HasFaultCause, IsNoted};
ghost use Rattle.hk_keeper.specs.declared.keeper.KeepError.TheVariants.{NoMemory};

use hv_value::{Text, Texts};
use std::alloc::{AllocError, AllocFailed, Global};
use thiserror::Error;

/// Why a keeper did not do what it was asked. Its users and rows are as before.
#[derive(Clone, Copy, Debug, Drop, PartialEq, Eq, Error)]
pub enum KeepError {
    /// The store failed in this call, and the count of faults rose.
    #[error("the store failed")]
    Failed,
    #[error("out of memory")]
    NoMemory,
}

impl From<AllocError> for KeepError {
    ghost from_gives = { λ _ e. e ≡ NoMemory };

    fn from(_e: AllocError) -> KeepError {
        KeepError::NoMemory
    }
}

impl<T: Drop> From<AllocFailed<T>> for KeepError {
    ghost from_gives = { λ _ e. e ≡ NoMemory };

    fn from(_e: AllocFailed<T>) -> KeepError {
        KeepError::NoMemory
    }
}

/// What keeps users, by their access tokens, and rows, each a text that was said in a room.
///
/// An implementation tells by `holds` what it keeps, and by `answers` what it was asked and what it answered, in order; each is
/// `None` if nobody can know it, as of a file that others write. It tells by `faults` how often it has failed. That count never falls.
/// It holds 64 bits and stays at 2^64 - 1, and a further failure there counts as a rise.
///
/// In each call, `cause` says that it fails only if the count rose in it, and `noted` that it stands last among what was asked. After
/// an error users and rows are as before. Out of memory the count and what was asked are as before too, as if the call wasn't made.
pub trait Keeper {
    ghost holds: { Self → Option Content };

    ghost answers: { Self → Option (List Answered) };

    ghost faults: { Self → ℕ };

    /// The name of the first user with this access token, or `None` if there is none.
    fn user_of(&mut self, alloc: Global, token: &Text) -> Result<Option<Text>, KeepError>
        ensures first { IfOk result
            (λ name. IfSome (holds self.old) (λ kept. name ≡ name_of token.now kept.users)) }
        ensures unchanged { holds self.new ≡ holds self.old }
        ensures noted { IsNoted (answers self.old) (answers self.new) (User token.now) result }
        ensures cause { HasFaultCause (faults self.old) (faults self.new) result };

    /// How many rows there are, and 2^64 - 1 if there are more.
    fn rows(&mut self) -> Result<u64, KeepError>
        ensures count { IfOk result
            (λ count. IfSome (holds self.old) (λ kept. count ≡ row_count kept.rows)) }
        ensures unchanged { holds self.new ≡ holds self.old }
        ensures noted { IsNoted (answers self.old) (answers self.new) Rows result }
        ensures cause { HasFaultCause (faults self.old) (faults self.new) result };

    /// Adds a row, which is the last: `who` said `text` in `room`.
    fn log(&mut self, alloc: Global, room: &Text, who: &Text, text: &Text) -> Result<(), KeepError>
        ensures added { OnOk result
            (holds self.new ≡ option_map (with_row room.now who.now text.now) (holds self.old)) }
        ensures unchanged { OnErr result (holds self.new ≡ holds self.old) }
        ensures noted { IsNoted (answers self.old) (answers self.new)
            (λ done. Log room.now who.now text.now (is_some done)) result }
        ensures cause { HasFaultCause (faults self.old) (faults self.new) result };

    /// The texts of the room's last rows, oldest first: `most` of them, or all if there are fewer.
    fn history(&mut self, alloc: Global, room: &Text, most: u32) -> Result<Texts, KeepError>
        ensures last { IfOk result
            (λ texts. IfSome (holds self.old) (λ kept. texts ≡ recalled room.now most kept.rows)) }
        ensures unchanged { holds self.new ≡ holds self.old }
        ensures noted { IsNoted (answers self.old) (answers self.new) (History room.now most) result }
        ensures cause { HasFaultCause (faults self.old) (faults self.new) result };

    /// Adds a user, who is the last, if no user has this access token. It answers whether it did.
    fn add_user(&mut self, alloc: Global, token: &Text, name: &Text) -> Result<bool, KeepError>
        ensures is_new { IfOk result
            (λ new. IfSome (holds self.old) (λ kept. new ≡ is_none (name_of token.now kept.users))) }
        ensures added { IfOk result
            (λ new. holds self.new ≡ (if new then option_map (with_user token.now name.now) (holds self.old)
            else holds self.old)) }
        ensures unchanged { OnErr result (holds self.new ≡ holds self.old) }
        ensures noted { IsNoted (answers self.old) (answers self.new) (AddUser token.now name.now) result }
        ensures cause { HasFaultCause (faults self.old) (faults self.new) result };
}
