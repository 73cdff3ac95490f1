//! The keeper: the trait's calls, each by one statement, and the count of its faults.

ghost use Rattle.std.specs.Prelude.{◌≡◌, IfOk, IfErr, IfSome, OnOk, OnErr, option_map, is_none, is_some, if◌then◌else◌};
ghost use Rattle.sqlite.specs.Held.{state};
ghost use Rattle.hd_rooms.specs.declared.vocabulary.Asked.TheVariants.{User, Rows, Log, History, AddUser};
ghost use Rattle.hd_rooms.specs.Kept.{name_of, row_count, recalled, with_row, with_user};
ghost use Rattle.hk_keeper.specs.Calls.{HasFaultCause, IsCaused, IsNoted};
ghost use Rattle.hk_sqlite.specs.declared.opening.SqlOpenError.TheVariants.{Store};
ghost use Rattle.hk_sqlite.specs.Stored.{Answers, Leaves, Takes, as_before, counted, unnoted, untold};
ghost use Rattle.hk_sqlite.specs.Faults.{CountsFaults, IsRefused, IsWhy, faults_at};

use crate::faults::why;
use crate::opening::{SqlOpenError, prepare};
use crate::statements;
use hk_keeper::{KeepError, Keeper};
use hv_value::{Text, Texts};
use sqlite::{Alter, Connection, Error};
use std::alloc::Global;

/// A keeper of users and rows in the two tables `users` and `posts` of a database. In the trait it tells nothing, since others may write
/// the database between its calls; the clauses `answer` and `left` of each call say what it does where nobody else does.
///
/// Each call is one statement, which is committed as the call ends: over a file that is one sync for `log` and for a user that is added.
/// `history` looks at the rows that it answers, if the index was made; `rows` counts all of them.
#[derive(Drop)]
pub struct SqlKeeper<S: Alter> {
    connection: Connection<S>,
    faults: u64,
}

impl<S: Alter + Drop> SqlKeeper<S> {
    /// Makes the two tables where they are absent, and then the index on a room's posts, unless that is refused.
    pub fn open(mut connection: Connection<S>) -> Result<SqlKeeper<S>, SqlOpenError>
        ensures ok { IfOk result (λ keeper. Takes (state S.Store connection) (state S.Store keeper.connection)) }
        ensures faultless { IfOk result (λ keeper. keeper.faults ≡ 0) }
        ensures refused { IfErr result (λ why. why ≡ Store → IsRefused S.Store connection) }
    {
        prepare(&mut connection)?;
        Ok(SqlKeeper {
            connection,
            faults: 0,
        })
    }

    /// The connection, with all that was kept, so that it can be closed as its store is.
    pub fn close(self) -> Connection<S>
        ensures { result ≡ self.connection }
    {
        let SqlKeeper {
            connection,
            faults: _,
        } = self;
        connection
    }
}

impl<S: Alter> SqlKeeper<S> {
    /// Counts a fault, unless memory is out.
    fn fail(&mut self, error: Error) -> KeepError
        ensures why { IsWhy error result }
        ensures counted { self.new.faults ≡ faults_at result self.old.faults }
        ensures same { self.new.connection ≡ self.old.connection }
        ensures cause { IsCaused self.old.faults self.new.faults result }
    {
        let why = why(error);
        if why == KeepError::Failed {
            self.faults = self.faults.saturating_add(1);
        }
        why
    }
}

impl<S: Alter> Keeper for SqlKeeper<S> {
    ghost holds = { λ _. untold };

    ghost answers = { λ _. unnoted };

    ghost faults = { λ k. k.faults };

    /// The name of the user with this access token, or `None` if there is none.
    fn user_of(&mut self, alloc: Global, token: &Text) -> Result<Option<Text>, KeepError>
        ensures first { IfOk result (λ name. IfSome untold (λ kept. name ≡ name_of token.now kept.users)) }
        ensures unchanged { untold ≡ untold }
        ensures noted { IsNoted unnoted unnoted (User token.now) result }
        ensures cause { HasFaultCause self.old.faults self.new.faults result }
        ensures answer { Answers (state S.Store self.old.connection) (state S.Store self.new.connection) result
            (λ kept name. name ≡ name_of token.now kept.users) }
        ensures left { Leaves (state S.Store self.old.connection) (state S.Store self.new.connection) result as_before }
        ensures counted { CountsFaults self.old.faults self.new.faults result }
    {
        match statements::name_with(&mut self.connection, alloc, token.as_str()) {
            Ok(name) => Ok(name),
            Err(error) => Err(self.fail(error)),
        }
    }

    /// How many rows there are, and 2^63 - 1 if there are more.
    fn rows(&mut self) -> Result<u64, KeepError>
        ensures count { IfOk result (λ count. IfSome untold (λ kept. count ≡ row_count kept.rows)) }
        ensures unchanged { untold ≡ untold }
        ensures noted { IsNoted unnoted unnoted Rows result }
        ensures cause { HasFaultCause self.old.faults self.new.faults result }
        ensures answer { Answers (state S.Store self.old.connection) (state S.Store self.new.connection) result
            (λ kept count. count ≡ counted kept.rows) }
        ensures left { Leaves (state S.Store self.old.connection) (state S.Store self.new.connection) result as_before }
        ensures counted { CountsFaults self.old.faults self.new.faults result }
    {
        match statements::count_rows(&mut self.connection) {
            Ok(count) => Ok(count),
            Err(error) => Err(self.fail(error)),
        }
    }

    /// Adds a row, which is the last: `who` said `text` in `room`. It is committed.
    fn log(&mut self, alloc: Global, room: &Text, who: &Text, text: &Text) -> Result<(), KeepError>
        ensures added { OnOk result (untold ≡ option_map (with_row room.now who.now text.now) untold) }
        ensures unchanged { OnErr result (untold ≡ untold) }
        ensures noted { IsNoted unnoted unnoted
            (λ done. Log room.now who.now text.now (is_some done)) result }
        ensures cause { HasFaultCause self.old.faults self.new.faults result }
        ensures left { Leaves (state S.Store self.old.connection) (state S.Store self.new.connection) result
            (λ kept _. with_row room.now who.now text.now kept) }
        ensures counted { CountsFaults self.old.faults self.new.faults result }
    {
        match statements::add_row(
            &mut self.connection,
            room.as_str(),
            who.as_str(),
            text.as_str(),
        ) {
            Ok(_) => Ok(()),
            Err(error) => Err(self.fail(error)),
        }
    }

    /// The texts of the room's last rows, oldest first: `most` of them, or all if there are fewer.
    fn history(&mut self, alloc: Global, room: &Text, most: u32) -> Result<Texts, KeepError>
        ensures last { IfOk result
            (λ texts. IfSome untold (λ kept. texts ≡ recalled room.now most kept.rows)) }
        ensures unchanged { untold ≡ untold }
        ensures noted { IsNoted unnoted unnoted (History room.now most) result }
        ensures cause { HasFaultCause self.old.faults self.new.faults result }
        ensures answer { Answers (state S.Store self.old.connection) (state S.Store self.new.connection) result
            (λ kept texts. texts ≡ recalled room.now most kept.rows) }
        ensures left { Leaves (state S.Store self.old.connection) (state S.Store self.new.connection) result as_before }
        ensures counted { CountsFaults self.old.faults self.new.faults result }
    {
        match statements::last_texts(&mut self.connection, alloc, room.as_str(), most) {
            Ok(texts) => Ok(texts),
            Err(error) => Err(self.fail(error)),
        }
    }

    /// Adds a user, who is the last, if no user has this access token. It answers whether it did, and then it is committed.
    fn add_user(&mut self, alloc: Global, token: &Text, name: &Text) -> Result<bool, KeepError>
        ensures is_new { IfOk result
            (λ new. IfSome untold (λ kept. new ≡ is_none (name_of token.now kept.users))) }
        ensures added { IfOk result
            (λ new. untold ≡ (if new then option_map (with_user token.now name.now) untold else untold)) }
        ensures unchanged { OnErr result (untold ≡ untold) }
        ensures noted { IsNoted unnoted unnoted (AddUser token.now name.now) result }
        ensures cause { HasFaultCause self.old.faults self.new.faults result }
        ensures answer { Answers (state S.Store self.old.connection) (state S.Store self.new.connection) result
            (λ kept is_new. is_new ≡ is_none (name_of token.now kept.users)) }
        ensures left { Leaves (state S.Store self.old.connection) (state S.Store self.new.connection) result
            (λ kept is_new. if is_new then with_user token.now name.now kept else kept) }
        ensures counted { CountsFaults self.old.faults self.new.faults result }
    {
        match statements::add_user(&mut self.connection, token.as_str(), name.as_str()) {
            Ok(is_new) => Ok(is_new),
            Err(error) => Err(self.fail(error)),
        }
    }
}
