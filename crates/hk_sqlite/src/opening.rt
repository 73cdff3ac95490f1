//! The tables of a keeper, and what is made where they are absent.

ghost use Rattle.std.specs.Prelude.{◌≡◌, ◌≤◌, IfErr, OnOk};
ghost use Rattle.sqlite.specs.Held.{state};
ghost use Rattle.sqlite_trees.specs.View.{doubt};
ghost use Rattle.hk_sqlite.specs.declared.opening.SqlOpenError.TheVariants.{Store};
ghost use Rattle.hk_sqlite.specs.Stored.{IsReady, KeepsTables, Takes};
ghost use Rattle.hk_sqlite.specs.Faults.{IsRefused, RefusesTables, open_why};

use crate::faults::why;
use hk_keeper::KeepError;
use sqlite::{Alter, Connection, Error};
use thiserror::Error as ThisError;

/// Why a keeper was not opened.
#[derive(Clone, Copy, Debug, Drop, PartialEq, Eq, ThisError)]
pub enum SqlOpenError {
    /// `sqlite` refused a statement that makes one of the two tables.
    #[error("the store failed")]
    Store,
    #[error("out of memory")]
    NoMemory,
}

fn open_error(why: KeepError) -> SqlOpenError
    ensures { result ≡ open_why why }
{
    match why {
        KeepError::Failed => SqlOpenError::Store,
        KeepError::NoMemory => SqlOpenError::NoMemory,
    }
}

/// Makes the two tables where they are absent.
fn make_tables<S: Alter>(connection: &mut Connection<S>) -> Result<usize, Error>
    ensures ok { OnOk result (IsReady (state S.Store connection.old) (state S.Store connection.new)) }
    ensures refused { IfErr result (RefusesTables S.Store connection.old connection.new) }
{
    let users = connection.execute(
        "CREATE TABLE IF NOT EXISTS users(token TEXT PRIMARY KEY NOT NULL, name TEXT NOT NULL) STRICT",
        &[],
    );
    match users {
        Ok(_) => connection.execute(
            "CREATE TABLE IF NOT EXISTS posts(n INTEGER PRIMARY KEY AUTOINCREMENT, room TEXT NOT NULL, who TEXT NOT NULL, body TEXT NOT NULL) STRICT",
            &[],
        ),
        Err(error) => Err(error),
    }
}

/// Makes the index on a room's posts where it is absent: without it `history` looks at the posts of all rooms.
fn make_index<S: Alter>(connection: &mut Connection<S>) -> Result<usize, Error>
    ensures left { KeepsTables (state S.Store connection.old) (state S.Store connection.new) }
    ensures clean { doubt (state S.Store connection.old).is_clean ≤ doubt (state S.Store connection.new).is_clean }
{
    connection.execute(
        "CREATE INDEX IF NOT EXISTS posts_by_room ON posts(room, n)",
        &[],
    )
}

/// Makes the tables and the index where they are absent. The index may be refused, as it is over another table `posts`: answers are the
/// same without it.
pub(crate) fn prepare<S: Alter>(connection: &mut Connection<S>) -> Result<(), SqlOpenError>
    ensures ok { OnOk result (Takes (state S.Store connection.old) (state S.Store connection.new)) }
    ensures refused { IfErr result (λ why. why ≡ Store → IsRefused S.Store connection.old) }
{
    if let Err(error) = make_tables(connection) {
        return Err(open_error(why(error)));
    }
    match make_index(connection) {
        Err(error) if why(error) == KeepError::NoMemory => Err(SqlOpenError::NoMemory),
        _ => Ok(()),
    }
}
