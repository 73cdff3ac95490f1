//! The statements of a keeper, each on the two tables that `opening` makes. After an error the tables are as before, unless the disk
//! has shut the connection, as it does if it can't be trusted any more.

ghost use Rattle.std.specs.Prelude.{◌≡◌, map, option_map, slice_get, is_none, IfOk, if◌then◌else◌};
ghost use Rattle.sqlite.specs.Order.{column, bytes};
ghost use Rattle.sqlite.specs.Held.{state};
ghost use Rattle.hd_rooms.specs.Kept.{name_of, recalled, with_row, with_user};
ghost use Rattle.hk_sqlite.specs.Stored.{Answers, Leaves, as_before, counted};

use hv_value::{Text, Texts};
use sqlite::{Alter, Connection, Error, Row, params};
use std::alloc::Global;

/// The text in the first column.
fn text_of(alloc: Global, row: &Row) -> Result<Text, Error>
    ensures { IfOk result (λ text. text ≡ bytes (column row.now 0)) }
{
    let text = row.get::<String>(0)?;
    Ok(Text::of(alloc, text.as_str())?)
}

/// The text in the first column of the first row, if there is a row.
fn first_text(alloc: Global, rows: &[Row]) -> Result<Option<Text>, Error>
    ensures { IfOk result (λ text. text ≡ option_map (λ row. bytes (column row 0)) (slice_get rows.now 0)) }
{
    match rows.first() {
        Some(row) => Ok(Some(text_of(alloc, row)?)),
        None => Ok(None),
    }
}

/// The text in the first column of each row.
fn texts_of(alloc: Global, rows: &[Row]) -> Result<Vec<Text>, Error>
    ensures { IfOk result (λ texts. texts.items ≡ map (λ row. bytes (column row 0)) rows.now) }
{
    let mut texts = Vec::with_capacity(alloc, rows.len())?;
    for row in rows {
        texts.push(text_of(alloc, row)?)?;
    }
    Ok(texts)
}

/// The name of the user with this access token, if there is one.
pub(crate) fn name_with<S: Alter>(
    connection: &mut Connection<S>,
    alloc: Global,
    token: &str,
) -> Result<Option<Text>, Error>
    ensures first { Answers (state S.Store connection.old) (state S.Store connection.new) result
        (λ kept name. name ≡ name_of token.now kept.users) }
    ensures left { Leaves (state S.Store connection.old) (state S.Store connection.new) result as_before }
{
    let rows = connection.query_all("SELECT name FROM users WHERE token = ?1", params![token])?;
    first_text(alloc, &rows)
}

/// How many rows there are, and 2^63 - 1 if there are more.
pub(crate) fn count_rows<S: Alter>(connection: &mut Connection<S>) -> Result<u64, Error>
    ensures count { Answers (state S.Store connection.old) (state S.Store connection.new) result
        (λ kept count. count ≡ counted kept.rows) }
    ensures left { Leaves (state S.Store connection.old) (state S.Store connection.new) result as_before }
{
    let row = connection.query_row("SELECT count(*) FROM posts", &[])?;
    row.get::<u64>(0)
}

/// Adds a row, which is the last: `who` said `text` in `room`.
pub(crate) fn add_row<S: Alter>(
    connection: &mut Connection<S>,
    room: &str,
    who: &str,
    text: &str,
) -> Result<usize, Error>
    ensures { Leaves (state S.Store connection.old) (state S.Store connection.new) result
        (λ kept _. with_row room.now who.now text.now kept) }
{
    connection.execute(
        "INSERT INTO posts(room, who, body) VALUES (?1, ?2, ?3)",
        params![room, who, text],
    )
}

/// The texts of the room's last rows, oldest first: `most` of them, or all if there are fewer.
pub(crate) fn last_texts<S: Alter>(
    connection: &mut Connection<S>,
    alloc: Global,
    room: &str,
    most: u32,
) -> Result<Texts, Error>
    ensures last { Answers (state S.Store connection.old) (state S.Store connection.new) result
        (λ kept texts. texts ≡ recalled room.now most kept.rows) }
    ensures left { Leaves (state S.Store connection.old) (state S.Store connection.new) result as_before }
{
    let rows = connection.query_all(
        "SELECT body FROM posts WHERE room = ?1 ORDER BY n DESC LIMIT ?2",
        params![room, most],
    )?;
    let mut texts = texts_of(alloc, &rows)?;
    texts.reverse();
    Ok(Texts::of(texts))
}

/// Adds a user, who is the last, if no user has this access token. It answers whether it did.
pub(crate) fn add_user<S: Alter>(
    connection: &mut Connection<S>,
    token: &str,
    name: &str,
) -> Result<bool, Error>
    ensures is_new { Answers (state S.Store connection.old) (state S.Store connection.new) result
        (λ kept is_new. is_new ≡ is_none (name_of token.now kept.users)) }
    ensures left { Leaves (state S.Store connection.old) (state S.Store connection.new) result
        (λ kept is_new. if is_new then with_user token.now name.now kept else kept) }
{
    let count = connection.execute(
        "INSERT INTO users(token, name) VALUES (?1, ?2) ON CONFLICT DO NOTHING",
        params![token, name],
    )?;
    Ok(count > 0)
}
