//! Copies of what a keeper holds. Each is Ok unless out of memory.

ghost use Rattle.std.specs.Prelude.{◌≡◌, IfOk};

use hd_rooms::{Asked, Row};
use hv_value::{Text, Texts};
use std::alloc::{AllocError, Global};

/// A copy of a text, if there is one.
pub fn copy_text(text: &Option<Text>) -> Result<Option<Text>, AllocError>
    ensures { IfOk result (λ t. t ≡ text.now) }
{
    match text {
        Some(text) => Ok(Some(text.copy()?)),
        None => Ok(None),
    }
}

fn copy_name(name: &Option<Option<Text>>) -> Result<Option<Option<Text>>, AllocError>
    ensures { IfOk result (λ n. n ≡ name.now) }
{
    match name {
        Some(name) => Ok(Some(copy_text(name)?)),
        None => Ok(None),
    }
}

fn copy_texts(texts: &Option<Texts>) -> Result<Option<Texts>, AllocError>
    ensures { IfOk result (λ t. t ≡ texts.now) }
{
    match texts {
        Some(texts) => Ok(Some(texts.copy()?)),
        None => Ok(None),
    }
}

fn copy_row(row: &Row) -> Result<Row, AllocError>
    ensures { IfOk result (λ r. r ≡ row.now) }
{
    Ok(Row {
        room: row.room.copy()?,
        who: row.who.copy()?,
        text: row.text.copy()?,
    })
}

fn copy_ask(ask: &Asked) -> Result<Asked, AllocError>
    ensures { IfOk result (λ a. a ≡ ask.now) }
{
    match ask {
        Asked::User { token, name } => Ok(Asked::User {
            token: token.copy()?,
            name: copy_name(name)?,
        }),
        Asked::Rows { count } => Ok(Asked::Rows { count: *count }),
        Asked::Log {
            room,
            who,
            text,
            is_resumable,
        } => Ok(Asked::Log {
            room: room.copy()?,
            who: who.copy()?,
            text: text.copy()?,
            is_resumable: *is_resumable,
        }),
        Asked::History { room, most, texts } => Ok(Asked::History {
            room: room.copy()?,
            most: *most,
            texts: copy_texts(texts)?,
        }),
        Asked::AddUser {
            token,
            name,
            is_new,
        } => Ok(Asked::AddUser {
            token: token.copy()?,
            name: name.copy()?,
            is_new: *is_new,
        }),
    }
}

pub fn copy_users(alloc: Global, users: &[(Text, Text)]) -> Result<Vec<(Text, Text)>, AllocError>
    ensures { IfOk result (λ v. v.items ≡ users.now) }
{
    let mut copies = Vec::with_capacity(alloc, users.len())?;
    for (token, name) in users {
        copies.push((token.copy()?, name.copy()?))?;
    }
    Ok(copies)
}

pub fn copy_rows(alloc: Global, rows: &[Row]) -> Result<Vec<Row>, AllocError>
    ensures { IfOk result (λ v. v.items ≡ rows.now) }
{
    let mut copies = Vec::with_capacity(alloc, rows.len())?;
    for row in rows {
        copies.push(copy_row(row)?)?;
    }
    Ok(copies)
}

pub fn copy_asks(alloc: Global, asks: &[Asked]) -> Result<Vec<Asked>, AllocError>
    ensures { IfOk result (λ v. v.items ≡ asks.now) }
{
    let mut copies = Vec::with_capacity(alloc, asks.len())?;
    for ask in asks {
        copies.push(copy_ask(ask)?)?;
    }
    Ok(copies)
}
