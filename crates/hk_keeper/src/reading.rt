//! What is read off users and rows, which stand in the order in which they were added.

ghost use Rattle.std.specs.Prelude.{◌≡◌, ℕ, ◌-◌, length, drop, IfOk, is_none};
ghost use Rattle.std.specs.List.{list_any};
ghost use Rattle.hd_rooms.specs.Kept.{has_token, name_of, recalled, texts_of_room};

use hd_rooms::Row;
use hv_value::{Text, Texts};
use std::alloc::{AllocError, Global};

/// A copy of the name of the first user with this access token, if there is one.
pub fn name_with(users: &[(Text, Text)], token: &Text) -> Result<Option<Text>, AllocError>
    ensures { IfOk result (λ name. name ≡ name_of token.now users.now) }
{
    match users.iter().find(|user| user.0 == *token) {
        Some(user) => Ok(Some(user.1.copy()?)),
        None => Ok(None),
    }
}

fn has_user(users: &[(Text, Text)], token: &Text) -> bool
    ensures { result ≡ list_any (has_token token.now) users.now }
{
    users.iter().any(|user| user.0 == *token)
}

/// Whether no user has this access token.
pub fn is_unknown(users: &[(Text, Text)], token: &Text) -> bool
    ensures { result ≡ is_none (name_of token.now users.now) }
{
    !has_user(users, token)
}

/// How many rows are the room's.
fn count_of(rows: &[Row], room: &Text) -> usize
    ensures { result ≡ length (texts_of_room room.now rows.now) }
{
    rows.iter().filter(|row| row.room == *room).count()
}

/// The texts of the room's rows but for the first `skipped` of them, oldest first.
fn texts_past(
    alloc: Global,
    rows: &[Row],
    room: &Text,
    skipped: usize,
) -> Result<Vec<Text>, AllocError>
    ensures { IfOk result (λ texts. texts.items ≡ drop skipped (texts_of_room room.now rows.now)) }
{
    let mut texts = Vec::new(alloc);
    let mut passed = 0;
    for row in rows {
        if row.room != *room {
            continue;
        }
        if passed < skipped {
            passed += 1;
            continue;
        }
        texts.push(row.text.copy()?)?;
    }
    Ok(texts)
}

/// The texts of the room's last rows, `most` of them at most, oldest first.
pub fn last_texts(alloc: Global, rows: &[Row], room: &Text, most: u32) -> Result<Texts, AllocError>
    ensures { IfOk result (λ texts. texts ≡ recalled room.now most rows.now) }
{
    let count = count_of(rows, room);
    let texts = texts_past(alloc, rows, room, count.saturating_sub(most as usize))?;
    Ok(Texts::of(texts))
}
