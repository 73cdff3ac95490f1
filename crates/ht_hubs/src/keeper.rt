//! Keepers: one in memory, and one in a database in memory.

use crate::report::push_text;
use crate::words::text;
use hk_keeper::{KeepError, Keeper, MemoryKeeper, ask_all};
use hk_sqlite::{SqlKeeper, SqlOpenError};
use ht_kit::{Stop, count_of_32_bits, first_word, numbers};
use hv_value::{Text, Texts};
use sqlite::{Connection, MemStore};
use std::alloc::Global;

/// A keeper with the users and failing calls that the words say.
pub fn start(alloc: Global, words: &str) -> Result<MemoryKeeper, Stop> {
    let (users, failing) = first_word(words);
    let failing = numbers(alloc, failing)?;
    Ok(MemoryKeeper::start(alloc, users_of(alloc, users)?, failing)?)
}

fn users_of(alloc: Global, words: &str) -> Result<Vec<(Text, Text)>, Stop> {
    let mut users = Vec::new(alloc);
    if words != "-" {
        for word in words.split(',') {
            let (token, name) = word.split_once(':').ok_or(Stop::Refused)?;
            users.push((text(alloc, token)?, text(alloc, name)?))?;
        }
    }
    Ok(users)
}

/// A keeper in a database without users and rows.
pub fn start_in_database(alloc: Global) -> Result<SqlKeeper<MemStore>, Stop> {
    let connection = Connection::open_in_memory(alloc)?;
    SqlKeeper::open(connection).map_err(stop_of_opening)
}

/// What the keeper answers to the words.
pub fn ask<K: Keeper>(alloc: Global, keeper: &mut K, words: &str) -> Result<String, Stop> {
    let (word, rest) = first_word(words);
    match word {
        "log" => log(alloc, keeper, rest),
        "history" => history(alloc, keeper, rest),
        "user" => user(alloc, keeper, rest),
        "add" => add(alloc, keeper, rest),
        "rows" => rows(alloc, keeper),
        "each" => each(alloc, keeper, rest),
        _ => Err(Stop::Refused),
    }
}

fn log<K: Keeper>(alloc: Global, keeper: &mut K, words: &str) -> Result<String, Stop> {
    let (room, rest) = first_word(words);
    let (who, said) = first_word(rest);
    let (room, who, said) = (text(alloc, room)?, text(alloc, who)?, text(alloc, said)?);
    keeper.log(alloc, &room, &who, &said).map_err(stop_of)?;
    Ok(String::from_str(alloc, "kept")?)
}

fn history<K: Keeper>(alloc: Global, keeper: &mut K, words: &str) -> Result<String, Stop> {
    let (room, most) = first_word(words);
    let (room, most) = (text(alloc, room)?, count_of_32_bits(most)?);
    let texts = keeper.history(alloc, &room, most).map_err(stop_of)?;
    told(alloc, &texts)
}

fn told(alloc: Global, texts: &Texts) -> Result<String, Stop> {
    let mut told = String::from_str(alloc, "texts")?;
    for text in texts.texts() {
        push_text(&mut told, " ", text)?;
    }
    Ok(told)
}

fn user<K: Keeper>(alloc: Global, keeper: &mut K, token: &str) -> Result<String, Stop> {
    let token = text(alloc, token)?;
    let Some(name) = keeper.user_of(alloc, &token).map_err(stop_of)? else {
        return Ok(String::from_str(alloc, "nobody")?);
    };
    let mut told = String::new(alloc);
    push_text(&mut told, "user ", &name)?;
    Ok(told)
}

fn add<K: Keeper>(alloc: Global, keeper: &mut K, words: &str) -> Result<String, Stop> {
    let (token, name) = first_word(words);
    let (token, name) = (text(alloc, token)?, text(alloc, name)?);
    let is_new = keeper.add_user(alloc, &token, &name).map_err(stop_of)?;
    let answer = if is_new { "new" } else { "known" };
    Ok(String::from_str(alloc, answer)?)
}

fn rows<K: Keeper>(alloc: Global, keeper: &mut K) -> Result<String, Stop> {
    let rows = keeper.rows().map_err(stop_of)?;
    Ok(format!(in alloc; "{rows} rows")?)
}

/// Whether a copy was asked the same.
pub fn copy(alloc: Global, keeper: &MemoryKeeper) -> Result<String, Stop> {
    let copy = keeper.copy()?;
    let asked = keeper.was_asked().len();
    let same = if copy.was_asked() == keeper.was_asked() {
        "the same"
    } else {
        "not the same"
    };
    Ok(format!(in alloc; "{asked} calls, and {same} of a copy")?)
}

fn each<K: Keeper>(alloc: Global, keeper: &mut K, words: &str) -> Result<String, Stop> {
    let (token, rest) = first_word(words);
    let (name, rest) = first_word(rest);
    let (room, said) = first_word(rest);
    let user = (text(alloc, token)?, text(alloc, name)?);
    let row = (text(alloc, room)?, text(alloc, said)?);
    let texts = ask_all(keeper, alloc, &user, &row).map_err(stop_of)?;
    told(alloc, &texts)
}

fn stop_of_opening(error: SqlOpenError) -> Stop {
    match error {
        SqlOpenError::Store => Stop::Failed,
        SqlOpenError::NoMemory => Stop::NoMemory,
    }
}

fn stop_of(error: KeepError) -> Stop {
    match error {
        KeepError::Failed => Stop::Failed,
        KeepError::NoMemory => Stop::NoMemory,
    }
}
