//! The rows that are held, by room. A room without rows isn't kept.

ghost use Rattle.std.specs.Prelude.{◌≡◌, ◌<◌, ℕ, List, [], length, drop, map, IfOk, OnOk, OnErr};
ghost use Rattle.std.specs.Bool.{OnTrue, OnFalse};
ghost use Rattle.hd_rooms.specs.Kept.{last_few};
ghost use Rattle.hk_latest.specs.Rooms.{NoneIsEmpty, SameRows, Added, Begun, Dropped, said};

use crate::shared_row::SharedRow;
use hd_rooms::Row;
use hv_value::{Text, Texts};
use std::alloc::{AllocError, Global};
use std::collections::{BTreeMap, LinkedList};

/// From a room to its rows, oldest first.
///
/// They are a list with a block for each row, because a block for all of them would stay as large as the room once was, while it had
/// a single row left; and so the memory of many rooms would grow past that of the rows held.
#[derive(Drop)]
pub(crate) struct Rooms {
    by_room: BTreeMap<Text, LinkedList<SharedRow>>,
    ghost none_is_empty: { NoneIsEmpty by_room },
}

impl Rooms {
    /// No rows.
    pub(crate) fn new(alloc: Global) -> Rooms
        ensures { (room : List ℕ) → said result.by_room room ≡ [] }
    {
        Rooms {
            by_room: BTreeMap::new(alloc),
        }
    }

    /// The texts of the room's last rows, `most` of them at most, oldest first. It looks at these rows alone.
    pub(crate) fn last_texts(
        &self,
        alloc: Global,
        room: &Text,
        most: u32,
    ) -> Result<Texts, AllocError>
        ensures { IfOk result
            (λ texts. texts ≡ last_few most (map (λ row. row.text) (said self.now.by_room room.now))) }
    {
        match self.by_room.get(room) {
            Some(rows) => last_texts(alloc, rows, most as usize),
            None => Ok(Texts::of(Vec::new(alloc))),
        }
    }

    /// Puts the row last in its room.
    pub(crate) fn add(&mut self, alloc: Global, row: SharedRow) -> Result<(), AllocError>
        ensures added { OnOk result (Added self.old.by_room self.new.by_room row) }
        ensures unchanged { OnErr result (SameRows self.old.by_room self.new.by_room) }
    {
        if let Some(rows) = self.by_room.get_mut(&row.row().room) {
            rows.push_back(row)?;
            return Ok(());
        }
        self.begin(alloc, row)?;
        Ok(())
    }

    /// Puts the row alone into its room.
    fn begin(&mut self, alloc: Global, row: SharedRow) -> Result<(), AllocError>
        ensures begun { OnOk result (Begun self.old.by_room self.new.by_room row) }
        ensures unchanged { OnErr result (SameRows self.old.by_room self.new.by_room) }
    {
        let room = row.row().room.copy()?;
        let mut rows = LinkedList::new(alloc);
        rows.push_back(row)?;
        self.by_room.insert(room, rows)?;
        Ok(())
    }

    /// Takes the first row out of this one's room, and the room out if that was its last.
    pub(crate) fn drop_first(&mut self, row: &Row)
        ensures { Dropped self.old.by_room self.new.by_room row.now }
    {
        let Some(rows) = self.by_room.get_mut(&row.room) else {
            return;
        };
        if take_first(rows) {
            self.by_room.remove(&row.room);
        }
    }
}

/// Takes the first row out. Whether none is left.
fn take_first(rows: &mut LinkedList<SharedRow>) -> bool
    ensures rest { rows.new ≡ drop 1 rows.old }
    ensures empty { OnTrue result (rows.new ≡ []) }
    ensures more { OnFalse result (0 < length rows.new) }
{
    rows.pop_front();
    rows.is_empty()
}

/// The texts of the last rows, `most` of them at most, oldest first.
fn last_texts(alloc: Global, rows: &LinkedList<SharedRow>, most: usize) -> Result<Texts, AllocError>
    ensures { IfOk result (λ texts. texts ≡ last_few most (map (λ row. row.text) rows.now)) }
{
    let count = most.min(rows.len());
    let mut texts = Vec::with_capacity(alloc, count)?;
    let mut before = rows.iter();
    for _i in 0..count {
        let row = before.next_back().unwrap();
        texts.push(row.row().text.copy()?)?;
    }
    texts.reverse();
    Ok(Texts::of(texts))
}
