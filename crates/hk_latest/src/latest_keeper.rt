//! The keeper: the rows held in the order in which they were logged, and by room.

ghost use Rattle.std.specs.Prelude.{◌≡◌, ◌<◌, List, [], ◌∷◌, ◌++◌, length, drop, Ok, Err, None, IfOk, IfErr, IfSome, OnOk, OnErr, option_map, is_none, is_some, if◌then◌else◌};
ghost use Rattle.hd_rooms.specs.declared.vocabulary.Row.{Row};
ghost use Rattle.hd_rooms.specs.declared.vocabulary.Asked.TheVariants.{User, Rows, Log, History, AddUser};
ghost use Rattle.hd_rooms.specs.Kept.{name_of, row_count, recalled, with_row, with_user};
ghost use Rattle.hk_keeper.specs.Calls.{HasFaultCause, IsNoted};
ghost use Rattle.hk_keeper.specs.declared.keeper.KeepError.TheVariants.{NoMemory};
ghost use Rattle.hk_latest.specs.Latest.{Fits, HoldsLatest, LatestContent, after_log, fits, latest, unnoted, untold, weight_of};
ghost use Rattle.hk_latest.specs.Rooms.{IsIndex};

use crate::rooms::Rooms;
use crate::shared_row::SharedRow;
use hd_rooms::Row;
use hk_keeper::{KeepError, Keeper};
use hv_value::{Text, Texts};
use std::alloc::{AllocError, Global};
use std::collections::VecDeque;
use std::marker::Model;

/// The most rows that are held.
pub const MOST_ROWS: usize = 65_536;

/// The most bytes that the rows held have in their rooms, names and texts together.
pub const MOST_ROW_BYTES: u128 = 16_777_216;

/// A keeper in memory of the latest rows. It knows nobody, as it is for a server that gives no access tokens.
///
/// A row stands once in memory, and its room's name once more while the room has rows. Each call takes the same time whatever is
/// held, but for finding a room among the others; `log` beside that for each row that it drops, and `history` for each text that
/// it answers.
#[derive(Drop)]
pub struct LatestKeeper {
    logged: u64,
    // of the rows held
    bytes: u128,
    rows: VecDeque<SharedRow>,
    rooms: Rooms,
}

impl Model for LatestKeeper {
    ghost use Rattle.hk_latest.specs.Latest.{LatestContent, Fits};
    ghost use Rattle.hk_latest.specs.Rooms.{IsIndex};

    ghost Value = { LatestContent };

    ghost view = { λ k. record { logged = k.logged; rows = k.rows.items } };

    ghost invariant = { λ k. Fits k.rows.items × IsIndex k.rooms.by_room k.rows.items k.bytes };
}

/// Whether so many rows of so many bytes may be held.
fn may_be_held(count: usize, bytes: u128) -> bool
    ensures { (rows : List Row) → count ≡ length rows → bytes ≡ weight_of rows → result ≡ fits rows }
{
    count <= MOST_ROWS && bytes <= MOST_ROW_BYTES
}

/// Drops the first row, of which there is one. The answer is how many bytes are left.
fn drop_first(rows: &mut VecDeque<SharedRow>, rooms: &mut Rooms, bytes: u128) -> u128
    requires some { 0 < length rows.old.items }
    requires index { IsIndex rooms.old.by_room rows.old.items bytes }
    ensures rest { rows.new.items ≡ drop 1 rows.old.items }
    ensures index { IsIndex rooms.new.by_room rows.new.items result }
{
    let row = rows.pop_front().unwrap();
    rooms.drop_first(row.row());
    bytes - row.weight()
}

/// Drops the first rows until the others may be held. The answer is how many bytes are left.
fn trim(rows: &mut VecDeque<SharedRow>, rooms: &mut Rooms, bytes: u128) -> u128
    requires { IsIndex rooms.old.by_room rows.old.items bytes }
    ensures latest { rows.new.items ≡ latest rows.old.items }
    ensures index { IsIndex rooms.new.by_room rows.new.items result }
{
    let mut left = bytes;
    while !may_be_held(rows.len(), left) {
        left = drop_first(rows, rooms, left);
    }
    left
}

/// Copies of what a row has.
fn row_of(alloc: Global, room: &Text, who: &Text, text: &Text) -> Result<SharedRow, AllocError>
    ensures { IfOk result (λ row. row ≡ record { room = room.now; who = who.now; text = text.now }) }
{
    let row = Row {
        room: room.copy()?,
        who: who.copy()?,
        text: text.copy()?,
    };
    SharedRow::of(alloc, row)
}

impl LatestKeeper {
    /// A keeper before any row was logged. It takes no memory yet.
    pub fn start(alloc: Global) -> LatestKeeper
        ensures begun { result ≡ record { logged = 0; rows = [] } }
        ensures latest { HoldsLatest [] result }
    {
        LatestKeeper {
            logged: 0,
            bytes: 0,
            rows: VecDeque::new(alloc),
            rooms: Rooms::new(alloc),
        }
    }

    /// It does nothing: its contract says that the two bounds are kept.
    pub(crate) fn shows_its_bounds(&self)
        ensures { Fits self.now.rows }
    {
        let _ = &self.logged;
    }

    /// Adds a row, and drops the first ones if they are too many.
    fn hold(&mut self, alloc: Global, row: SharedRow) -> Result<(), AllocError>
        ensures ok { OnOk result (self.new ≡ after_log row self.old) }
        ensures err { OnErr result (self.new ≡ self.old) }
    {
        let shared = row.share()?;
        let weight = row.weight();
        self.rows.reserve(1)?;
        self.rooms.add(alloc, shared)?;
        self.rows.push_back_reserved(row);
        self.bytes = trim(&mut self.rows, &mut self.rooms, self.bytes + weight);
        self.logged = self.logged.saturating_add(1);
        Ok(())
    }
}

impl Keeper for LatestKeeper {
    ghost holds = { λ _. untold };

    ghost answers = { λ _. unnoted };

    ghost faults = { λ _. 0 };

    /// It knows nobody.
    fn user_of(&mut self, alloc: Global, token: &Text) -> Result<Option<Text>, KeepError>
        ensures first { IfOk result
            (λ name. IfSome untold (λ kept. name ≡ name_of token.now kept.users)) }
        ensures unchanged { untold ≡ untold }
        ensures noted { IsNoted unnoted unnoted (User token.now) result }
        ensures cause { HasFaultCause 0 0 result }
        ensures nobody { result ≡ Ok None }
        ensures same { self.new ≡ self.old }
    {
        Ok(None)
    }

    /// How many rows were logged, held or not, and 2^64 - 1 if they are more. It never fails.
    fn rows(&mut self) -> Result<u64, KeepError>
        ensures count { IfOk result
            (λ count. IfSome untold (λ kept. count ≡ row_count kept.rows)) }
        ensures unchanged { untold ≡ untold }
        ensures noted { IsNoted unnoted unnoted Rows result }
        ensures cause { HasFaultCause 0 0 result }
        ensures logged { result ≡ Ok self.old.logged }
        ensures all { IfOk result
            (λ count. (all : List Row) → HoldsLatest all self.old → count ≡ row_count all) }
        ensures same { self.new ≡ self.old }
    {
        Ok(self.logged)
    }

    /// It fails only for want of memory.
    fn log(&mut self, alloc: Global, room: &Text, who: &Text, text: &Text) -> Result<(), KeepError>
        ensures added { OnOk result (untold ≡ option_map (with_row room.now who.now text.now) untold) }
        ensures unchanged { OnErr result (untold ≡ untold) }
        ensures noted { IsNoted unnoted unnoted
            (λ done. Log room.now who.now text.now (is_some done)) result }
        ensures cause { HasFaultCause 0 0 result }
        ensures held { OnOk result
            (self.new ≡ after_log (record { room = room.now; who = who.now; text = text.now }) self.old) }
        ensures latest { OnOk result ((all : List Row) → HoldsLatest all self.old →
            HoldsLatest (all ++ record { room = room.now; who = who.now; text = text.now } ∷ []) self.new) }
        ensures same { OnErr result (self.new ≡ self.old) }
        ensures memory { IfErr result (λ why. why ≡ NoMemory) }
    {
        let row = row_of(alloc, room, who, text)?;
        self.hold(alloc, row)?;
        Ok(())
    }

    /// It fails only for want of memory.
    fn history(&mut self, alloc: Global, room: &Text, most: u32) -> Result<Texts, KeepError>
        ensures last { IfOk result
            (λ texts. IfSome untold (λ kept. texts ≡ recalled room.now most kept.rows)) }
        ensures unchanged { untold ≡ untold }
        ensures noted { IsNoted unnoted unnoted (History room.now most) result }
        ensures cause { HasFaultCause 0 0 result }
        ensures held { IfOk result (λ texts. texts ≡ recalled room.now most self.old.rows) }
        ensures same { self.new ≡ self.old }
        ensures memory { IfErr result (λ why. why ≡ NoMemory) }
    {
        Ok(self.rooms.last_texts(alloc, room, most)?)
    }

    /// There is no memory for users: nobody is added.
    fn add_user(&mut self, alloc: Global, token: &Text, name: &Text) -> Result<bool, KeepError>
        ensures is_new { IfOk result
            (λ new. IfSome untold (λ kept. new ≡ is_none (name_of token.now kept.users))) }
        ensures added { IfOk result
            (λ new. untold ≡ (if new then option_map (with_user token.now name.now) untold else untold)) }
        ensures unchanged { OnErr result (untold ≡ untold) }
        ensures noted { IsNoted unnoted unnoted (AddUser token.now name.now) result }
        ensures cause { HasFaultCause 0 0 result }
        ensures nobody { result ≡ Err NoMemory }
        ensures same { self.new ≡ self.old }
    {
        Err(KeepError::NoMemory)
    }
}
