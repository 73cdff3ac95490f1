//! A row with several owners, so that it stands once in memory.

ghost use Rattle.std.specs.Prelude.{◌≡◌, ◌<◌, ◌^◌, IfOk};
ghost use Rattle.hk_latest.specs.Latest.{weight};

use hd_rooms::Row;
use std::alloc::{AllocError, Global};
use std::marker::Model;
use std::rc::Rc;

/// A row. Owners made by `share` have the same one in memory.
#[derive(Drop)]
pub(crate) struct SharedRow {
    row: Rc<Row>,
}

impl Model for SharedRow {
    ghost use Rattle.hd_rooms.specs.declared.vocabulary.Row.{Row};

    ghost Value = { Row };

    ghost view = { λ shared. shared.row.value };
}

impl SharedRow {
    pub(crate) fn of(alloc: Global, row: Row) -> Result<SharedRow, AllocError>
        ensures { IfOk result (λ shared. shared ≡ row) }
    {
        Ok(SharedRow {
            row: Rc::new(alloc, row)?,
        })
    }

    /// The row itself.
    pub(crate) fn row(&self) -> &Row
        ensures { result.now ≡ self.now }
    {
        self.row.as_ref()
    }

    /// Another owner of the same row, of which nothing is copied. It fails if there are as many owners as can be counted.
    pub(crate) fn share(&self) -> Result<SharedRow, AllocError>
        ensures { IfOk result (λ shared. shared ≡ self.now) }
    {
        Ok(SharedRow {
            row: self.row.clone()?,
        })
    }

    /// The bytes of its room, name and text. The sum of three lengths may take more than 64 bits.
    pub(crate) fn weight(&self) -> u128
        ensures value { result ≡ weight self.now }
        ensures bounded { result < 2 ^ 66 }
    {
        let row = self.row();
        row.room.as_str().len() as u128
            + row.who.as_str().len() as u128
            + row.text.as_str().len() as u128
    }
}
