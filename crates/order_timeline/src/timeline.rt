//! The type and its calls.

ghost use Rattle.std.specs.Prelude.{◌≡◌, ◌-◌, ◌<◌, ◌≤◌, [], ◌++◌, min, take, drop, length, slice_get, Some, IfSome, OnOk, OnErr};
ghost use Rattle.std.specs.List.{insert, remove};
ghost use Rattle.retro_base.specs.Limits.{most_rows};
ghost use Rattle.retro_base.specs.Order.{Fits};
ghost use Rattle.retro_base.specs.Places.{place_of_row, place_of_time};
ghost use Rattle.retro_base.specs.Timeline.{IsFresh};
ghost use Rattle.order_timeline.specs.Rows.{IsOrdered};

use crate::edit::{insert_row, remove_row};
use crate::find::{place_of, read_from, rows_up_to};
use crate::indexed_rows::IndexedRows;
use retro_base::{NoMemory, Row};
use std::alloc::Global;
use std::marker::Model;
use weighted_tree::uncounted;

/// Rows in order of time, each with a number of its own.
#[derive(Drop)]
pub struct Timeline {
    kept: IndexedRows,
}

impl Model for Timeline {
    ghost use Rattle.std.specs.Prelude.{List};
    ghost use Rattle.retro_base.specs.declared.row.Row.{Row};
    ghost use Rattle.order_timeline.specs.IndexedRows.{KeepsRows};

    ghost Value = { List Row };

    ghost view = { λ timeline. timeline.kept.rows };

    ghost invariant = { λ timeline. KeepsRows timeline.kept };
}

impl Timeline {
    /// A timeline without rows.
    pub fn new(alloc: Global) -> Timeline
        ensures { result ≡ [] }
    {
        Timeline {
            kept: IndexedRows::new(alloc),
        }
    }

    /// How many rows there are.
    pub fn len(&self) -> u32
        ensures length { result ≡ length self.now }
        ensures ordered { IsOrdered self.now }
    {
        self.kept.rows.len()
    }

    /// The row at a place.
    pub fn row_at(&self, place: u32) -> Row
        requires { place < length self.now }
        ensures { slice_get self.now place ≡ Some result }
    {
        uncounted::get(&self.kept.rows, place).value().row()
    }

    /// Copies the rows from a place on into a slice, as many as fit or are there, and gives their number.
    pub fn read_rows(&self, from: u32, rows: &mut [Row]) -> u32
        requires { from ≤ length self.now }
        ensures count { result ≡ min (length self.now - from) (length rows.old) }
        ensures rows { rows.new ≡ take result (drop from self.now) ++ drop result rows.old }
    {
        read_from(&self.kept.rows, from, rows)
    }

    /// The place of a time: how many rows stand up to it.
    pub fn place_at(&self, time: u64) -> u32
        ensures place { result ≡ place_of_time time self.now }
        ensures within { result ≤ length self.now }
        ensures fits { Fits self.now result time }
    {
        rows_up_to(&self.kept.rows, time)
    }

    /// The place of the row with this number, where there is one.
    pub fn place_of(&self, number: u32) -> Option<u32>
        ensures place { result ≡ place_of_row number self.now }
        ensures within { IfSome result (λ place. place < length self.now) }
        ensures few { length self.now ≤ most_rows }
    {
        place_of(&self.kept, number)
    }

    /// Puts a row in at a place where its time fits. After `NoMemory` all is as before.
    pub fn insert(&mut self, place: u32, row: Row) -> Result<(), NoMemory>
        requires within { place ≤ length self.old }
        requires room { length self.old < most_rows }
        requires fresh { IsFresh row.number self.old }
        requires fits { Fits self.old place row.time }
        ensures ok { OnOk result (self.new ≡ insert self.old place row) }
        ensures err { OnErr result (self.new ≡ self.old) }
    {
        insert_row(&mut self.kept, place, row)
    }

    /// Takes the row at a place out, and gives it back.
    pub fn remove(&mut self, place: u32) -> Row
        requires { place < length self.old }
        ensures row { slice_get self.old place ≡ Some result }
        ensures rows { self.new ≡ remove self.old place }
    {
        remove_row(&mut self.kept, place)
    }
}
