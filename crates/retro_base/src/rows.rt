//! A list of rows.

ghost use Rattle.std.specs.Prelude.{◌≡◌, ◌^◌, ◌<◌, [], ◌∷◌, ◌++◌, length, slice_get, Some, IfOk, OnOk, OnErr, MatchOption};

use crate::{NoMemory, Row};
use std::alloc::Global;
use std::marker::Model;

/// Rows of a timeline, the earliest first, which contracts see as their list.
#[derive(Debug, Drop)]
pub struct Rows {
    rows: Vec<Row>,
}

impl Model for Rows {
    ghost use Rattle.std.specs.Prelude.{List, ◌<◌, ◌^◌, length};
    ghost use Rattle.retro_base.specs.declared.row.Row.{Row};

    ghost Value = { List Row };

    ghost view = { λ rows. rows.rows.items };

    ghost invariant = { λ rows. length rows.rows.items < 2 ^ 32 };
}

impl Rows {
    /// No rows.
    pub fn new(alloc: Global) -> Rows
        ensures { result ≡ [] }
    {
        Rows {
            rows: Vec::new(alloc),
        }
    }

    /// A copy of these rows.
    pub fn of(alloc: Global, rows: &[Row]) -> Result<Rows, NoMemory>
        requires { length rows.now < 2 ^ 32 }
        ensures { IfOk result (λ copied. copied ≡ rows.now) }
    {
        let mut copied = Vec::new(alloc);
        copied.extend_from_slice(rows)?;
        Ok(Rows { rows: copied })
    }

    /// Appends a row. Without memory for it the rows stay as they were.
    pub fn push(&mut self, row: Row) -> Result<(), NoMemory>
        requires { length self.old < 4294967295 }
        ensures ok { OnOk result (self.new ≡ self.old ++ row ∷ []) }
        ensures err { OnErr result (self.new ≡ self.old) }
    {
        self.rows.push(row)?;
        Ok(())
    }

    /// Takes the last row off, if there is one.
    pub fn pop(&mut self) -> Option<Row>
        ensures { MatchOption result ((self.old ≡ []) × (self.new ≡ [])) (λ row. self.old ≡ self.new ++ row ∷ []) }
    {
        self.rows.pop()
    }

    /// How many rows there are.
    pub fn len(&self) -> u32
        ensures { result ≡ length self.now }
    {
        self.rows.len() as u32
    }

    /// The row at this index.
    pub fn row(&self, index: u32) -> Row
        requires { index < length self.now }
        ensures { slice_get self.now index ≡ Some result }
    {
        self.rows[index as usize]
    }

    /// All of them.
    pub fn as_slice(&self) -> &[Row]
        ensures { result.now ≡ self.now }
    {
        self.rows.as_slice()
    }
}
