//! What an accepted edit tells.

use retro_base::{Change, Row};

/// What an accepted insert tells.
#[derive(Clone, Copy)]
pub struct Put {
    /// The number that the row has drawn.
    pub number: u32,
    /// What has changed in the present.
    pub change: Change,
}

/// A list edit that was made.
#[derive(Clone, Copy, PartialEq, Eq)]
pub struct Turn {
    /// Whether the row was put in; else it was taken out.
    pub added: bool,
    /// Where it was put in, or where it stood.
    pub place: u32,
    /// The row.
    pub row: Row,
    /// What has changed in the present.
    pub change: Change,
}

/// What an accepted step tells, or its undo or redo: the list edits that were made, in order.
#[derive(Clone, Copy, PartialEq, Eq)]
pub enum Turns {
    /// That of a step of one list edit, an insert or a delete.
    Single { turn: Turn },
    /// Those of a shift, which is of two.
    Double { first: Turn, second: Turn },
}
