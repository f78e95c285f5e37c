//! Rows of a timeline, entries of a priority queue, and what an edit changes.

ghost use Rattle.std.specs.Prelude.{◌≡◌};
ghost use Rattle.retro_base.specs.State.{comes_before};
ghost use Rattle.retro_base.specs.Weights.{added_by};

use crate::Op;

/// One line of a history: an operation, when it was performed, and the number by which edits name it.
#[derive(Clone, Copy, Debug, PartialEq, Eq)]
pub struct Row {
    /// From 1 to `MAX_NEXT` - 1.
    pub number: u32,
    /// When it is performed, in the user's own unit.
    pub time: u64,
    /// What the row does.
    pub op: Op,
}

impl Row {
    /// The entry that the row adds to a priority queue, where it adds one.
    pub fn added_entry(self) -> Option<Entry>
        ensures { result ≡ added_by self }
    {
        match self.op {
            Op::Ins { key } => Some(Entry {
                key,
                number: self.number,
            }),
            _ => None,
        }
    }
}

/// An entry of a priority queue: a key, and the number of the row that added it. Entries are ordered
/// by key, then by number.
#[derive(Clone, Copy, Debug, PartialEq, Eq, PartialOrd, Ord)]
pub struct Entry {
    pub key: i64,
    pub number: u32,
}

impl Entry {
    /// Whether this entry is taken before another one: it is the lesser.
    pub fn comes_before(self, other: Entry) -> bool
        ensures { result ≡ comes_before self other }
    {
        self < other
    }
}

/// What an accepted edit did to the present of a priority queue. Of the other kinds it is `Plain`.
#[derive(Clone, Copy, Debug, PartialEq, Eq)]
pub enum Change {
    Plain,
    /// The present has gained this entry.
    Gain { bridge: u32, entry: Entry },
    /// The present has lost this entry.
    Lose { bridge: Option<u32>, entry: Entry },
}
