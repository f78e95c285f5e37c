//! A row with the mark of its entry.

ghost use Rattle.std.specs.Prelude.{◌≡◌};
ghost use Rattle.retro_base.specs.Bridges.{same_entry};
ghost use Rattle.retro_base.specs.Weights.{added_as};
ghost use Rattle.evidence_check.specs.Marks.{alive_entry, dead_entry, entry_of};
ghost use Rattle.evidence_check.specs.Sums.{weight_of};

use retro_base::{Entry, Op};

/// A row of a priority queue, with a mark.
#[derive(Clone, Copy)]
pub(crate) struct WeighedRow {
    pub(crate) number: u32,
    pub(crate) op: Op,
    /// Whether the row adds an entry that survives.
    pub(crate) alive: bool,
}

impl WeighedRow {
    /// The entry that the row adds, if it adds one.
    pub(crate) fn entry(self) -> Option<Entry>
        ensures { result ≡ entry_of self }
    {
        added_entry(self.op, self.number)
    }

    /// The entry that the row adds, if it adds one that survives.
    pub(crate) fn alive_entry(self) -> Option<Entry>
        ensures { result ≡ alive_entry self }
    {
        if self.alive { self.entry() } else { None }
    }

    /// The entry that the row adds, if it adds one that is dead.
    pub(crate) fn dead_entry(self) -> Option<Entry>
        ensures { result ≡ dead_entry self }
    {
        if self.alive { None } else { self.entry() }
    }

    /// Its weight: 1 where its entry is dead, 0 where it survives, and -1 where it takes one.
    pub(crate) fn weight(self) -> i32
        ensures { result ≡ weight_of self }
    {
        match self.entry() {
            None => -1,
            Some(_) if self.alive => 0,
            Some(_) => 1,
        }
    }
}

/// The entry that an operation adds in a row of this number, if it adds one.
pub(crate) fn added_entry(op: Op, number: u32) -> Option<Entry>
    ensures { result ≡ added_as op number }
{
    match op {
        Op::Ins { key } => Some(Entry { key, number }),
        _ => None,
    }
}

/// Whether two entries are one.
pub(crate) fn is_same(entry: Entry, other: Entry) -> bool
    ensures { result ≡ same_entry entry other }
{
    entry.key == other.key && entry.number == other.number
}
