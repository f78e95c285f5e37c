//! A row that comes into a tree of rows, or goes.

ghost use Rattle.std.specs.Prelude.{◌≡◌, ◌+◌, ◌≤◌};
ghost use Rattle.retro_base.specs.Limits.{most_rows};
ghost use Rattle.retro_base.specs.Weights.{added_by};
ghost use Rattle.pq_fusion.specs.RowEdits.{count_after, gains_by, is_first, past};

use retro_base::Row;

/// Whether a row is put in or taken out.
#[derive(Clone, Copy)]
pub(crate) enum Way {
    Put,
    Cut,
}

/// A row that is put in at a place, or the one there that is taken out.
#[derive(Clone, Copy)]
pub(crate) struct RowEdit {
    pub(crate) way: Way,
    pub(crate) place: u32,
    pub(crate) row: Row,
}

impl RowEdit {
    /// Whether the rows leave an entry more after it, and not one less.
    pub(crate) fn gains(self) -> bool
        ensures { result ≡ gains_by self.way (added_by self.row) }
    {
        let adds = self.row.added_entry().is_some();
        match self.way {
            Way::Put => adds,
            Way::Cut => !adds,
        }
    }

    /// Whether it is made in the earlier of two sides, which has so many rows. Where the sides meet a row is put into the earlier.
    pub(crate) fn is_first(self, earlier: u32) -> bool
        ensures { result ≡ is_first self.way self.place earlier }
    {
        match self.way {
            Way::Put => self.place <= earlier,
            Way::Cut => self.place < earlier,
        }
    }

    /// The edit as it is seen behind so many rows.
    pub(crate) fn past(self, rows: u32) -> RowEdit
        requires { rows ≤ self.place }
        ensures { result ≡ past self rows }
    {
        RowEdit {
            place: self.place - rows,
            ..self
        }
    }

    /// How many rows so many are after it.
    pub(crate) fn count_after(self, rows: u32) -> u32
        requires { rows ≤ most_rows }
        ensures count { result ≡ count_after self.way rows }
        ensures most { result ≤ rows + 1 }
        ensures least { rows ≤ result + 1 }
    {
        match self.way {
            Way::Put => rows + 1,
            Way::Cut => rows.saturating_sub(1),
        }
    }
}
