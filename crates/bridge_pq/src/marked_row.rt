//! A row with the mark of its entry.

use crate::row_measure::RowMeasure;
use monoid_laws::Measured;
use retro_base::PackedRow;

/// A row, and whether the entry that it adds survives.
#[derive(Clone, Copy)]
pub(crate) struct MarkedRow {
    pub(crate) row: PackedRow,
    pub(crate) survives: bool,
}

impl Measured for MarkedRow {
    ghost use Rattle.bridge_pq.specs.MarkedRows.{row_measure, row_measure-items};

    type Measure = RowMeasure;

    ghost measured = { row_measure };

    ghost single = { row_measure-items };

    fn measure(&self) -> RowMeasure {
        match self.row.added_entry() {
            None => RowMeasure::taking(),
            Some(entry) if self.survives => RowMeasure::surviving(entry),
            Some(entry) => RowMeasure::dying(entry),
        }
    }
}
