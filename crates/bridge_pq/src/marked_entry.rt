//! An entry with its mark.

use crate::entry_measure::EntryMeasure;
use monoid_laws::Measured;
use retro_base::Entry;

/// An entry, and whether it is in the present.
#[derive(Clone, Copy)]
pub(crate) struct MarkedEntry {
    pub(crate) entry: Entry,
    pub(crate) present: bool,
}

impl Measured for MarkedEntry {
    ghost use Rattle.bridge_pq.specs.MarkedEntries.{entry_measure, entry_measure-items};

    type Measure = EntryMeasure;

    ghost measured = { entry_measure };

    ghost single = { entry_measure-items };

    fn measure(&self) -> EntryMeasure {
        EntryMeasure::single(self.present)
    }
}
