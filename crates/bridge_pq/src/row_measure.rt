//! What a range of rows measures.

ghost use Rattle.std.specs.Prelude.{◌≡◌, ◌+◌, ◌-◌, ◌^◌, ◌<◌, pos, negsuc, List, Option, Some, None};
ghost use Rattle.std.specs.Ordering.{flip_args};
ghost use Rattle.monoid_laws.specs.Extreme.{extreme_of, one_element, IsGreatestOffset};
ghost use Rattle.retro_base.specs.declared.row.Entry.{Entry};
ghost use Rattle.bridge_pq.specs.EntryOrder.{entry_order};
ghost use Rattle.bridge_pq.specs.Dips.{one_dip, place_in, lower};

use crate::extreme::ExtremeEntry;
use monoid_laws::Monoid;
use retro_base::Entry;
use std::marker::Model;

/// What a range of rows measures: the walk of their weights with its first lowest point, the greatest dead
/// entry and the least survivor that they add.
#[derive(Clone, Copy)]
pub(crate) struct RowMeasure {
    rows: u32,
    falls: u32,
    rises: u32,
    lowest: u32,
    dead: ExtremeEntry,
    alive: ExtremeEntry,
}

// Clauses see three measures side by side, a walk and two extremes; here they share one number of rows.
impl Model for RowMeasure {
    ghost use Rattle.monoid_laws.specs.Extreme.{Extreme, IsOffsetWithin};
    ghost use Rattle.retro_base.specs.declared.row.Entry.{Entry};
    ghost use Rattle.bridge_pq.specs.Dips.{Dip, IsDip, falls_in, place_in, low_of};
    ghost use Rattle.bridge_pq.specs.DipLaws.{falls_back, place_back};

    ghost Value = { Dip × (Extreme Entry × Extreme Entry) };

    ghost view = { λ m. (record { items = m.rows; rises = m.rises; low = low_of m.falls m.lowest }, (record { items = m.rows; first = m.dead }, record { items = m.rows; first = m.alive })) };

    ghost inverse = { λ v. record { rows = v.0.items; falls = falls_in v.0.low; rises = v.0.rises; lowest = place_in v.0.low; dead = v.1.0.first; alive = v.1.1.first } };

    ghost inverse_ok = { λ m h i. record { rows = m.rows; falls = falls_back m.falls m.lowest i; rises = m.rises; lowest = place_back m.falls m.lowest h.0.2 i; dead = m.dead; alive = m.alive } };

    ghost invariant = { λ m. IsDip m.rows m.falls m.rises m.lowest × IsOffsetWithin m.rows m.dead × IsOffsetWithin m.rows m.alive };
}

impl RowMeasure {
    /// The value of a row that takes.
    pub(crate) fn taking() -> RowMeasure
        ensures { result ≡ (one_dip (negsuc 0), (one_element None, one_element None)) }
    {
        RowMeasure {
            rows: 1,
            falls: 1,
            rises: 0,
            lowest: 1,
            dead: ExtremeEntry::none(),
            alive: ExtremeEntry::none(),
        }
    }

    /// The value of a row that adds an entry that survives.
    pub(crate) fn surviving(entry: Entry) -> RowMeasure
        ensures { result ≡ (one_dip (pos 0), (one_element None, one_element (Some entry))) }
    {
        RowMeasure {
            rows: 1,
            falls: 0,
            rises: 0,
            lowest: 0,
            dead: ExtremeEntry::none(),
            alive: ExtremeEntry::at_start(entry),
        }
    }

    /// The value of a row that adds an entry that is dead.
    pub(crate) fn dying(entry: Entry) -> RowMeasure
        ensures { result ≡ (one_dip (pos 1), (one_element (Some entry), one_element None)) }
    {
        RowMeasure {
            rows: 1,
            falls: 0,
            rises: 1,
            lowest: 0,
            dead: ExtremeEntry::at_start(entry),
            alive: ExtremeEntry::none(),
        }
    }

    /// How many rows stand before the first lowest sum of the weights.
    pub(crate) fn before_lowest(&self) -> u32
        ensures { result ≡ place_in self.now.0.low }
    {
        self.lowest
    }

    /// How many rows stand after it.
    pub(crate) fn after_lowest(&self) -> u32
        ensures { result ≡ self.now.0.items - place_in self.now.0.low }
    {
        self.rows - self.lowest
    }

    /// How many rows stand before the first lowest sum of this range and one after it.
    fn lowest_with(&self, other: &RowMeasure) -> u32
        requires { self.now.0.items + other.now.0.items < 2 ^ 32 }
        ensures { result ≡ place_in (lower self.now.0.rises self.now.0.items self.now.0.low other.now.0.low) }
    {
        if self.rises < other.falls {
            self.rows + other.lowest
        } else {
            self.lowest
        }
    }

    /// How many rows stand before that of the greatest dead entry.
    pub(crate) fn dead_offset(&self) -> Option<u32>
        ensures { (added : List (Option Entry)) → self.now.1.0 ≡ extreme_of entry_order added → IsGreatestOffset entry_order added result }
    {
        self.dead.offset()
    }

    /// How many rows stand before that of the least survivor.
    pub(crate) fn alive_offset(&self) -> Option<u32>
        ensures { (added : List (Option Entry)) → self.now.1.1 ≡ extreme_of (flip_args entry_order) added → IsGreatestOffset (flip_args entry_order) added result }
    {
        self.alive.offset()
    }
}

impl Monoid for RowMeasure {
    ghost use Rattle.bridge_pq.specs.MarkedRows.{no_rows, joined_rows, rows_laws};

    ghost items_of = { λ m. m.0.items };

    ghost unit_value = { no_rows };

    ghost joined = { joined_rows };

    ghost laws = { rows_laws };

    fn unit() -> RowMeasure {
        RowMeasure {
            rows: 0,
            falls: 0,
            rises: 0,
            lowest: 0,
            dead: ExtremeEntry::none(),
            alive: ExtremeEntry::none(),
        }
    }

    fn items(&self) -> u32 {
        self.rows
    }

    // Who asks for one part of a measure is to join that part alone.
    #[inline(always)]
    fn join(self, other: RowMeasure) -> RowMeasure {
        RowMeasure {
            rows: self.rows + other.rows,
            falls: self.falls + other.falls.saturating_sub(self.rises),
            rises: other.rises + self.rises.saturating_sub(other.falls),
            lowest: self.lowest_with(&other),
            dead: self.dead.greater(self.rows, other.dead, other.rows),
            alive: self.alive.lesser(self.rows, other.alive, other.rows),
        }
    }
}
