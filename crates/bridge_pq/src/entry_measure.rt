//! What a range of entries measures.

ghost use Rattle.std.specs.Prelude.{◌≡◌, pos, if◌then◌else◌};
ghost use Rattle.monoid_laws.specs.Summed.{one_sum};

use monoid_laws::Monoid;
use std::marker::Model;

/// What a range of entries measures: how many of them are in the present.
#[derive(Clone, Copy)]
pub(crate) struct EntryMeasure {
    entries: u32,
    present: u32,
}

impl Model for EntryMeasure {
    ghost use Rattle.std.specs.Prelude.{pos, nat_abs, ◌≤◌};
    ghost use Rattle.monoid_laws.specs.Summed.{Summed};

    ghost Value = { Summed };

    ghost view = { λ m. record { items = m.entries; sum = pos m.present } };

    ghost inverse = { λ v. record { entries = v.items; present = nat_abs v.sum } };

    ghost invariant = { λ m. m.present ≤ m.entries };
}

impl EntryMeasure {
    /// The value of one entry.
    pub(crate) fn single(present: bool) -> EntryMeasure
        ensures { result ≡ one_sum (pos (if present then 1 else 0)) }
    {
        EntryMeasure {
            entries: 1,
            present: if present { 1 } else { 0 },
        }
    }

    /// How many entries are in the present.
    pub(crate) fn present(&self) -> u32
        ensures { pos result ≡ self.now.sum }
    {
        self.present
    }
}

impl Monoid for EntryMeasure {
    ghost use Rattle.monoid_laws.specs.Summed.{no_sum, joined_sum};
    ghost use Rattle.monoid_laws.specs.SummedLaws.{sum_laws};

    ghost items_of = { λ m. m.items };

    ghost unit_value = { no_sum };

    ghost joined = { joined_sum };

    ghost laws = { sum_laws };

    fn unit() -> EntryMeasure {
        EntryMeasure {
            entries: 0,
            present: 0,
        }
    }

    fn items(&self) -> u32 {
        self.entries
    }

    fn join(self, other: EntryMeasure) -> EntryMeasure {
        EntryMeasure {
            entries: self.entries + other.entries,
            present: self.present + other.present,
        }
    }

    fn with(self, part: EntryMeasure) -> Option<EntryMeasure> {
        Some(self.join(part))
    }

    fn without(self, part: EntryMeasure) -> Option<EntryMeasure> {
        if self.entries < part.entries || self.present < part.present {
            return None;
        }
        let (entries, present) = (self.entries - part.entries, self.present - part.present);
        if present > entries {
            return None;
        }
        Some(EntryMeasure { entries, present })
    }
}
