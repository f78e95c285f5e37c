//! An entry, or what is less or greater than each.

ghost use Rattle.std.specs.Prelude.{◌≡◌, ◌≤◌};
ghost use Rattle.retro_base.specs.Weights.{added_by};
ghost use Rattle.pq_fusion.specs.Bounds.{is_below, higher, lower, tops};
ghost use Rattle.pq_fusion.specs.Edits.{own_of};

use retro_base::{Entry, Row};

/// An entry, or what is less than each entry, or what is greater than each.
#[derive(Clone, Copy)]
pub enum Bound {
    Low,
    At(Entry),
    Top,
}

impl Bound {
    /// Whether this bound is less than another.
    pub fn is_below(self, other: Bound) -> bool
        ensures { result ≡ is_below self other }
    {
        match (self, other) {
            (Bound::Low, Bound::Low) => false,
            (Bound::Low, _) => true,
            (Bound::At(_), Bound::Low) => false,
            (Bound::At(one), Bound::At(two)) => one.comes_before(two),
            (Bound::At(_), Bound::Top) => true,
            (Bound::Top, _) => false,
        }
    }

    /// The greater of two bounds.
    pub fn higher(self, other: Bound) -> Bound
        ensures { result ≡ higher self other }
    {
        if self.is_below(other) { other } else { self }
    }

    /// The lesser of two bounds.
    pub fn lower(self, other: Bound) -> Bound
        ensures { result ≡ lower self other }
    {
        if other.is_below(self) { other } else { self }
    }

    /// The entry that a row adds; less than each where it takes one.
    pub(crate) fn of_row(row: Row) -> Bound
        ensures { result ≡ own_of (added_by row) }
    {
        match row.added_entry() {
            Some(entry) => Bound::At(entry),
            None => Bound::Low,
        }
    }

    /// Once where the bound is greater than each entry.
    pub(crate) fn tops(self) -> u32
        ensures count { result ≡ tops self }
        ensures few { result ≤ 1 }
    {
        match self {
            Bound::Top => 1,
            _ => 0,
        }
    }
}
