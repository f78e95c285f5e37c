//! An entry with an offset, or none, in little memory.

ghost use Rattle.std.specs.Prelude.{◌≡◌, ◌+◌, ◌^◌, ◌<◌, false, None, Some, IfSome};
ghost use Rattle.std.specs.Option.{option_map};
ghost use Rattle.std.specs.Ordering.{flip_args};
ghost use Rattle.monoid_laws.specs.Extreme.{first_greatest, moved, IsOffsetWithin};
ghost use Rattle.bridge_pq.specs.EntryOrder.{entry_order};
ghost use Rattle.bridge_pq.specs.ExtremeEntries.{holds_none};

use retro_base::Entry;
use std::marker::Model;

/// An entry with an offset, or none, in half the memory of the option.
#[derive(Clone, Copy)]
pub(crate) struct ExtremeEntry {
    key: i64,
    number: u32,
    offset: u32,
}

impl Model for ExtremeEntry {
    ghost use Rattle.std.specs.Prelude.{ℕ, Option};
    ghost use Rattle.retro_base.specs.declared.row.Entry.{Entry};
    ghost use Rattle.bridge_pq.specs.ExtremeEntries.{placed_entry, key_in, number_in, offset_in, key_back, number_back, offset_back, IsTidy};

    ghost Value = { Option (Entry × ℕ) };

    ghost view = { λ s. placed_entry s.key s.number s.offset };

    ghost inverse = { λ v. record { key = key_in v; number = number_in v; offset = offset_in v } };

    ghost inverse_ok = { λ s h i. record { key = key_back s.key s.number s.offset h i; number = number_back s.key s.number s.offset h i; offset = offset_back s.key s.number s.offset h i } };

    ghost invariant = { λ s. IsTidy s.key s.number s.offset };
}

impl ExtremeEntry {
    /// No entry.
    pub(crate) fn none() -> ExtremeEntry
        ensures { result ≡ None }
    {
        ExtremeEntry {
            key: 0,
            number: 0,
            offset: u32::MAX,
        }
    }

    /// An entry at the start.
    pub(crate) fn at_start(entry: Entry) -> ExtremeEntry
        ensures { result ≡ Some (entry, 0) }
    {
        ExtremeEntry {
            key: entry.key,
            number: entry.number,
            offset: 0,
        }
    }

    fn is_none(self) -> bool
        ensures { result ≡ holds_none self }
    {
        self.offset == u32::MAX
    }

    /// The offset.
    pub(crate) fn offset(self) -> Option<u32>
        ensures { result ≡ option_map (λ extreme. extreme.1) self }
    {
        if self.is_none() {
            return None;
        }
        Some(self.offset)
    }

    fn entry(self) -> Entry
        ensures { IfSome self (λ extreme. result ≡ extreme.0) }
    {
        Entry {
            key: self.key,
            number: self.number,
        }
    }

    /// The same entry, seen from `before` items further back.
    fn further_on(self, before: u32, items: u32) -> ExtremeEntry
        requires some { holds_none self ≡ false }
        requires within { IsOffsetWithin items self }
        requires fits { before + items < 2 ^ 32 }
        ensures { result ≡ moved before self }
    {
        ExtremeEntry {
            key: self.key,
            number: self.number,
            offset: before + self.offset,
        }
    }

    /// The greater of this one and a later one after so many items, and of equal ones this.
    pub(crate) fn greater(self, before: u32, later: ExtremeEntry, items: u32) -> ExtremeEntry
        requires later { IsOffsetWithin items later }
        requires fits { before + items < 2 ^ 32 }
        ensures { result ≡ first_greatest entry_order self (moved before later) }
    {
        if later.is_none() {
            return self;
        }
        if self.is_none() || self.entry().comes_before(later.entry()) {
            return later.further_on(before, items);
        }
        self
    }

    /// The lesser of the two.
    pub(crate) fn lesser(self, before: u32, later: ExtremeEntry, items: u32) -> ExtremeEntry
        requires later { IsOffsetWithin items later }
        requires fits { before + items < 2 ^ 32 }
        ensures { result ≡ first_greatest (flip_args entry_order) self (moved before later) }
    {
        if later.is_none() {
            return self;
        }
        if self.is_none() || later.entry().comes_before(self.entry()) {
            return later.further_on(before, items);
        }
        self
    }
}
