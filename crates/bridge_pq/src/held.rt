//! What a queue holds some rows later than an earlier one, which is lent and stays as it is.
ghost use Rattle.std.specs.Prelude.{◌≡◌, ◌+◌, ◌*◌, ◌≤◌, ℕ, length, slice_get, OnOk};
ghost use Rattle.retro_base.specs.Limits.{most_rows};
ghost use Rattle.retro_base.specs.State.{with_entry};
ghost use Rattle.costs.specs.Visits.{VisitsWithin};
ghost use Rattle.bridge_pq.specs.Gathered.{fresh_first, IsTaken};
ghost use Rattle.bridge_pq.specs.MarkedEntries.{entries_in, present_in, Rise};

use crate::cursor::Cursor;
use crate::fresh::Fresh;
use crate::marked_entry::MarkedEntry;
use retro_base::{Entry, MAX_ROWS, NoMemory, Steps};
use std::marker::Model;
use std::sync::ledger::Ledger;
use weighted_tree::Tree;

/// The entries of the earlier queue that were not taken, the first of them apart, and those that came in since.
#[derive(Drop)]
pub(crate) struct Held<'a> {
    first: Option<Entry>,
    left: Cursor<'a>,
    fresh: Fresh,
}

impl<'a> Model for Held<'a> {
    ghost use Rattle.std.specs.Prelude.{length};
    ghost use Rattle.bridge_pq.specs.Gathered.{in_front, with_all, HeldLater, IsHeld};

    ghost Value = { HeldLater };

    ghost view = { λ h. record { entries = with_all h.fresh (in_front h.first h.left.entries); fresh = length h.fresh; of = h.left.of } };

    ghost invariant = { λ h. IsHeld h.first h.left.entries };
}

impl<'a> Held<'a> {
    /// What the earlier queue itself holds.
    pub(crate) fn new<L: Ledger>(entries: &'a Tree<MarkedEntry>, steps: &mut Steps<L>) -> Held<'a>
        requires { Rise (entries_in entries.now) }
        ensures entries { result.entries ≡ present_in entries.now }
        ensures fresh { result.fresh ≡ 0 }
        ensures of { result.of ≡ length entries.now }
        ensures visits { VisitsWithin 56 (length entries.now) steps.old steps.new }
    {
        let mut left = Cursor::new(entries);
        let first = left.take(steps);
        Held {
            first,
            left,
            fresh: Fresh::new(entries.alloc()),
        }
    }

    /// An entry comes in.
    pub(crate) fn put(&mut self, entry: Entry) -> Result<(), NoMemory>
        ensures of { self.new.of ≡ self.old.of }
        ensures entries { OnOk result (self.new.entries ≡ with_entry entry self.old.entries) }
        ensures fresh { OnOk result (self.new.fresh ≡ self.old.fresh + 1) }
    {
        self.fresh.put(entry)?;
        Ok(())
    }

    /// The least entry is taken, where there is one: the lesser of the first of those that were there and of those that
    /// came in.
    pub(crate) fn take<L: Ledger>(&mut self, steps: &mut Steps<L>) -> Option<Entry>
        ensures of { self.new.of ≡ self.old.of }
        ensures taken { IsTaken self.old.entries result self.new.entries }
        ensures fresh { self.new.fresh ≤ self.old.fresh }
        ensures visits { VisitsWithin 56 self.old.of steps.old steps.new }
    {
        let first = self.first;
        if comes_first(self.fresh.least(), first) {
            return self.fresh.take();
        }
        self.first = self.left.take(steps);
        first
    }

    /// Goes over so many of the entries that were there, at once.
    fn pass<L: Ledger>(&mut self, count: u32, steps: &mut Steps<L>)
        ensures of { self.new.of ≡ self.old.of }
        ensures fresh { self.new.fresh ≡ self.old.fresh }
        ensures none { count ≡ 0 → self.new.entries ≡ self.old.entries }
        ensures beyond { (index : ℕ) → self.old.fresh ≤ index → slice_get self.new.entries index ≡ slice_get self.old.entries (count + index) }
        ensures visits { VisitsWithin 56 self.old.of steps.old steps.new }
    {
        if count > 0 {
            self.left.pass(count - 1);
            self.first = self.left.take(steps);
        }
    }

    /// Takes the entries before this index, and the one there, which it answers, where there is one.
    pub(crate) fn take_nth<L: Ledger>(&mut self, index: u64, steps: &mut Steps<L>) -> Option<Entry>
        requires few { length self.old.entries ≤ most_rows }
        ensures entry { result ≡ slice_get self.old.entries index }
        ensures visits { VisitsWithin (56 * (self.old.fresh + 2)) self.old.of steps.old steps.new }
    {
        let index = index.min(u64::from(MAX_ROWS)) as u32;
        let near = self.fresh.len().min(u64::from(index)) as u32;
        self.pass(index - near, steps);
        for _ in 0..near {
            self.take(steps);
        }
        self.take(steps)
    }
}

/// Whether the first of the entries that came in is taken before the first of those that were there.
fn comes_first(fresh: Option<Entry>, first: Option<Entry>) -> bool
    ensures { result ≡ fresh_first fresh first }
{
    match (fresh, first) {
        (Some(fresh), Some(first)) => fresh.comes_before(first),
        (_, first) => first.is_none(),
    }
}
