//! What is left of the present of an earlier queue, in its order.
ghost use Rattle.std.specs.Prelude.{◌≡◌, ◌+◌, ◌∷◌, length, drop, MatchOption};
ghost use Rattle.costs.specs.Visits.{VisitsWithin};
ghost use Rattle.bridge_pq.specs.Gathered.{IsTaken};
ghost use Rattle.bridge_pq.specs.MarkedEntries.{present_in};

use crate::entry_tree::end_of_present;
use crate::marked_entry::MarkedEntry;
use retro_base::{Entry, Steps};
use std::marker::Model;
use std::sync::ledger::Ledger;
use weighted_tree::Tree;

/// How many entries are read at a time.
const WINDOW: usize = 32;

/// No entry that was read.
const NOTHING: MarkedEntry = MarkedEntry {
    entry: Entry { key: 0, number: 0 },
    present: false,
};

/// A walk through the present, the least entry first. It reads the entries that stand next in a window, and goes over a
/// longer stretch of dead ones by one search.
#[derive(Drop)]
pub(crate) struct Cursor<'a> {
    entries: &'a Tree<MarkedEntry>,
    passed: u32,
    place: u32,
    window: [MarkedEntry; WINDOW],
    start: u32,
    end: u32,
}

impl<'a> Model for Cursor<'a> {
    ghost use Rattle.std.specs.Prelude.{length, drop};
    ghost use Rattle.bridge_pq.specs.Gathered.{IsWindow, Left};
    ghost use Rattle.bridge_pq.specs.MarkedEntries.{present_in};

    ghost Value = { Left };

    ghost view = { λ c. record { entries = drop c.passed (present_in c.entries.now); of = length c.entries.now } };

    ghost invariant = { λ c. IsWindow c.entries.now c.window c.passed c.place c.start c.end };
}

impl<'a> Cursor<'a> {
    /// A walk from the first entry on.
    pub(crate) fn new(entries: &'a Tree<MarkedEntry>) -> Cursor<'a>
        ensures entries { result.entries ≡ present_in entries.now }
        ensures of { result.of ≡ length entries.now }
    {
        Cursor {
            entries,
            passed: 0,
            place: 0,
            window: [NOTHING; WINDOW],
            start: 0,
            end: 0,
        }
    }

    /// The next entry that the window has, where it has one.
    fn take_read(&mut self) -> Option<Entry>
        ensures of { self.new.of ≡ self.old.of }
        ensures taken { MatchOption result (self.new.entries ≡ self.old.entries) (λ entry. self.old.entries ≡ entry ∷ self.new.entries) }
    {
        // Its clause says that the entries are few.
        let _few = self.entries.len();
        let mut place = self.place;
        while place < self.end {
            let item = self.window[(place - self.start) as usize];
            place += 1;
            if item.present {
                self.place = place;
                self.passed += 1;
                return Some(item.entry);
            }
        }
        self.place = place;
        None
    }

    /// The next entry, where there is one, by a search; those that stand next to it are read.
    fn search<L: Ledger>(&mut self, steps: &mut Steps<L>) -> Option<Entry>
        ensures of { self.new.of ≡ self.old.of }
        ensures taken { IsTaken self.old.entries result self.new.entries }
        ensures visits { VisitsWithin 56 self.old.of steps.old steps.new }
    {
        // Its clause says that the entries are few.
        let _few = self.entries.len();
        let end = end_of_present(self.entries, u64::from(self.passed), steps)?;
        let first = end - 1;
        let entries = self.entries;
        let count = entries.read(first, |item: &MarkedEntry| *item, &mut self.window, steps);
        self.start = first;
        self.place = end;
        self.end = first + count as u32;
        self.passed += 1;
        Some(self.window[0].entry)
    }

    /// Takes the next entry, where there is one.
    pub(crate) fn take<L: Ledger>(&mut self, steps: &mut Steps<L>) -> Option<Entry>
        ensures of { self.new.of ≡ self.old.of }
        ensures taken { IsTaken self.old.entries result self.new.entries }
        ensures visits { VisitsWithin 56 self.old.of steps.old steps.new }
    {
        match self.take_read() {
            Some(entry) => Some(entry),
            None => self.search(steps),
        }
    }

    /// Goes over the next entries, so many of them, at once.
    pub(crate) fn pass(&mut self, count: u32)
        ensures of { self.new.of ≡ self.old.of }
        ensures passed { self.new.entries ≡ drop count self.old.entries }
    {
        self.passed = self.passed.saturating_add(count).min(self.entries.len());
        self.end = 0;
    }
}
