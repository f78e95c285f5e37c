//! The tree of entries with their marks.

ghost use Rattle.std.specs.Prelude.{◌≡◌, pos, ◌^◌, ◌<◌, ◌≤◌, length, slice_get, Contains, true, false, None, MatchOption, OnOk, OnErr};
ghost use Rattle.std.specs.List.{AllWithin};
ghost use Rattle.retro_base.specs.State.{comes_before};
ghost use Rattle.costs.specs.Visits.{VisitsWithin};
ghost use Rattle.bridge_pq.specs.Gathered.{EndsAt};
ghost use Rattle.bridge_pq.specs.MarkedEntries.{entries_in, present_in, Rise, put_marked, without_entry, marked_so};

use crate::entry_measure::EntryMeasure;
use crate::marked_entry::MarkedEntry;
use retro_base::{Entry, NoMemory, Steps};
use std::sync::ledger::Ledger;
use weighted_tree::Tree;

/// How many entries come before this one.
fn place_of<L: Ledger>(entries: &Tree<MarkedEntry>, entry: Entry, steps: &mut Steps<L>) -> u32
    requires { Rise (entries_in entries.now) }
    ensures within { result ≤ length entries.now }
    ensures before { AllWithin (λ other. comes_before other entry ≡ true) (entries_in entries.now) 0 result }
    ensures after { AllWithin (λ other. comes_before other entry ≡ false) (entries_in entries.now) result (length entries.now) }
    ensures visits { VisitsWithin 12 (length entries.now) steps.old steps.new }
{
    entries.partition_point(|other: &MarkedEntry| other.entry.comes_before(entry), steps)
}

/// Puts an entry in, in its order, with this mark. After `NoMemory` all is as before.
pub(crate) fn put_entry<L: Ledger>(
    entries: &mut Tree<MarkedEntry>,
    entry: Entry,
    present: bool,
    steps: &mut Steps<L>,
) -> Result<(), NoMemory>
    requires rise { Rise (entries_in entries.old) }
    requires absent { ¬ Contains (entries_in entries.old) entry }
    requires room { length entries.old < 2 ^ 31 }
    ensures ok { OnOk result (entries.new ≡ put_marked (record { entry = entry; present = present }) entries.old) }
    ensures err { OnErr result (entries.new ≡ entries.old) }
    ensures visits { VisitsWithin 24 (length entries.new) steps.old steps.new }
{
    let place = place_of(entries, entry, steps);
    entries.insert(place, MarkedEntry { entry, present }, steps)
}

/// Takes an entry out.
pub(crate) fn take_entry<L: Ledger>(
    entries: &mut Tree<MarkedEntry>,
    entry: Entry,
    steps: &mut Steps<L>,
)
    requires rise { Rise (entries_in entries.old) }
    requires among { Contains (entries_in entries.old) entry }
    ensures taken { entries.new ≡ without_entry entry entries.old }
    ensures visits { VisitsWithin 24 (length entries.old) steps.old steps.new }
{
    let place = place_of(entries, entry, steps);
    entries.remove(place, steps);
}

/// Sets the mark of an entry.
pub(crate) fn mark_entry<L: Ledger>(
    entries: &mut Tree<MarkedEntry>,
    entry: Entry,
    present: bool,
    steps: &mut Steps<L>,
)
    requires rise { Rise (entries_in entries.old) }
    requires among { Contains (entries_in entries.old) entry }
    ensures marked { entries.new ≡ marked_so entry present entries.old }
    ensures visits { VisitsWithin 24 (length entries.old) steps.old steps.new }
{
    let place = place_of(entries, entry, steps);
    entries.replace(place, MarkedEntry { entry, present }, steps);
}

/// How many entries of a range are in the present.
fn marks(range: &EntryMeasure) -> i128
    ensures { result ≡ range.now.sum }
{
    i128::from(range.present())
}

/// How many entries are in the present.
pub(crate) fn size_of_present<L: Ledger>(entries: &Tree<MarkedEntry>, steps: &mut Steps<L>) -> i128
    ensures size { result ≡ pos (length (present_in entries.now)) }
    ensures visits { VisitsWithin 12 (length entries.now) steps.old steps.new }
{
    marks(&entries.measure(0, entries.len(), steps))
}

/// How many entries are in the present, as a count.
pub(crate) fn count_present<L: Ledger>(entries: &Tree<MarkedEntry>, steps: &mut Steps<L>) -> u32
    ensures size { result ≡ length (present_in entries.now) }
    ensures visits { VisitsWithin 12 (length entries.now) steps.old steps.new }
{
    entries.measure(0, entries.len(), steps).present()
}

/// The place right after the entry at this index of the present, where there is one.
pub(crate) fn end_of_present<L: Ledger>(
    entries: &Tree<MarkedEntry>,
    index: u64,
    steps: &mut Steps<L>,
) -> Option<u32>
    ensures end { MatchOption result (slice_get (present_in entries.now) index ≡ None) (EndsAt entries.now index) }
    ensures visits { VisitsWithin 12 (length entries.now) steps.old steps.new }
{
    let index = i128::from(index);
    entries.first_place(0, |range: &EntryMeasure| index < marks(range), steps)
}

/// The entry at this index of the present, where there is one.
pub(crate) fn nth_present<L: Ledger>(
    entries: &Tree<MarkedEntry>,
    index: u64,
    steps: &mut Steps<L>,
) -> Option<Entry>
    ensures entry { result ≡ slice_get (present_in entries.now) index }
    ensures visits { VisitsWithin 24 (length entries.now) steps.old steps.new }
{
    let end = end_of_present(entries, index, steps)?;
    Some(entries.get(end - 1, steps).entry)
}
