//! A row comes in or goes, with its entry and the marks that it flips.

ghost use Rattle.std.specs.Prelude.{◌≡◌, ◌^◌, ◌<◌, ◌≤◌, length, slice_get, Contains, false, Some, None, IfOk, OnOk, OnErr};
ghost use Rattle.std.specs.List.{insert, remove};
ghost use Rattle.retro_base.specs.declared.kind.Kind.TheVariants.{Pq};
ghost use Rattle.retro_base.specs.Bridges.{survivors};
ghost use Rattle.retro_base.specs.Changes.{IsPqChange};
ghost use Rattle.retro_base.specs.Edits.{add, cut};
ghost use Rattle.retro_base.specs.Replay.{IsValid};
ghost use Rattle.retro_base.specs.Timeline.{IsReplayable};
ghost use Rattle.costs.specs.Visits.{VisitsWithin};
ghost use Rattle.retro_base.specs.Weights.{added_by};
ghost use Rattle.bridge_pq.specs.Bridged.{IsBridged};
ghost use Rattle.bridge_pq.specs.Flips.{Lacks};
ghost use Rattle.bridge_pq.specs.MarkedEntries.{entries_in, Rise, put_marked};
ghost use Rattle.bridge_pq.specs.MarkedRows.{rows_of};

use crate::changes::{gained_with, gained_without, lost_with, lost_without};
use crate::entry_tree::{mark_entry, put_entry, take_entry};
use crate::flip::Flip;
use crate::marked_entry::MarkedEntry;
use crate::marked_row::MarkedRow;
use crate::row_search::mark_row;
use retro_base::{Change, Entry, NoMemory, PackedRow, Row, Steps};
use std::sync::ledger::Ledger;
use weighted_tree::Tree;

/// Turns the marks of a changed entry and of its row.
fn flip_marks<L: Ledger>(
    rows: &mut Tree<MarkedRow>,
    entries: &mut Tree<MarkedEntry>,
    flip: Flip,
    steps: &mut Steps<L>,
)
    requires lacks { Lacks rows.old entries.old flip }
    ensures bridged { IsBridged rows.new entries.new }
    ensures rows { rows_of rows.new ≡ rows_of rows.old }
    ensures visits { VisitsWithin 48 (length rows.old) steps.old steps.new }
{
    mark_row(rows, flip.place, flip.survives, steps);
    mark_entry(entries, flip.entry, flip.survives, steps);
}

/// Puts a row in with its entry, both with this mark. After `NoMemory` all is as before.
fn put_row_with_entry<L: Ledger>(
    rows: &mut Tree<MarkedRow>,
    entries: &mut Tree<MarkedEntry>,
    place: u32,
    row: Row,
    entry: Entry,
    survives: bool,
    steps: &mut Steps<L>,
) -> Result<(), NoMemory>
    requires within { place ≤ length rows.old }
    requires room { length rows.old < 2 ^ 31 }
    requires few { length entries.old ≤ length rows.old }
    requires rise { Rise (entries_in entries.old) }
    requires absent { ¬ Contains (entries_in entries.old) entry }
    ensures rows { OnOk result (rows.new ≡ insert rows.old place (record { row = row; survives = survives })) }
    ensures entries { OnOk result (entries.new ≡ put_marked (record { entry = entry; present = survives }) entries.old) }
    ensures err { OnErr result ((rows.new ≡ rows.old) × (entries.new ≡ entries.old)) }
    ensures ok_visits { OnOk result (VisitsWithin 36 (length rows.new) steps.old steps.new) }
    ensures visits { VisitsWithin 72 (length rows.new) steps.old steps.new }
{
    rows.insert(
        place,
        MarkedRow {
            row: PackedRow::new(row),
            survives,
        },
        steps,
    )?;
    if let Err(error) = put_entry(entries, entry, survives, steps) {
        rows.remove(place, steps);
        return Err(error);
    }
    Ok(())
}

/// Puts in a row that adds an entry.
pub(crate) fn insert_adding<L: Ledger>(
    rows: &mut Tree<MarkedRow>,
    entries: &mut Tree<MarkedEntry>,
    place: u32,
    row: Row,
    new: Entry,
    steps: &mut Steps<L>,
) -> Result<Change, NoMemory>
    requires bridged { IsBridged rows.old entries.old }
    requires within { place ≤ length rows.old }
    requires adds { added_by row ≡ Some new }
    requires replayable { IsReplayable Pq (insert (rows_of rows.old) place row) }
    ensures bridged { OnOk result (IsBridged rows.new entries.new) }
    ensures rows { OnOk result (rows_of rows.new ≡ insert (rows_of rows.old) place row) }
    ensures change { IfOk result (IsPqChange (rows_of rows.old) (add place row)) }
    ensures err { OnErr result ((rows.new ≡ rows.old) × (entries.new ≡ entries.old)) }
    ensures visits { VisitsWithin 144 (length rows.new) steps.old steps.new }
{
    let flip = gained_with(rows, place, row, new, steps);
    // Where the entry itself is gained, it goes in with its mark.
    if flip.place == place {
        put_row_with_entry(rows, entries, place, row, new, flip.survives, steps)?;
        return Ok(flip.change);
    }
    put_row_with_entry(rows, entries, place, row, new, false, steps)?;
    flip_marks(rows, entries, flip, steps);
    Ok(flip.change)
}

/// Puts in a row that takes.
pub(crate) fn insert_taking<L: Ledger>(
    rows: &mut Tree<MarkedRow>,
    entries: &mut Tree<MarkedEntry>,
    place: u32,
    row: Row,
    steps: &mut Steps<L>,
) -> Result<Change, NoMemory>
    requires bridged { IsBridged rows.old entries.old }
    requires within { place ≤ length rows.old }
    requires takes { added_by row ≡ None }
    requires replayable { IsReplayable Pq (insert (rows_of rows.old) place row) }
    ensures bridged { OnOk result (IsBridged rows.new entries.new) }
    ensures rows { OnOk result (rows_of rows.new ≡ insert (rows_of rows.old) place row) }
    ensures change { IfOk result (IsPqChange (rows_of rows.old) (add place row)) }
    ensures err { OnErr result ((rows.new ≡ rows.old) × (entries.new ≡ entries.old)) }
    ensures visits { VisitsWithin 144 (length rows.new) steps.old steps.new }
{
    let flip = lost_with(rows, place, row, steps);
    let item = MarkedRow {
        row: PackedRow::new(row),
        survives: false,
    };
    rows.insert(place, item, steps)?;
    flip_marks(rows, entries, flip, steps);
    Ok(flip.change)
}

/// Takes out a row whose entry survives.
pub(crate) fn remove_survivor<L: Ledger>(
    rows: &mut Tree<MarkedRow>,
    entries: &mut Tree<MarkedEntry>,
    place: u32,
    row: Row,
    own: Entry,
    steps: &mut Steps<L>,
) -> Change
    requires bridged { IsBridged rows.old entries.old }
    requires there { slice_get (rows_of rows.old) place ≡ Some row }
    requires adds { added_by row ≡ Some own }
    requires lives { Contains (survivors (rows_of rows.old)) own }
    requires replays { IsValid Pq (remove (rows_of rows.old) place) }
    ensures bridged { IsBridged rows.new entries.new }
    ensures rows { rows_of rows.new ≡ remove (rows_of rows.old) place }
    ensures change { IsPqChange (rows_of rows.old) (cut place row) result }
    ensures visits { VisitsWithin 132 (length rows.old) steps.old steps.new }
{
    rows.remove(place, steps);
    take_entry(entries, own, steps);
    Change::Lose {
        bridge: None,
        entry: own,
    }
}

/// Takes out a row whose entry is dead.
pub(crate) fn remove_dead<L: Ledger>(
    rows: &mut Tree<MarkedRow>,
    entries: &mut Tree<MarkedEntry>,
    place: u32,
    row: Row,
    own: Entry,
    steps: &mut Steps<L>,
) -> Change
    requires bridged { IsBridged rows.old entries.old }
    requires there { slice_get (rows_of rows.old) place ≡ Some row }
    requires adds { added_by row ≡ Some own }
    requires dead { ¬ Contains (survivors (rows_of rows.old)) own }
    requires replays { IsValid Pq (remove (rows_of rows.old) place) }
    ensures bridged { IsBridged rows.new entries.new }
    ensures rows { rows_of rows.new ≡ remove (rows_of rows.old) place }
    ensures change { IsPqChange (rows_of rows.old) (cut place row) result }
    ensures visits { VisitsWithin 132 (length rows.old) steps.old steps.new }
{
    let flip = lost_without(rows, place, row, own, steps);
    rows.remove(place, steps);
    take_entry(entries, own, steps);
    flip_marks(rows, entries, flip, steps);
    flip.change
}

/// Takes out a row that takes.
pub(crate) fn remove_taking<L: Ledger>(
    rows: &mut Tree<MarkedRow>,
    entries: &mut Tree<MarkedEntry>,
    place: u32,
    row: Row,
    steps: &mut Steps<L>,
) -> Change
    requires bridged { IsBridged rows.old entries.old }
    requires there { slice_get (rows_of rows.old) place ≡ Some row }
    requires takes { added_by row ≡ None }
    requires replays { IsValid Pq (remove (rows_of rows.old) place) }
    ensures bridged { IsBridged rows.new entries.new }
    ensures rows { rows_of rows.new ≡ remove (rows_of rows.old) place }
    ensures change { IsPqChange (rows_of rows.old) (cut place row) result }
    ensures visits { VisitsWithin 132 (length rows.old) steps.old steps.new }
{
    let flip = gained_without(rows, place, row, steps);
    rows.remove(place, steps);
    flip_marks(rows, entries, flip, steps);
    flip.change
}
