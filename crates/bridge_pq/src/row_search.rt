//! Bridges and entries, found in the tree of rows.

ghost use Rattle.std.specs.Prelude.{◌≡◌, ◌<◌, ◌≤◌, length, slice_get, slice_set, Some};
ghost use Rattle.retro_base.specs.declared.row.Entry.{Entry};
ghost use Rattle.retro_base.specs.Bridges.{survivors, last_bridge, first_bridge};
ghost use Rattle.retro_base.specs.Carried.{IsPqHistory};
ghost use Rattle.retro_base.specs.MarkedChange.{greatest_dead, least_survivor};
ghost use Rattle.costs.specs.Visits.{VisitsWithin};
ghost use Rattle.bridge_pq.specs.Bridged.{AddsAt, FindsRow};
ghost use Rattle.bridge_pq.specs.MarkedRows.{rows_of, weights_of, AreMarked};
ghost use Rattle.bridge_pq.specs.declared.marked_row.MarkedRow.{MarkedRow};
ghost use Rattle.bridge_pq.specs.Dips.{is_lowest_up_to};
ghost use Rattle.weighted_tree.specs.Search.{IsLastOrNone};

use crate::marked_row::MarkedRow;
use crate::row_measure::RowMeasure;
use retro_base::{Entry, Steps};
use std::sync::ledger::Ledger;
use weighted_tree::Tree;

/// The last place from which on the sum of the weights is first lowest at a place up to `to`.
fn last_lowest<L: Ledger>(rows: &Tree<MarkedRow>, to: u32, steps: &mut Steps<L>) -> Option<u32>
    requires { to ≤ length rows.now }
    ensures last { IsLastOrNone (is_lowest_up_to (weights_of rows.now) to) (length rows.now) result }
    ensures visits { VisitsWithin 12 (length rows.now) steps.old steps.new }
{
    let after = rows.len() - to;
    rows.last_place(
        rows.len(),
        |range: &RowMeasure| after <= range.after_lowest(),
        steps,
    )
}

/// The last bridge up to a place. The place after all rows is one, and is not looked for.
pub(crate) fn last_bridge<L: Ledger>(
    rows: &Tree<MarkedRow>,
    place: u32,
    steps: &mut Steps<L>,
) -> u32
    requires history { IsPqHistory (rows_of rows.now) }
    requires marked { AreMarked (survivors (rows_of rows.now)) rows.now }
    requires within { place ≤ length rows.now }
    ensures bridge { result ≡ last_bridge (rows_of rows.now) place }
    ensures within { result ≤ length rows.now }
    ensures visits { VisitsWithin 12 (length rows.now) steps.old steps.new }
{
    if place == rows.len() {
        return place;
    }
    match last_lowest(rows, place, steps) {
        Some(bridge) => bridge,
        None => unreachable!(),
    }
}

/// The first bridge from a place on: the sum of the weights from there on is first lowest at it.
pub(crate) fn first_bridge<L: Ledger>(
    rows: &Tree<MarkedRow>,
    place: u32,
    steps: &mut Steps<L>,
) -> u32
    requires history { IsPqHistory (rows_of rows.now) }
    requires marked { AreMarked (survivors (rows_of rows.now)) rows.now }
    requires within { place ≤ length rows.now }
    ensures bridge { result ≡ first_bridge (rows_of rows.now) place }
    ensures within { result ≤ length rows.now }
    ensures visits { VisitsWithin 12 (length rows.now) steps.old steps.new }
{
    let range = rows.measure(place, rows.len(), steps);
    place + range.before_lowest()
}

/// The place of the row that adds the greatest dead entry from a bridge on.
pub(crate) fn greatest_dead<L: Ledger>(
    rows: &Tree<MarkedRow>,
    bridge: u32,
    steps: &mut Steps<L>,
) -> Option<u32>
    requires marked { AreMarked (survivors (rows_of rows.now)) rows.now }
    requires within { bridge ≤ length rows.now }
    ensures dead { FindsRow (rows_of rows.now) (greatest_dead (rows_of rows.now) bridge) result }
    ensures visits { VisitsWithin 12 (length rows.now) steps.old steps.new }
{
    let range = rows.measure(bridge, rows.len(), steps);
    let offset = range.dead_offset()?;
    Some(bridge + offset)
}

/// The place of the row that adds the least survivor from before a bridge.
pub(crate) fn least_survivor<L: Ledger>(
    rows: &Tree<MarkedRow>,
    bridge: u32,
    steps: &mut Steps<L>,
) -> Option<u32>
    requires marked { AreMarked (survivors (rows_of rows.now)) rows.now }
    requires within { bridge ≤ length rows.now }
    ensures survivor { FindsRow (rows_of rows.now) (least_survivor (rows_of rows.now) bridge) result }
    ensures visits { VisitsWithin 12 (length rows.now) steps.old steps.new }
{
    let range = rows.measure(0, bridge, steps);
    range.alive_offset()
}

/// The entry that the row at a place adds.
pub(crate) fn entry_at<L: Ledger>(rows: &Tree<MarkedRow>, place: u32, steps: &mut Steps<L>) -> Entry
    requires { (entry : Entry) × AddsAt (rows_of rows.now) place entry }
    ensures entry { AddsAt (rows_of rows.now) place result }
    ensures visits { VisitsWithin 12 (length rows.now) steps.old steps.new }
{
    match rows.get(place, steps).row.added_entry() {
        Some(entry) => entry,
        None => unreachable!(),
    }
}

/// Sets the mark of the row at a place.
pub(crate) fn mark_row<L: Ledger>(
    rows: &mut Tree<MarkedRow>,
    place: u32,
    survives: bool,
    steps: &mut Steps<L>,
)
    requires { place < length rows.old }
    ensures marked { (item : MarkedRow) → slice_get rows.old place ≡ Some item
        → rows.new ≡ slice_set rows.old place (record { row = item.row; survives = survives }) }
    ensures visits { VisitsWithin 24 (length rows.old) steps.old steps.new }
{
    let row = rows.get(place, steps).row;
    rows.replace(place, MarkedRow { row, survives }, steps);
}
