//! The row that fails first after an edit.

ghost use Rattle.std.specs.Prelude.{◌≡◌, ◌+◌, ◌<◌, ◌≤◌, length, Contains, None, IfSome};
ghost use Rattle.std.specs.List.{insert, remove};
ghost use Rattle.retro_base.specs.declared.kind.Kind.TheVariants.{Pq};
ghost use Rattle.retro_base.specs.declared.row.Row.{Row};
ghost use Rattle.retro_base.specs.Bridges.{survivors};
ghost use Rattle.retro_base.specs.Carried.{IsPqHistory};
ghost use Rattle.retro_base.specs.Kind.{kind_of};
ghost use Rattle.retro_base.specs.Limits.{most_rows};
ghost use Rattle.retro_base.specs.Replay.{failure};
ghost use Rattle.costs.specs.Visits.{VisitsWithin};
ghost use Rattle.retro_base.specs.Weights.{added_by};
ghost use Rattle.bridge_pq.specs.Bridged.{AddsAt};
ghost use Rattle.bridge_pq.specs.MarkedRows.{rows_of, AreMarked};

use crate::marked_row::MarkedRow;
use crate::row_search::{first_bridge, least_survivor};
use retro_base::{Entry, Steps};
use std::sync::ledger::Ledger;
use weighted_tree::Tree;

/// The index of the first row that could not be performed, were a row that takes put in.
pub(crate) fn failure_after_take<L: Ledger>(
    rows: &Tree<MarkedRow>,
    place: u32,
    steps: &mut Steps<L>,
) -> Option<u32>
    requires history { IsPqHistory (rows_of rows.now) }
    requires marked { AreMarked (survivors (rows_of rows.now)) rows.now }
    requires within { place ≤ length rows.now }
    ensures first { (row : Row) → kind_of row.op ≡ Pq → added_by row ≡ None → result ≡ failure Pq (insert (rows_of rows.now) place row) }
    ensures index { IfSome result (λ index. index ≤ length rows.now) }
    ensures visits { VisitsWithin 36 (length rows.now) steps.old steps.new }
{
    // Most often a survivor stands before the place, and so before the bridge: then no bridge is looked for.
    if least_survivor(rows, place, steps).is_some() {
        return None;
    }
    let bridge = first_bridge(rows, place, steps);
    match least_survivor(rows, bridge, steps) {
        Some(_) => None,
        None => Some(bridge),
    }
}

/// The same, were the row at a place taken out, whose entry is dead.
pub(crate) fn failure_without_dead<L: Ledger>(
    rows: &Tree<MarkedRow>,
    place: u32,
    own: Entry,
    steps: &mut Steps<L>,
) -> Option<u32>
    requires history { IsPqHistory (rows_of rows.now) }
    requires marked { AreMarked (survivors (rows_of rows.now)) rows.now }
    requires few { length rows.now ≤ most_rows }
    requires adds { AddsAt (rows_of rows.now) place own }
    requires dead { ¬ Contains (survivors (rows_of rows.now)) own }
    ensures first { result ≡ failure Pq (remove (rows_of rows.now) place) }
    ensures index { IfSome result (λ index. index + 1 < length rows.now) }
    ensures visits { VisitsWithin 36 (length rows.now) steps.old steps.new }
{
    if least_survivor(rows, place, steps).is_some() {
        return None;
    }
    let bridge = first_bridge(rows, place + 1, steps);
    match least_survivor(rows, bridge, steps) {
        Some(_) => None,
        None => Some(bridge.saturating_sub(2)),
    }
}
