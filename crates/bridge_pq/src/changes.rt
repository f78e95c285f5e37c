//! The change that an edit makes in the present, and its places.

ghost use Rattle.std.specs.Prelude.{◌≡◌, ◌≢◌, ◌+◌, ◌-◌, ◌^◌, ◌<◌, ◌≤◌, length, Contains, Some, None, nat_lt, if◌then◌else◌};
ghost use Rattle.retro_base.specs.declared.kind.Kind.TheVariants.{Pq};
ghost use Rattle.retro_base.specs.Bridges.{survivors};
ghost use Rattle.retro_base.specs.Carried.{IsPqEdit};
ghost use Rattle.retro_base.specs.Edits.{add, cut, IsAccepted};
ghost use Rattle.retro_base.specs.Limits.{most_rows};
ghost use Rattle.costs.specs.Visits.{VisitsWithin};
ghost use Rattle.retro_base.specs.Weights.{added_by};
ghost use Rattle.retro_base.specs.declared.row.Row.{Row};
ghost use Rattle.bridge_pq.specs.MarkedRows.{rows_of, AreMarked};
ghost use Rattle.bridge_pq.specs.Flips.{Flips};

use crate::flip::Flip;
use crate::marked_row::MarkedRow;
use crate::row_search::{entry_at, first_bridge, greatest_dead, last_bridge, least_survivor};
use retro_base::{Change, Entry, Row, Steps};
use std::sync::ledger::Ledger;
use weighted_tree::Tree;

/// The place of a row where another one comes in at a place.
fn place_with(place: u32, added: u32) -> u32
    requires { place + 1 < 2 ^ 32 }
    ensures { result ≡ (if nat_lt place added then place else place + 1) }
{
    if place < added { place } else { place + 1 }
}

/// The place of a row where another one goes from a place.
fn place_without(place: u32, cut: u32) -> u32
    requires { place ≢ cut }
    ensures { result ≡ (if nat_lt place cut then place else place - 1) }
{
    if place < cut { place } else { place - 1 }
}

/// What is gained where a row that adds an entry is put in.
pub(crate) fn gained_with<L: Ledger>(
    rows: &Tree<MarkedRow>,
    place: u32,
    row: Row,
    new: Entry,
    steps: &mut Steps<L>,
) -> Flip
    requires possible { IsPqEdit (rows_of rows.now) (add place row) }
    requires adds { added_by row ≡ Some new }
    requires marked { AreMarked (survivors (rows_of rows.now)) rows.now }
    requires few { length rows.now ≤ most_rows }
    ensures flips { Flips (rows_of rows.now) (add place row) result }
    ensures visits { VisitsWithin 48 (length rows.now) steps.old steps.new }
{
    let bridge = last_bridge(rows, place, steps);
    if let Some(dead) = greatest_dead(rows, bridge, steps) {
        let entry = entry_at(rows, dead, steps);
        if new.comes_before(entry) {
            return Flip {
                change: Change::Gain { bridge, entry },
                entry,
                place: place_with(dead, place),
                survives: true,
            };
        }
    }
    Flip {
        change: Change::Gain { bridge, entry: new },
        entry: new,
        place,
        survives: true,
    }
}

/// What is lost where a row that takes is put in.
pub(crate) fn lost_with<L: Ledger>(
    rows: &Tree<MarkedRow>,
    place: u32,
    row: Row,
    steps: &mut Steps<L>,
) -> Flip
    requires possible { IsPqEdit (rows_of rows.now) (add place row) }
    requires accepted { IsAccepted Pq (rows_of rows.now) (add place row) }
    requires takes { added_by row ≡ None }
    requires marked { AreMarked (survivors (rows_of rows.now)) rows.now }
    requires few { length rows.now ≤ most_rows }
    ensures flips { Flips (rows_of rows.now) (add place row) result }
    ensures visits { VisitsWithin 48 (length rows.now) steps.old steps.new }
{
    let bridge = first_bridge(rows, place, steps);
    let Some(least) = least_survivor(rows, bridge, steps) else {
        unreachable!()
    };
    let entry = entry_at(rows, least, steps);
    Flip {
        change: Change::Lose {
            bridge: Some(bridge),
            entry,
        },
        entry,
        place: place_with(least, place),
        survives: false,
    }
}

/// What is gained where the row at a place, which takes, is taken out.
pub(crate) fn gained_without<L: Ledger>(
    rows: &Tree<MarkedRow>,
    place: u32,
    row: Row,
    steps: &mut Steps<L>,
) -> Flip
    requires possible { IsPqEdit (rows_of rows.now) (cut place row) }
    requires takes { added_by row ≡ None }
    requires marked { AreMarked (survivors (rows_of rows.now)) rows.now }
    requires few { length rows.now ≤ most_rows }
    ensures flips { Flips (rows_of rows.now) (cut place row) result }
    ensures visits { VisitsWithin 48 (length rows.now) steps.old steps.new }
{
    let bridge = last_bridge(rows, place, steps);
    let Some(dead) = greatest_dead(rows, bridge, steps) else {
        unreachable!()
    };
    let entry = entry_at(rows, dead, steps);
    Flip {
        change: Change::Gain { bridge, entry },
        entry,
        place: place_without(dead, place),
        survives: true,
    }
}

/// What is lost where the row at a place, whose entry is dead, is taken out.
pub(crate) fn lost_without<L: Ledger>(
    rows: &Tree<MarkedRow>,
    place: u32,
    row: Row,
    own: Entry,
    steps: &mut Steps<L>,
) -> Flip
    requires possible { IsPqEdit (rows_of rows.now) (cut place row) }
    requires accepted { IsAccepted Pq (rows_of rows.now) (cut place row) }
    requires adds { added_by row ≡ Some own }
    requires dead { ¬ Contains (survivors (rows_of rows.now)) own }
    requires marked { AreMarked (survivors (rows_of rows.now)) rows.now }
    requires few { length rows.now ≤ most_rows }
    ensures flips { Flips (rows_of rows.now) (cut place row) result }
    ensures visits { VisitsWithin 48 (length rows.now) steps.old steps.new }
{
    let bridge = first_bridge(rows, place + 1, steps);
    let Some(least) = least_survivor(rows, bridge, steps) else {
        unreachable!()
    };
    let entry = entry_at(rows, least, steps);
    Flip {
        change: Change::Lose {
            bridge: Some(bridge),
            entry,
        },
        entry,
        place: place_without(least, place),
        survives: false,
    }
}
