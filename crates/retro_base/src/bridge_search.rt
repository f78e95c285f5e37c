//! Bridges among rows, found by their weights, and what an edit changes, read off which entries survive.

ghost use Rattle.std.specs.Prelude.{◌≡◌, ◌+◌, ◌≤◌, length, pos, ◌+ℤ◌, ◌≤ℤ◌};
ghost use Rattle.retro_base.specs.Better.{comes_after, better_of};
ghost use Rattle.retro_base.specs.Bridges.{survivors, last_bridge, first_bridge};
ghost use Rattle.retro_base.specs.Carried.{IsPqHistory, IsPqEdit};
ghost use Rattle.retro_base.specs.Edits.{add, cut};
ghost use Rattle.retro_base.specs.Limits.{most_rows};
ghost use Rattle.retro_base.specs.MarkedChange.{alive_entry, dead_entry, gained, greatest_dead, least_survivor, lost, marked_change};
ghost use Rattle.retro_base.specs.State.{comes_before};
ghost use Rattle.retro_base.specs.Weights.{added_by, weight_as};

use crate::entries::Entries;
use crate::{Change, Entry, Row};

/// How many dead entries are held after one more row, by how many were held before it: its weight is added.
fn dead_after(alive: &Entries, dead: u32, row: Row) -> u32
    requires room { dead ≤ most_rows }
    requires held { pos 0 ≤ℤ (pos dead +ℤ weight_as alive.now (added_by row)) }
    ensures weighs { pos result ≡ pos dead +ℤ weight_as alive.now (added_by row) }
    ensures few { result ≤ dead + 1 }
{
    match row.added_entry() {
        Some(entry) if alive.contains(entry) => dead,
        Some(_) => dead + 1,
        None => dead - 1,
    }
}

/// The last bridge up to a place. The place after all rows is one, and is not looked for.
fn last_bridge(alive: &Entries, rows: &[Row], place: usize) -> u32
    requires history { IsPqHistory rows.now }
    requires few { length rows.now ≤ most_rows }
    requires alive { alive.now ≡ survivors rows.now }
    requires within { place ≤ length rows.now }
    ensures bridge { result ≡ last_bridge rows.now place }
    ensures within { result ≤ place }
{
    if place == rows.len() {
        return place as u32;
    }
    let (before, _) = rows.split_at(place);
    let mut bridge = 0;
    let mut dead = 0;
    for (index, row) in before.iter().enumerate() {
        dead = dead_after(alive, dead, *row);
        if dead == 0 {
            bridge = index as u32 + 1;
        }
    }
    bridge
}

/// The first bridge from a place on.
fn first_bridge(alive: &Entries, rows: &[Row], place: usize) -> u32
    requires history { IsPqHistory rows.now }
    requires few { length rows.now ≤ most_rows }
    requires alive { alive.now ≡ survivors rows.now }
    requires within { place ≤ length rows.now }
    ensures bridge { result ≡ first_bridge rows.now place }
    ensures within { result ≤ length rows.now }
{
    if place == rows.len() {
        return place as u32;
    }
    let mut dead = 0;
    for (index, row) in rows.iter().enumerate() {
        if place <= index && dead == 0 {
            return index as u32;
        }
        dead = dead_after(alive, dead, *row);
    }
    rows.len() as u32
}

/// The greater of two entries that may be there.
fn greater(best: Option<Entry>, entry: Option<Entry>) -> Option<Entry>
    ensures { result ≡ better_of comes_before best entry }
{
    match (best, entry) {
        (Some(first), Some(second)) if first.comes_before(second) => entry,
        (None, _) => entry,
        _ => best,
    }
}

/// The lesser of two entries that may be there.
fn lesser(best: Option<Entry>, entry: Option<Entry>) -> Option<Entry>
    ensures { result ≡ better_of comes_after best entry }
{
    match (best, entry) {
        (Some(first), Some(second)) if second.comes_before(first) => entry,
        (None, _) => entry,
        _ => best,
    }
}

/// The entry that a row adds, if it is dead.
fn dead_entry(alive: &Entries, row: Row) -> Option<Entry>
    ensures { result ≡ dead_entry alive.now row }
{
    row.added_entry().filter(|entry| !alive.contains(*entry))
}

/// The entry that a row adds, if it survives.
fn alive_entry(alive: &Entries, row: Row) -> Option<Entry>
    ensures { result ≡ alive_entry alive.now row }
{
    row.added_entry().filter(|entry| alive.contains(*entry))
}

/// The greatest dead entry from a place on.
fn greatest_dead(alive: &Entries, rows: &[Row], place: usize) -> Option<Entry>
    requires alive { alive.now ≡ survivors rows.now }
    requires within { place ≤ length rows.now }
    ensures { result ≡ greatest_dead rows.now place }
{
    let (_, after) = rows.split_at(place);
    after
        .iter()
        .fold(None, |best, row| greater(best, dead_entry(alive, *row)))
}

/// The least survivor before a place. Before the end it is the least of all.
fn least_survivor(alive: &Entries, rows: &[Row], place: usize) -> Option<Entry>
    requires history { IsPqHistory rows.now }
    requires alive { alive.now ≡ survivors rows.now }
    requires within { place ≤ length rows.now }
    ensures { result ≡ least_survivor rows.now place }
{
    if place == rows.len() {
        return alive.get(0);
    }
    let (before, _) = rows.split_at(place);
    before
        .iter()
        .fold(None, |best, row| lesser(best, alive_entry(alive, *row)))
}

/// The greatest of an entry and the dead ones from a bridge on is gained.
fn gained(alive: &Entries, rows: &[Row], bridge: u32, new: Option<Entry>) -> Option<Change>
    requires alive { alive.now ≡ survivors rows.now }
    requires within { bridge ≤ length rows.now }
    ensures { result ≡ gained rows.now bridge new }
{
    let entry = greater(new, greatest_dead(alive, rows, bridge as usize))?;
    Some(Change::Gain { bridge, entry })
}

/// The least survivor before a bridge is lost.
fn lost(alive: &Entries, rows: &[Row], bridge: u32) -> Option<Change>
    requires history { IsPqHistory rows.now }
    requires alive { alive.now ≡ survivors rows.now }
    requires within { bridge ≤ length rows.now }
    ensures { result ≡ lost rows.now bridge }
{
    let entry = least_survivor(alive, rows, bridge as usize)?;
    Some(Change::Lose {
        bridge: Some(bridge),
        entry,
    })
}

/// What a priority queue gains or loses where a row is put in at a place.
pub(crate) fn change_with(alive: &Entries, rows: &[Row], place: usize, row: Row) -> Option<Change>
    requires possible { IsPqEdit rows.now (add place row) }
    requires few { length rows.now ≤ most_rows }
    requires alive { alive.now ≡ survivors rows.now }
    ensures { result ≡ marked_change rows.now (add place row) }
{
    match row.added_entry() {
        Some(entry) => gained(alive, rows, last_bridge(alive, rows, place), Some(entry)),
        None => lost(alive, rows, first_bridge(alive, rows, place)),
    }
}

/// What a priority queue gains or loses where this row is taken out of its place.
pub(crate) fn change_without(
    alive: &Entries,
    rows: &[Row],
    place: usize,
    row: Row,
) -> Option<Change>
    requires possible { IsPqEdit rows.now (cut place row) }
    requires few { length rows.now ≤ most_rows }
    requires alive { alive.now ≡ survivors rows.now }
    ensures { result ≡ marked_change rows.now (cut place row) }
{
    match row.added_entry() {
        Some(entry) if alive.contains(entry) => Some(Change::Lose {
            bridge: None,
            entry,
        }),
        Some(_) => lost(alive, rows, first_bridge(alive, rows, place + 1)),
        None => gained(alive, rows, last_bridge(alive, rows, place), None),
    }
}
