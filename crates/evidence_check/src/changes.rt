//! What an edit changes, read off the marks of the rows before it.

ghost use Rattle.std.specs.Prelude.{◌≡◌, ◌≤◌, None, Some, false, length};
ghost use Rattle.retro_base.specs.Bridges.{first_bridge, last_bridge};
ghost use Rattle.retro_base.specs.Carried.{IsPqEdit};
ghost use Rattle.retro_base.specs.Limits.{most_rows};
ghost use Rattle.retro_base.specs.MarkedChange.{gained, lost, marked_change};
ghost use Rattle.evidence.specs.Evidence.{IsEvidence};
ghost use Rattle.evidence_check.specs.Marks.{MarksSurvivors, cause_against, is_alive_at, rows_of};
ghost use Rattle.evidence_check.specs.Truth.{bridge_of, cause_of, change_cause, is_outside, same_bridge, same_change, reported_edit};

use crate::CheckError;
use crate::better::{Sought, better_of};
use crate::pack::Pack;
use crate::part::Part;
use crate::rows::{first_bridge, last_bridge};
use crate::weighed_row::{added_entry, is_same};
use evidence::Evidence;
use retro_base::laws::{marks_tell_the_change, one_change_is_named};
use retro_base::{Change, Entry};

/// Why evidence is refused that tells of an edit which can be made in these rows, if it is.
pub(crate) fn change_cause<P: Part>(rows: &Pack<P>, evidence: &Evidence) -> Option<CheckError>
    requires kept { MarksSurvivors rows.now }
    requires evidence { IsEvidence evidence.now }
    requires possible { IsPqEdit (rows_of rows.now) (reported_edit evidence.now) }
    requires inside { is_outside evidence.now.added evidence.now.place (rows_of rows.now) ≡ false }
    ensures { result ≡ change_cause (rows_of rows.now) (reported_edit evidence.now) evidence.now.change }
{
    marks_tell_the_change();
    one_change_is_named();
    cause_against(evidence.change, marked_change(rows, evidence))
}

/// A law: where nothing is said against evidence, its change is the one that is read off the marks.
pub(crate) fn read_change<P: Part>(rows: &Pack<P>, evidence: &Evidence)
    requires kept { MarksSurvivors rows.now }
    requires evidence { IsEvidence evidence.now }
    requires truth { cause_of (rows_of rows.now) evidence.now ≡ None }
    ensures { marked_change (rows_of rows.now) (reported_edit evidence.now) ≡ Some evidence.now.change }
{
    marks_tell_the_change();
    one_change_is_named();
}

/// Why a change is refused where this one was read off the marks, or none.
fn cause_against(stated: Change, read: Option<Change>) -> Option<CheckError>
    ensures { result ≡ cause_against stated read }
{
    match read {
        None => Some(CheckError::Replay),
        Some(change) => {
            if !is_same_bridge(bridge_of(stated), bridge_of(change)) {
                Some(CheckError::Bridge)
            } else if !is_same_change(stated, change) {
                Some(CheckError::Entry)
            } else {
                None
            }
        }
    }
}

/// What the edit changes. There is none where the rows after it do not replay.
fn marked_change<P: Part>(rows: &Pack<P>, evidence: &Evidence) -> Option<Change>
    requires kept { MarksSurvivors rows.now }
    requires possible { IsPqEdit (rows_of rows.now) (reported_edit evidence.now) }
    requires inside { is_outside evidence.now.added evidence.now.place (rows_of rows.now) ≡ false }
    ensures { result ≡ marked_change (rows_of rows.now) (reported_edit evidence.now) }
{
    let place = evidence.place;
    let entry = added_entry(evidence.op, evidence.number);
    match (evidence.added, entry) {
        (true, None) => lost(rows, place),
        (false, None) => gained(rows, place, None),
        (true, Some(_)) => gained(rows, place, entry),
        (false, Some(entry)) => {
            if is_alive_at(rows, place) {
                Some(Change::Lose {
                    bridge: None,
                    entry,
                })
            } else {
                lost(rows, place + 1)
            }
        }
    }
}

/// The greatest of an entry and the dead ones from the last bridge up to a place is gained.
fn gained<P: Part>(rows: &Pack<P>, place: u32, new: Option<Entry>) -> Option<Change>
    requires kept { MarksSurvivors rows.now }
    requires within { place ≤ length rows.now }
    ensures { result ≡ gained (rows_of rows.now) (last_bridge (rows_of rows.now) place) new }
{
    let bridge = last_bridge(rows, place);
    let entry = better_of(Sought::Dead, new, rows.best(Sought::Dead, bridge))?;
    Some(Change::Gain { bridge, entry })
}

/// The least entry that survives from before the first bridge from a place on is lost.
fn lost<P: Part>(rows: &Pack<P>, place: u32) -> Option<Change>
    requires kept { MarksSurvivors rows.now }
    requires within { place ≤ length rows.now }
    ensures { result ≡ lost (rows_of rows.now) (first_bridge (rows_of rows.now) place) }
{
    let bridge = first_bridge(rows, place);
    let entry = rows.best(Sought::Alive, bridge)?;
    Some(Change::Lose {
        bridge: Some(bridge),
        entry,
    })
}

/// Whether the entry of the row at a place survives.
fn is_alive_at<P: Part>(rows: &Pack<P>, place: u32) -> bool
    requires { length rows.now ≤ most_rows }
    ensures { result ≡ is_alive_at rows.now place }
{
    match rows.row(place) {
        None => false,
        Some(row) => row.alive,
    }
}

/// The bridge that a change states.
fn bridge_of(change: Change) -> Option<u32>
    ensures { result ≡ bridge_of change }
{
    match change {
        Change::Plain => None,
        Change::Gain { bridge, .. } => Some(bridge),
        Change::Lose { bridge, .. } => bridge,
    }
}

fn is_same_bridge(bridge: Option<u32>, other: Option<u32>) -> bool
    ensures { result ≡ same_bridge bridge other }
{
    match (bridge, other) {
        (None, None) => true,
        (Some(first), Some(second)) => first == second,
        _ => false,
    }
}

fn is_same_change(change: Change, other: Change) -> bool
    ensures { result ≡ same_change change other }
{
    match (change, other) {
        (Change::Plain, Change::Plain) => true,
        (
            Change::Gain { bridge, entry },
            Change::Gain {
                bridge: stated,
                entry: changed,
            },
        ) => bridge == stated && is_same(entry, changed),
        (
            Change::Lose { bridge, entry },
            Change::Lose {
                bridge: stated,
                entry: changed,
            },
        ) => is_same_bridge(bridge, stated) && is_same(entry, changed),
        _ => false,
    }
}
