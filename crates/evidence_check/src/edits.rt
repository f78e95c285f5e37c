//! An edit that is accepted, made in marked rows and in the numbers beside them.

ghost use Rattle.std.specs.Prelude.{◌≡◌, ◌<◌, ◌≤◌, ◌&&◌, None, Some, false, length, insert, remove, IfErr, IfSome, OnOk, OnErr};
ghost use Rattle.retro_base.specs.Limits.{most_rows};
ghost use Rattle.retro_base.specs.MarkedChange.{marked_change};
ghost use Rattle.retro_base.specs.Timeline.{HaveOwnNumbers};
ghost use Rattle.retro_base.specs.Weights.{added_as};
ghost use Rattle.evidence.specs.Evidence.{IsEvidence};
ghost use Rattle.evidence_check.specs.declared.error.CheckError.TheVariants as causes;
ghost use Rattle.evidence_check.specs.Changed.{IsChanged, is_gain, marked_where, moved_place};
ghost use Rattle.evidence_check.specs.KeptNumbers.{AreWeighed, AreNumbers};
ghost use Rattle.evidence_check.specs.Marks.{MarksSurvivors, changed_marks, edited_rows, weighed_row, rows_of};
ghost use Rattle.evidence_check.specs.Parts.{is_entry, marked_at};
ghost use Rattle.evidence_check.specs.Truth.{cause_of, has_number, has_wrong_number, reported_edit};

use crate::CheckError;
use crate::better::Sought;
use crate::changes::read_change;
use crate::numbers::Numbers;
use crate::pack::Pack;
use crate::part::Part;
use crate::search::is_entry;
use crate::weighed_row::{WeighedRow, added_entry};
use evidence::Evidence;
use retro_base::laws::one_change_is_named;
use retro_base::{Change, Entry};
use std::alloc::Global;

/// Makes the edit, and its change. Memory is taken before anything is marked: without it all is as before.
pub(crate) fn make<P: Part>(
    rows: &mut Pack<P>,
    numbers: &mut Numbers,
    evidence: &Evidence,
    alloc: Global,
) -> Result<(), CheckError>
    requires kept { AreWeighed rows.old numbers.old }
    requires evidence { IsEvidence evidence.now }
    requires truth { cause_of (rows_of rows.old) evidence.now ≡ None }
    ensures kept { AreWeighed rows.new numbers.new }
    ensures ok { OnOk result (rows.new ≡ changed_marks evidence.now.change (edited_rows rows.old evidence.now.added evidence.now.place (weighed_row evidence.now))) }
    ensures err { OnErr result (rows.new ≡ rows.old) }
    ensures cause { IfErr result (λ cause. cause ≡ causes.NoMemory) }
{
    one_change_is_named();
    read_change(rows, evidence);
    let alive = is_gain(evidence.change);
    let changed = changed_place(rows, evidence);
    if evidence.added {
        insert_row_and_number(rows, numbers, evidence, alloc)?;
        mark_moved(rows, evidence.place, changed, alive);
    } else {
        mark_at(rows, changed, alive);
        remove_row_and_number(rows, numbers, evidence);
    }
    Ok(())
}

/// Whether the entry of a change survives from now on.
fn is_gain(change: Change) -> bool
    ensures { result ≡ is_gain change }
{
    match change {
        Change::Plain => false,
        Change::Gain { .. } => true,
        Change::Lose { .. } => false,
    }
}

/// Where the row stands before the edit whose mark changes by it. There is none for the row of the edit itself.
fn changed_place<P: Part>(rows: &Pack<P>, evidence: &Evidence) -> Option<u32>
    requires kept { MarksSurvivors rows.now }
    requires read { marked_change (rows_of rows.now) (reported_edit evidence.now) ≡ Some evidence.now.change }
    ensures { IsChanged rows.now evidence.now result }
{
    match evidence.change {
        Change::Plain => None,
        Change::Gain { bridge, entry } => {
            if is_own(evidence, entry) {
                None
            } else {
                Some(rows.best_place(Sought::Dead, bridge, entry))
            }
        }
        Change::Lose { bridge: None, .. } => None,
        Change::Lose {
            bridge: Some(bridge),
            entry,
        } => Some(rows.best_place(Sought::Alive, bridge, entry)),
    }
}

/// Whether evidence puts in the row that adds this entry.
fn is_own(evidence: &Evidence, entry: Entry) -> bool
    ensures { result ≡ (evidence.now.added && is_entry (added_as evidence.now.op evidence.now.number) entry) }
{
    evidence.added && is_entry(added_entry(evidence.op, evidence.number), entry)
}

/// Marks the row, if one stands somewhere.
fn mark_at<P: Part>(rows: &mut Pack<P>, changed: Option<u32>, alive: bool)
    requires few { length rows.old ≤ most_rows }
    requires within { IfSome changed (λ place. place < length rows.old) }
    ensures { rows.new ≡ marked_where changed alive rows.old }
{
    if let Some(place) = changed {
        rows.mark(place, alive);
    }
}

/// Marks the row where it stands once another one was put in, or that one.
fn mark_moved<P: Part>(rows: &mut Pack<P>, added: u32, changed: Option<u32>, alive: bool)
    requires few { length rows.old ≤ most_rows }
    requires within { moved_place added changed < length rows.old }
    ensures { rows.new ≡ marked_at (moved_place added changed) alive rows.old }
{
    match changed {
        None => rows.mark(added, alive),
        Some(place) => {
            if place < added {
                rows.mark(place, alive);
            } else {
                rows.mark(place + 1, alive);
            }
        }
    }
}

/// Puts the row in, unmarked, and its number.
fn insert_row_and_number<P: Part>(
    rows: &mut Pack<P>,
    numbers: &mut Numbers,
    evidence: &Evidence,
    alloc: Global,
) -> Result<(), CheckError>
    requires few { length rows.old < most_rows }
    requires within { evidence.now.place ≤ length rows.old }
    requires fresh { has_number evidence.now.number (rows_of rows.old) ≡ false }
    requires numbers { AreNumbers (rows_of rows.old) numbers.old }
    ensures numbers { AreNumbers (rows_of rows.new) numbers.new }
    ensures ok { OnOk result (rows.new ≡ insert rows.old evidence.now.place (weighed_row evidence.now)) }
    ensures err { OnErr result (rows.new ≡ rows.old) }
    ensures cause { IfErr result (λ cause. cause ≡ causes.NoMemory) }
{
    numbers.insert(evidence.number)?;
    let row = WeighedRow {
        number: evidence.number,
        op: evidence.op,
        alive: false,
    };
    if let Err(cause) = rows.insert_row(evidence.place, row, alloc) {
        let _ = numbers.remove(&evidence.number);
        return Err(cause);
    }
    Ok(())
}

/// Takes the row out, and its number.
fn remove_row_and_number<P: Part>(rows: &mut Pack<P>, numbers: &mut Numbers, evidence: &Evidence)
    requires few { length rows.old ≤ most_rows }
    requires within { evidence.now.place < length rows.old }
    requires own { has_wrong_number false evidence.now.number evidence.now.place (rows_of rows.old) ≡ false }
    requires distinct { HaveOwnNumbers (rows_of rows.old) }
    requires numbers { AreNumbers (rows_of rows.old) numbers.old }
    ensures numbers { AreNumbers (rows_of rows.new) numbers.new }
    ensures rows { rows.new ≡ remove rows.old evidence.now.place }
{
    rows.remove_row(evidence.place);
    let _ = numbers.remove(&evidence.number);
}
