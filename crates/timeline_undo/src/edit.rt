//! List edits, made in the timeline and in the structure.

ghost use Rattle.std.specs.Prelude.{◌≡◌, ◌≤◌, ◌<◌, length, slice_get, Some, IfOk, IfErr, OnErr};
ghost use Rattle.std.specs.List.{insert, remove};
ghost use Rattle.retro_base.specs.Edits.{add, cut, edited, edited_by, inverse, IsWithin};
ghost use Rattle.retro_base.specs.MadeEdits.{IsMade};
ghost use Rattle.retro_base.specs.Timeline.{IsReplayable, TimesNeverFall};
ghost use Rattle.timeline_undo.specs.KeptSteps.{AreReady, IsLeftMidway, taken_back};
ghost use Rattle.timeline_undo.specs.Session.{AreMade, edit_reported, step_reported};

use crate::{Turn, Turns};
use order_timeline::Timeline;
use retro_base::{NoMemory, Retro, Row};

/// Where a step met out of memory.
#[derive(Clone, Copy)]
pub(crate) enum Interrupted {
    /// In its first edit: nothing was edited.
    AtOnce,
    /// In its second edit: the first one was made.
    Midway,
}

/// Takes a step back, in the timeline and in the structure: makes the inverses of its edits, that of the last one first.
pub(crate) fn take_back<R: Retro>(
    timeline: &mut Timeline,
    structure: &mut R,
    step: Turns,
) -> Result<Turns, Interrupted>
    requires same { R.rows structure.old ≡ timeline.old }
    requires before { IsReplayable (R.kind structure.old) timeline.old }
    requires ready { AreReady (R.kind structure.old) timeline.old (taken_back step) }
    ensures kind { R.kind structure.new ≡ R.kind structure.old }
    ensures same { R.rows structure.new ≡ timeline.new }
    ensures rows { IfOk result (λ _. timeline.new ≡ edited_by timeline.old (taken_back step)) }
    ensures reported { IfOk result (λ turns. step_reported turns ≡ taken_back step) }
    ensures made { IfOk result (AreMade (R.kind structure.old) timeline.old) }
    ensures err { IfErr result (IsLeftMidway timeline.old (taken_back step) timeline.new) }
{
    match step {
        Turns::Single { turn } => match take_turn_back(timeline, structure, turn) {
            Ok(turn) => Ok(Turns::Single { turn }),
            Err(NoMemory) => Err(Interrupted::AtOnce),
        },
        Turns::Double { first, second } => {
            let Ok(second_back) = take_turn_back(timeline, structure, second) else {
                return Err(Interrupted::AtOnce);
            };
            match take_turn_back(timeline, structure, first) {
                Ok(first_back) => Ok(Turns::Double {
                    first: second_back,
                    second: first_back,
                }),
                Err(NoMemory) => Err(Interrupted::Midway),
            }
        }
    }
}

/// Takes a list edit back, in both. After `NoMemory` both are as before.
fn take_turn_back<R: Retro>(
    timeline: &mut Timeline,
    structure: &mut R,
    turn: Turn,
) -> Result<Turn, NoMemory>
    requires same { R.rows structure.old ≡ timeline.old }
    requires before { IsReplayable (R.kind structure.old) timeline.old }
    requires within { IsWithin timeline.old (inverse (edit_reported turn)) }
    requires in_order { TimesNeverFall (edited timeline.old (inverse (edit_reported turn))) }
    requires replayable { IsReplayable (R.kind structure.old) (edited timeline.old (inverse (edit_reported turn))) }
    ensures kind { R.kind structure.new ≡ R.kind structure.old }
    ensures same { R.rows structure.new ≡ timeline.new }
    ensures rows { IfOk result (λ _. timeline.new ≡ edited timeline.old (inverse (edit_reported turn))) }
    ensures reported { IfOk result (λ back. edit_reported back ≡ inverse (edit_reported turn)) }
    ensures made { IfOk result (λ back. IsMade (R.kind structure.old) timeline.old (edit_reported back) back.change) }
    ensures err { OnErr result (timeline.new ≡ timeline.old) }
{
    if turn.added {
        take_from_both(timeline, structure, turn.place)
    } else {
        put_in_both(timeline, structure, turn.place, turn.row)
    }
}

/// Puts a row in at a place, in both. After `NoMemory` both are as before.
pub(crate) fn put_in_both<R: Retro>(
    timeline: &mut Timeline,
    structure: &mut R,
    place: u32,
    row: Row,
) -> Result<Turn, NoMemory>
    requires same { R.rows structure.old ≡ timeline.old }
    requires before { IsReplayable (R.kind structure.old) timeline.old }
    requires within { place ≤ length timeline.old }
    requires in_order { TimesNeverFall (insert timeline.old place row) }
    requires replayable { IsReplayable (R.kind structure.old) (insert timeline.old place row) }
    ensures kind { R.kind structure.new ≡ R.kind structure.old }
    ensures same { R.rows structure.new ≡ timeline.new }
    ensures rows { IfOk result (λ _. timeline.new ≡ insert timeline.old place row) }
    ensures row { IfOk result (λ turn. turn.row ≡ row) }
    ensures reported { IfOk result (λ turn. edit_reported turn ≡ add place row) }
    ensures made { IfOk result (λ turn. IsMade (R.kind structure.old) timeline.old (edit_reported turn) turn.change) }
    ensures err { OnErr result (timeline.new ≡ timeline.old) }
{
    timeline.insert(place, row)?;
    match structure.insert(place, row) {
        Ok(change) => Ok(Turn {
            added: true,
            place,
            row,
            change,
        }),
        Err(NoMemory) => {
            timeline.remove(place);
            Err(NoMemory)
        }
    }
}

/// Takes the row at a place out, in both. After `NoMemory` both are as before.
pub(crate) fn take_from_both<R: Retro>(
    timeline: &mut Timeline,
    structure: &mut R,
    place: u32,
) -> Result<Turn, NoMemory>
    requires same { R.rows structure.old ≡ timeline.old }
    requires before { IsReplayable (R.kind structure.old) timeline.old }
    requires within { place < length timeline.old }
    requires replayable { IsReplayable (R.kind structure.old) (remove timeline.old place) }
    ensures kind { R.kind structure.new ≡ R.kind structure.old }
    ensures same { R.rows structure.new ≡ timeline.new }
    ensures rows { IfOk result (λ _. timeline.new ≡ remove timeline.old place) }
    ensures row { IfOk result (λ turn. slice_get timeline.old place ≡ Some turn.row) }
    ensures reported { IfOk result (λ turn. edit_reported turn ≡ cut place turn.row) }
    ensures made { IfOk result (λ turn. IsMade (R.kind structure.old) timeline.old (edit_reported turn) turn.change) }
    ensures err { OnErr result (timeline.new ≡ timeline.old) }
{
    let (row, change) = structure.remove(place)?;
    timeline.remove(place);
    Ok(Turn {
        added: false,
        place,
        row,
        change,
    })
}
