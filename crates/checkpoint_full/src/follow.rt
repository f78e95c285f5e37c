//! An edit of the timeline, at the present and at each checkpoint after its place.
ghost use Rattle.std.specs.Prelude.{◌≡◌, ◌<◌, ◌≤◌, slice_get, map, Some, IfOk, OnOk, OnErr};
ghost use Rattle.std.specs.List.{remove, AllByRecursion};
ghost use Rattle.retro_base.specs.Changes.{IsChange};
ghost use Rattle.retro_base.specs.Edits.{add, cut};
ghost use Rattle.retro_base.specs.Replay.{IsValid};
ghost use Rattle.retro_base.specs.Timeline.{IsReplayable};
ghost use Rattle.costs.specs.Visits.{OpensCounter};
ghost use Rattle.checkpoint_full.specs.Checkpoints.{after, place_of, with_row, without_row, CanFollow, CanLose, CanTake, HoldsFirstRows};

use crate::snapshot::Snapshot;
use retro_base::{Change, NoMemory, Partial, Row, Steps};
use std::sync::ledger::{Blank, Ledger};

/// Puts the row into a checkpoint that stands after the place. After `NoMemory` all is as before.
fn insert_in<P: Partial + Drop, L: Ledger>(
    checkpoint: &mut Snapshot<P>,
    place: u32,
    row: Row,
    steps: &mut Steps<L>,
) -> Result<(), NoMemory>
    requires { CanFollow place row checkpoint.old }
    ensures ok { OnOk result (checkpoint.new ≡ with_row place row checkpoint.old) }
    ensures err { OnErr result (checkpoint.new ≡ checkpoint.old) }
{
    if checkpoint.is_after(place) {
        checkpoint.insert(place, row, steps)?;
    }
    Ok(())
}

/// Takes the row at the place out of a checkpoint that stands after it.
fn remove_in<P: Partial + Drop, L: Ledger>(
    checkpoint: &mut Snapshot<P>,
    place: u32,
    steps: &mut Steps<L>,
)
    requires { CanLose place checkpoint.old }
    ensures { checkpoint.new ≡ without_row place checkpoint.old }
{
    if checkpoint.is_after(place) {
        checkpoint.remove(place, steps);
    }
}

/// Takes the row at the place out of each checkpoint that stands after it.
pub(crate) fn remove_in_each<P: Partial + Drop, L: Ledger>(
    checkpoints: &mut [Snapshot<P>],
    place: u32,
    steps: &mut Steps<L>,
)
    requires { AllByRecursion (CanLose place) checkpoints.old }
    ensures { checkpoints.new ≡ map (without_row place) checkpoints.old }
{
    for checkpoint in checkpoints.iter_mut() {
        remove_in(checkpoint, place, steps);
    }
}

/// Puts the row into each checkpoint that stands after the place. After `NoMemory` it is taken back from the first
/// ones, and all are as before.
pub(crate) fn insert_in_each<P: Partial + Drop, L: Ledger>(
    checkpoints: &mut [Snapshot<P>],
    place: u32,
    row: Row,
    steps: &mut Steps<L>,
) -> Result<(), NoMemory>
    requires { AllByRecursion (CanFollow place row) checkpoints.old }
    ensures ok { OnOk result (checkpoints.new ≡ map (with_row place row) checkpoints.old) }
    ensures err { OnErr result (checkpoints.new ≡ checkpoints.old) }
{
    for index in 0..checkpoints.len() {
        if let Err(error) = insert_in(&mut checkpoints[index], place, row, steps) {
            let (first, _) = checkpoints.split_at_mut(index);
            remove_in_each(first, place, steps);
            return Err(error);
        }
    }
    Ok(())
}

/// Puts the row into the present and into each checkpoint that stands after the place. After `NoMemory` all are as
/// before. It opens a counter of its own.
pub(crate) fn insert_everywhere<P: Partial + Drop, L: Ledger>(
    present: &mut Snapshot<P>,
    checkpoints: &mut [Snapshot<P>],
    place: u32,
    row: Row,
    blank: Blank,
) -> Result<Change, NoMemory>
    requires within { place ≤ place_of present.old }
    requires can { CanTake present.old place row }
    requires first { AllByRecursion (HoldsFirstRows present.old) checkpoints.old }
    requires counter { OpensCounter blank.name L.name blank.parts L.parts }
    ensures present { OnOk result (present.new ≡ after present.old (add place row)) }
    ensures before { IsReplayable present.old.kind present.old.rows }
    ensures checkpoints { OnOk result (checkpoints.new ≡ map (with_row place row) checkpoints.old) }
    ensures replayable { IsReplayable present.new.kind present.new.rows }
    ensures change { IfOk result (IsChange present.old.kind present.old.rows (add place row)) }
    ensures err { OnErr result ((present.new ≡ present.old) × (checkpoints.new ≡ checkpoints.old)) }
{
    let mut steps = Steps::<L>::new(blank);
    let change = present.insert(place, row, &mut steps)?;
    if let Err(error) = insert_in_each(checkpoints, place, row, &mut steps) {
        present.remove(place, &mut steps);
        return Err(error);
    }
    Ok(change)
}

/// Takes the row at the place out of the present and of each checkpoint that stands after it. It takes no memory,
/// and opens a counter of its own.
pub(crate) fn remove_everywhere<P: Partial + Drop, L: Ledger>(
    present: &mut Snapshot<P>,
    checkpoints: &mut [Snapshot<P>],
    place: u32,
    blank: Blank,
) -> (Row, Change)
    requires within { place < place_of present.old }
    requires replays { IsValid present.old.kind (remove present.old.rows place) }
    requires first { AllByRecursion (HoldsFirstRows present.old) checkpoints.old }
    requires counter { OpensCounter blank.name L.name blank.parts L.parts }
    ensures row { slice_get present.old.rows place ≡ Some result.0 }
    ensures present { present.new ≡ after present.old (cut place result.0) }
    ensures checkpoints { checkpoints.new ≡ map (without_row place) checkpoints.old }
    ensures replayable { IsReplayable present.new.kind present.new.rows }
    ensures change { IsChange present.old.kind present.old.rows (cut place result.0) result.1 }
{
    let mut steps = Steps::<L>::new(blank);
    remove_in_each(checkpoints, place, &mut steps);
    present.remove(place, &mut steps)
}
