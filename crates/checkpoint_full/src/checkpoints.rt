//! The checkpoints of a timeline, the latest first: how they are made, and which is nearest to a place.
ghost use Rattle.std.specs.Prelude.{◌≡◌, ◌+◌, ◌-◌, ◌*◌, ◌/◌, ◌<◌, ◌≤◌, ◌∷◌, nat_le, length, get_or, map, position, true, IfOk, IfSome, OnOk, OnErr};
ghost use Rattle.std.specs.List.{AllByRecursion};
ghost use Rattle.checkpoint_full.specs.Checkpoints.{place_of, places_of, were_made, without_made, AreCheckpoints, AreSettled, FitsBetween, HoldsFirstRows, KeepsCheckpoints};
ghost use Rattle.checkpoint_full.specs.Rule.{between, with_room};
ghost use Rattle.checkpoint_full.specs.Widths.{made_places, most_checkpoints, multiples_below, IsWidth};

use crate::snapshot::Snapshot;
use crate::spares::stand_between;
use retro_base::{NoMemory, Partial};
use std::alloc::Global;

/// The index of the latest checkpoint that is not after the place; none where none were made.
pub(crate) fn nearest<P: Partial + Drop>(checkpoints: &[Snapshot<P>], place: u32) -> Option<usize>
    ensures { result ≡ position (λ checkpoint. nat_le (place_of checkpoint) place) checkpoints.now }
{
    checkpoints
        .iter()
        .position(|checkpoint| checkpoint.place() <= place)
}

/// The place of the first checkpoint that is made: the last multiple of the width before so many rows.
fn first_made(rows: u32, width: u32) -> u32
    requires { 0 < width }
    ensures within { (result ≤ rows) × (rows ≤ result + width) }
    ensures before { 0 < result → result < rows }
    ensures last { result ≡ multiples_below width rows * width }
{
    rows.saturating_sub(1) / width * width
}

/// Makes the checkpoints of a timeline, at the start and at each multiple of the width below the number of rows. Each of
/// them is a copy of the next one without its last rows.
pub(crate) fn make<P: Partial + Drop>(
    alloc: Global,
    present: &Snapshot<P>,
    width: u32,
) -> Result<Vec<Snapshot<P>>, NoMemory>
    requires of_widths { IsWidth width }
    requires few { multiples_below width (place_of present.now) ≤ most_checkpoints }
    ensures made { IfOk result (λ checkpoints. were_made checkpoints.items ≡ true) }
    ensures checkpoints { IfOk result (λ checkpoints. AreCheckpoints width present.now checkpoints.items) }
    ensures places { IfOk result (λ checkpoints. places_of checkpoints.items ≡ made_places width (place_of present.now)) }
    ensures settled { IfOk result (λ checkpoints. AreSettled width present.now checkpoints.items) }
{
    let mut checkpoints = Vec::new(alloc);
    let mut latest = present.copy_at(first_made(present.place(), width))?;
    while latest.place() > 0 {
        let earlier = latest.copy_at(latest.place().saturating_sub(width))?;
        checkpoints.push(latest)?;
        latest = earlier;
    }
    checkpoints.push(latest)?;
    Ok(checkpoints)
}

/// The neighbour after the checkpoint at the index: a checkpoint, or the present.
pub(crate) fn neighbour_after<'a, P: Partial + Drop>(
    present: &'a Snapshot<P>,
    checkpoints: &'a [Snapshot<P>],
    index: usize,
) -> &'a Snapshot<P>
    requires { index ≤ length checkpoints.now }
    ensures { result.now ≡ get_or (present.now ∷ checkpoints.now) index present.now }
{
    if index == 0 {
        present
    } else {
        &checkpoints[index - 1]
    }
}

/// Where a checkpoint is made between two neighbours, for a row that is put in at a place: before a row that comes
/// after all others, and in the middle otherwise.
fn place_between(earlier: u32, later: u32, place: u32) -> u32
    requires apart { earlier + 2 ≤ later }
    ensures within { (earlier < result) × (result ≤ later) }
    ensures end { result ≡ later → place ≡ later }
    ensures place { result ≡ between earlier later place }
{
    if place == later {
        later
    } else {
        earlier + (later - earlier) / 2
    }
}

/// Makes a checkpoint between the neighbours of the place where one more row would not fit between them, and answers its
/// index where it made one: one that was laid aside, or a copy. After `NoMemory` all are as before.
pub(crate) fn make_room<P: Partial + Drop>(
    present: &Snapshot<P>,
    checkpoints: &mut Vec<Snapshot<P>>,
    spares: &mut Vec<Snapshot<P>>,
    width: u32,
    place: u32,
) -> Result<Option<usize>, NoMemory>
    requires of_widths { IsWidth width }
    requires within { place ≤ place_of present.now }
    requires keeps { KeepsCheckpoints width present.now checkpoints.old.items }
    requires spares { AllByRecursion (HoldsFirstRows present.now) spares.old.items }
    ensures keeps { OnOk result (KeepsCheckpoints width present.now checkpoints.new.items) }
    ensures places { OnOk result (map place_of checkpoints.new.items ≡ with_room width place (place_of present.now) (map place_of checkpoints.old.items)) }
    ensures room { OnOk result (FitsBetween width place (place_of present.now) (map place_of checkpoints.new.items)) }
    ensures made { OnOk result (were_made checkpoints.new.items ≡ were_made checkpoints.old.items) }
    ensures one { OnOk result (length checkpoints.new.items ≤ 1 + length checkpoints.old.items) }
    ensures back { IfOk result (λ split. without_made split checkpoints.new.items ≡ checkpoints.old.items) }
    ensures index { IfOk result (λ split. IfSome split (λ index. index < length checkpoints.new.items)) }
    ensures err { OnErr result (checkpoints.new.items ≡ checkpoints.old.items) }
    ensures spares { AllByRecursion (HoldsFirstRows present.now) spares.new.items }
{
    let Some(index) = nearest(checkpoints.as_slice(), place) else {
        return Ok(None);
    };
    let earlier = checkpoints[index].place();
    let later = neighbour_after(present, checkpoints.as_slice(), index);
    if later.place() < earlier + width {
        return Ok(None);
    }
    let at = place_between(earlier, later.place(), place);
    let between = stand_between(present, spares, earlier, later, at)?;
    checkpoints.insert(index, between)?;
    Ok(Some(index))
}

/// Drops the checkpoint at the index where one was made. It takes no memory.
pub(crate) fn drop_made<P: Partial + Drop>(checkpoints: &mut Vec<Snapshot<P>>, split: Option<usize>)
    requires { IfSome split (λ index. index < length checkpoints.old.items) }
    ensures { checkpoints.new.items ≡ without_made split checkpoints.old.items }
{
    if let Some(index) = split {
        checkpoints.remove(index);
    }
}
