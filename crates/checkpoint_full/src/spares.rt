//! Structures that were checkpoints. They are laid aside where they stood and follow each edit, so that a checkpoint that is
//! wanted near there again needs no copy: where rows come and go between two neighbours that are a width apart, one is made
//! between them and dropped again by turns.
ghost use Rattle.std.specs.Prelude.{◌≡◌, ◌+◌, ◌-◌, ◌≤◌, ◌⊎◌, [], length, map, position, IfSome, IfOk};
ghost use Rattle.std.specs.List.{AllByRecursion};
ghost use Rattle.costs.specs.Visits.{OpensCounter};
ghost use Rattle.checkpoint_full.specs.Checkpoints.{first_of, place_of, stands_within, with_row, without_row, CanFollow, CanLose, HoldsFirstRows};
ghost use Rattle.checkpoint_full.specs.Widths.{most_checkpoints};

use crate::follow::{insert_in_each, remove_in_each};
use crate::snapshot::Snapshot;
use crate::width::MOST_CHECKPOINTS;
use retro_base::{NoMemory, Partial, Row, Steps};
use std::sync::ledger::{Blank, Ledger};

/// Lays a structure aside, before the others, where there is memory for that.
pub(crate) fn lay_aside<P: Partial + Drop>(
    timeline: &Snapshot<P>,
    spares: &mut Vec<Snapshot<P>>,
    spare: Snapshot<P>,
)
    requires holds { HoldsFirstRows timeline.now spare }
    requires first { AllByRecursion (HoldsFirstRows timeline.now) spares.old.items }
    ensures first { AllByRecursion (HoldsFirstRows timeline.now) spares.new.items }
{
    let _laid = spares.insert(0, spare).is_ok();
}

/// Whether it stands between two places, or at one of them.
fn is_within<P: Partial + Drop>(spare: &Snapshot<P>, from: u32, to: u32) -> bool
    ensures { result ≡ stands_within from to spare.now }
{
    from <= spare.place() && spare.place() <= to
}

/// The index of the one that was laid aside last of those between two places.
fn found_between<P: Partial + Drop>(spares: &[Snapshot<P>], from: u32, to: u32) -> Option<usize>
    ensures { result ≡ position (λ spare. stands_within from to spare) spares.now }
{
    spares.iter().position(|spare| is_within(spare, from, to))
}

/// Takes the one out that was laid aside last of those between two places, where there is one.
pub(crate) fn take_between<P: Partial + Drop>(
    timeline: &Snapshot<P>,
    spares: &mut Vec<Snapshot<P>>,
    from: u32,
    to: u32,
) -> Option<Snapshot<P>>
    requires first { AllByRecursion (HoldsFirstRows timeline.now) spares.old.items }
    ensures first { AllByRecursion (HoldsFirstRows timeline.now) spares.new.items }
    ensures taken { IfSome result (λ spare. HoldsFirstRows timeline.now spare × (place_of spare ≤ to)) }
{
    let Some(index) = found_between(spares.as_slice(), from, to) else {
        return None;
    };
    Some(spares.remove(index))
}

/// Moves a structure to a place of a later one.
fn moved_to<P: Partial + Drop>(
    spare: Snapshot<P>,
    later: &Snapshot<P>,
    place: u32,
) -> Result<Snapshot<P>, NoMemory>
    requires first { HoldsFirstRows later.now spare }
    requires within { place ≤ place_of later.now }
    ensures { IfOk result (λ moved. moved ≡ first_of place later.now) }
{
    let mut spare = spare;
    spare.bring_to(later, place)?;
    Ok(spare)
}

/// A structure at a place between two neighbours: one that was laid aside between them and is moved there, or a copy of the
/// later neighbour without its last rows.
pub(crate) fn stand_between<P: Partial + Drop>(
    timeline: &Snapshot<P>,
    spares: &mut Vec<Snapshot<P>>,
    earlier: u32,
    later: &Snapshot<P>,
    place: u32,
) -> Result<Snapshot<P>, NoMemory>
    requires first { AllByRecursion (HoldsFirstRows timeline.now) spares.old.items }
    requires later { HoldsFirstRows timeline.now later.now }
    requires within { place ≤ place_of later.now }
    ensures first { AllByRecursion (HoldsFirstRows timeline.now) spares.new.items }
    ensures made { IfOk result (λ between. between ≡ first_of place later.now) }
{
    match take_between(timeline, spares, earlier, later.place()) {
        Some(spare) => moved_to(spare, later, place),
        None => later.copy_at(place),
    }
}

/// Puts the row into each that stands after the place. Where there is no memory for that, none is kept. It opens
/// a counter of its own.
pub(crate) fn insert_in_spares<P: Partial + Drop, L: Ledger>(
    spares: &mut Vec<Snapshot<P>>,
    place: u32,
    row: Row,
    blank: Blank,
)
    requires follow { AllByRecursion (CanFollow place row) spares.old.items }
    requires counter { OpensCounter blank.name L.name blank.parts L.parts }
    ensures { (spares.new.items ≡ map (with_row place row) spares.old.items) ⊎ (spares.new.items ≡ []) }
{
    let mut steps = Steps::<L>::new(blank);
    if let Err(_error) = insert_in_each(spares.as_mut_slice(), place, row, &mut steps) {
        spares.truncate(0);
    }
}

/// Takes the row at the place out of each that stands after it. It opens a counter of its own.
pub(crate) fn remove_in_spares<P: Partial + Drop, L: Ledger>(
    spares: &mut Vec<Snapshot<P>>,
    place: u32,
    blank: Blank,
)
    requires lose { AllByRecursion (CanLose place) spares.old.items }
    requires counter { OpensCounter blank.name L.name blank.parts L.parts }
    ensures { spares.new.items ≡ map (without_row place) spares.old.items }
{
    let mut steps = Steps::<L>::new(blank);
    remove_in_each(spares.as_mut_slice(), place, &mut steps);
}

/// Lets those go that were laid aside first, where there are more structures than there may be checkpoints.
pub(crate) fn keep_few<P: Partial + Drop>(
    timeline: &Snapshot<P>,
    spares: &mut Vec<Snapshot<P>>,
    checkpoints: usize,
)
    requires first { AllByRecursion (HoldsFirstRows timeline.now) spares.old.items }
    ensures first { AllByRecursion (HoldsFirstRows timeline.now) spares.new.items }
    ensures few { length spares.new.items ≤ 1 + most_checkpoints - checkpoints }
{
    spares.truncate((1 + MOST_CHECKPOINTS as usize).saturating_sub(checkpoints));
}
