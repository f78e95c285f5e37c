//! Which checkpoints are dropped after an edit. Dropping needs no memory.
ghost use Rattle.std.specs.Prelude.{◌≡◌, ◌+◌, ◌<◌, ◌≤◌, ◌∷◌, nat_le, length, get_or, map};
ghost use Rattle.std.specs.List.{remove, AllByRecursion};
ghost use Rattle.retro_base.specs.Limits.{most_rows};
ghost use Rattle.checkpoint_full.specs.Checkpoints.{place_of, were_made, HoldsFirstRows, KeepsCheckpoints, KeepsRule};
ghost use Rattle.checkpoint_full.specs.Widths.{most_checkpoints, settled, settled_width, thinned, IsWidth};

use crate::checkpoints::neighbour_after;
use crate::snapshot::Snapshot;
use crate::spares::{lay_aside, take_between};
use crate::width::MOST_CHECKPOINTS;
use retro_base::Partial;

/// Whether the neighbours of the checkpoint at the index are at most the width apart.
fn is_between_close<P: Partial + Drop>(
    present: &Snapshot<P>,
    checkpoints: &[Snapshot<P>],
    index: usize,
    width: u32,
) -> bool
    requires there { index + 1 < length checkpoints.now }
    requires of_widths { IsWidth width }
    ensures { result ≡ nat_le (place_of (get_or (present.now ∷ checkpoints.now) index present.now)) (place_of (get_or checkpoints.now (index + 1) present.now) + width) }
{
    let later = neighbour_after(present, checkpoints, index).place();
    later <= checkpoints[index + 1].place() + width
}

/// Drops the checkpoint at the index. It is laid aside in the place of one that was laid aside between its neighbours.
fn drop_at<P: Partial + Drop>(
    present: &Snapshot<P>,
    checkpoints: &mut Vec<Snapshot<P>>,
    spares: &mut Vec<Snapshot<P>>,
    index: usize,
)
    requires there { index + 1 < length checkpoints.old.items }
    requires first { AllByRecursion (HoldsFirstRows present.now) checkpoints.old.items }
    requires spares { AllByRecursion (HoldsFirstRows present.now) spares.old.items }
    ensures items { checkpoints.new.items ≡ remove checkpoints.old.items index }
    ensures spares { AllByRecursion (HoldsFirstRows present.now) spares.new.items }
{
    let earlier = checkpoints[index + 1].place();
    let later = neighbour_after(present, checkpoints.as_slice(), index).place();
    let _replaced = take_between(present, spares, earlier, later);
    let dropped = checkpoints.remove(index);
    lay_aside(present, spares, dropped);
}

/// Drops each checkpoint whose neighbours are at most the width apart, from the latest to the start, and lays it aside.
fn thin<P: Partial + Drop>(
    present: &Snapshot<P>,
    checkpoints: &mut Vec<Snapshot<P>>,
    spares: &mut Vec<Snapshot<P>>,
    width: u32,
)
    requires of_widths { IsWidth width }
    requires first { AllByRecursion (HoldsFirstRows present.now) checkpoints.old.items }
    requires spares { AllByRecursion (HoldsFirstRows present.now) spares.old.items }
    ensures first { AllByRecursion (HoldsFirstRows present.now) checkpoints.new.items }
    ensures spares { AllByRecursion (HoldsFirstRows present.now) spares.new.items }
    ensures places { map place_of checkpoints.new.items ≡ thinned width (place_of present.now) (map place_of checkpoints.old.items) }
{
    let mut index = 0;
    while index + 1 < checkpoints.len() {
        if is_between_close(present, checkpoints.as_slice(), index, width) {
            drop_at(present, checkpoints, spares, index);
        } else {
            index += 1;
        }
    }
}

/// Drops the checkpoints that the edit left too close to one another, and answers the width: where more are left than
/// there may be, it is doubled, and they are thinned again. It lays them aside.
pub(crate) fn settle<P: Partial + Drop>(
    present: &Snapshot<P>,
    checkpoints: &mut Vec<Snapshot<P>>,
    spares: &mut Vec<Snapshot<P>>,
    width: u32,
) -> u32
    requires of_widths { IsWidth width }
    requires rows { place_of present.now ≤ most_rows }
    requires kept { KeepsCheckpoints width present.now checkpoints.old.items }
    requires few { length checkpoints.old.items ≤ 2 + most_checkpoints }
    requires spares { AllByRecursion (HoldsFirstRows present.now) spares.old.items }
    ensures width { result ≡ settled_width width (place_of present.now) (map place_of checkpoints.old.items) }
    ensures places { map place_of checkpoints.new.items ≡ settled width (place_of present.now) (map place_of checkpoints.old.items) }
    ensures keeps { KeepsRule result present.now checkpoints.new.items }
    ensures made { were_made checkpoints.new.items ≡ were_made checkpoints.old.items }
    ensures spares { AllByRecursion (HoldsFirstRows present.now) spares.new.items }
{
    thin(present, checkpoints, spares, width);
    if checkpoints.len() <= 1 + MOST_CHECKPOINTS as usize {
        return width;
    }
    let wider = 2 * width;
    thin(present, checkpoints, spares, wider);
    wider
}
