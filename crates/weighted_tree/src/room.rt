//! The room of a leaf. Its vector grows by a few items at a time, and not twofold, since half of the room would then stay empty.
ghost use Rattle.std.specs.Prelude.{◌≡◌, ◌≤◌, length};
ghost use Rattle.weighted_tree.specs.Nodes.{full};

use costs::NoMemory;

/// By so many items a leaf grows.
const STEP: usize = 8;

/// The room for so many items: the next multiple of the step.
pub(crate) fn room_for(count: usize) -> usize
    requires few { count ≤ full }
    ensures enough { count ≤ result }
{
    (count + STEP - 1) / STEP * STEP
}

/// Sees to it that a leaf has room for one item more.
#[inline(always)]
pub(crate) fn make_room<T: Copy>(items: &mut Vec<T>) -> Result<(), NoMemory>
    ensures items { items.new.items ≡ items.old.items }
{
    let count = items.len();
    if count == items.capacity() {
        items.reserve_exact(STEP - count % STEP)?;
    }
    Ok(())
}

/// Gives the room back that a leaf of so many items does not need. Where there is no memory for the smaller block, the leaf keeps
/// the one that it has.
pub(crate) fn give_back<T: Copy>(items: &mut Vec<T>)
    requires few { length items.old.items ≤ full }
    ensures items { items.new.items ≡ items.old.items }
{
    let room = room_for(items.len());
    items.shrink_to(room);
}
