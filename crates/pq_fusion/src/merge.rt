//! Two rising lists together.

ghost use Rattle.std.specs.Prelude.{◌≡◌, ◌+◌, ◌^◌, ◌<◌, length, IfOk};
ghost use Rattle.retro_base.specs.EntriesInOrder.{AreInOrder};
ghost use Rattle.pq_fusion.specs.Pieces.{together};

use retro_base::{Entry, NoMemory};
use std::alloc::Global;

/// The entries of two rising lists together, in order.
pub(crate) fn merge(
    alloc: Global,
    first: &[Entry],
    second: &[Entry],
) -> Result<Vec<Entry>, NoMemory>
    requires first { AreInOrder first.now }
    requires second { AreInOrder second.now }
    requires few { length first.now + length second.now < 2 ^ 32 }
    ensures { IfOk result (λ both. both.items ≡ together first.now second.now) }
{
    let mut both = Vec::with_capacity(alloc, first.len() + second.len())?;
    let (mut i, mut j) = (0, 0);
    'merge: while i < first.len() && j < second.len() {
        if second[j].comes_before(first[i]) {
            both.push(second[j])?;
            j += 1;
        } else {
            both.push(first[i])?;
            i += 1;
        }
    }
    both.extend_from_slice(first.split_at(i).1)?;
    both.extend_from_slice(second.split_at(j).1)?;
    Ok(both)
}
