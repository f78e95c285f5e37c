//! The labels beside a place.

ghost use Rattle.std.specs.Prelude.{◌≤◌, length};
ghost use Rattle.order_labels.specs.LabelsBeside.{IsBeside};

use crate::spread::{LIMIT, Label};
use weighted_tree::{Tree, uncounted};

/// The labels beside a place: 0 stands before all labels, and their limit after them.
#[derive(Clone, Copy, Debug, PartialEq, Eq)]
pub struct LabelsBeside {
    /// The last label but one before the place.
    pub former: u64,
    /// The last one before it.
    pub before: u64,
    /// The first one from it on.
    pub after: u64,
    /// The second one from it on.
    pub later: u64,
}

/// The labels beside a place, by one way down the tree.
pub(crate) fn labels_beside(rows: &Tree<Label>, place: u32) -> LabelsBeside
    requires { place ≤ length rows.now }
    ensures { IsBeside rows.now place result }
{
    let count = place.min(2);
    let mut labels = [0, 0, LIMIT, LIMIT];
    uncounted::read(
        rows,
        place - count,
        |row: &Label| row.value(),
        &mut labels[2 - count as usize..],
    );
    LabelsBeside {
        former: labels[0],
        before: labels[1],
        after: labels[2],
        later: labels[3],
    }
}
