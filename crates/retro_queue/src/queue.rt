//! The queue.

use prefix_trees::{End, LineRows, RetroLine, Sequence};
use retro_base::{Kind, Steps};
use std::sync::ledger::Ledger;

/// A queue whose past can be edited, which contracts see as its rows.
pub type RetroQueue = RetroLine<Queue>;

/// The kind whose rows put items in at the right end of a line, and take them at the left end.
pub struct Queue;

impl Sequence for Queue {
    ghost use Rattle.retro_base.specs.declared.kind.Kind.TheVariants.{Queue};

    ghost kind = { Queue };

    ghost is_line = { tt };

    fn kind() -> Kind {
        Kind::Queue
    }

    fn written_by<L: Ledger>(
        rows: &LineRows,
        place: u32,
        size: i64,
        index: u32,
        steps: &mut Steps<L>,
    ) -> Option<u32> {
        let count = size - i64::from(index);
        rows.last_growing(End::Right, place, count, steps)
    }
}
