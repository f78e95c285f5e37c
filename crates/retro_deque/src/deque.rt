//! The deque.

use prefix_trees::{LineRows, RetroLine, Sequence};
use retro_base::{Kind, Steps};
use std::sync::ledger::Ledger;

/// A deque whose past can be edited, which contracts see as its rows.
pub type RetroDeque = RetroLine<Deque>;

/// The kind whose rows put items in at either end of a line, and take them there.
pub struct Deque;

impl Sequence for Deque {
    ghost use Rattle.retro_base.specs.declared.kind.Kind.TheVariants.{Deque};

    ghost kind = { Deque };

    ghost is_line = { tt };

    fn kind() -> Kind {
        Kind::Deque
    }

    fn written_by<L: Ledger>(
        rows: &LineRows,
        place: u32,
        size: i64,
        index: u32,
        steps: &mut Steps<L>,
    ) -> Option<u32> {
        let at_left = i64::from(index) + 1;
        let at_right = size - i64::from(index);
        rows.last_growing_at_either(place, at_left, at_right, steps)
    }
}
