//! The stack.

use prefix_trees::{End, LineRows, RetroLine, Sequence};
use retro_base::{Kind, Steps};
use std::sync::ledger::Ledger;

/// A stack whose past can be edited, which contracts see as its rows.
pub type RetroStack = RetroLine<Stack>;

/// The kind whose rows put items in at the left end of a line, and take them there.
pub struct Stack;

impl Sequence for Stack {
    ghost use Rattle.retro_base.specs.declared.kind.Kind.TheVariants.{Stack};

    ghost kind = { Stack };

    ghost is_line = { tt };

    fn kind() -> Kind {
        Kind::Stack
    }

    fn written_by<L: Ledger>(
        rows: &LineRows,
        place: u32,
        _: i64,
        index: u32,
        steps: &mut Steps<L>,
    ) -> Option<u32> {
        let count = i64::from(index) + 1;
        rows.last_growing(End::Left, place, count, steps)
    }
}
