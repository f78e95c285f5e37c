//! What the first rows leave, of which the greatest product on the path is not made.

ghost use Rattle.std.specs.Prelude.{◌≡◌, ◌+◌, ◌≤◌, length, take, IfOk};
ghost use Rattle.retro_base.specs.EntriesInOrder.{AreInOrder};
ghost use Rattle.retro_base.specs.Limits.{most_rows};
ghost use Rattle.pq_fusion.specs.Pieces.{PieceParts, size_of, fuse};
ghost use Rattle.pq_fusion.specs.EntryCounts.{left_by};

use crate::Piece;
use crate::merge::merge;
use crate::node_piece::NodePiece;
use crate::root::Root;
use crate::subtree::Subtree;
use retro_base::{Entry, NoMemory};
use std::alloc::Global;

impl Piece {
    /// The entries that are left where the rows of this piece follow others, which leave `before`.
    fn left_after(&self, alloc: Global, before: &[Entry]) -> Result<Vec<Entry>, NoMemory>
        requires order { AreInOrder before.now }
        requires few { length before.now + size_of self.now ≤ most_rows }
        ensures { (first : PieceParts) → before.now ≡ first.left → IfOk result (λ left. left.items ≡ (fuse first self.now).left) }
    {
        let met = merge(alloc, before, self.removed())?;
        let kept = before.len().saturating_sub(self.unmet() as usize);
        let (_, staying) = met.split_at(met.len() - kept);
        merge(alloc, self.left(), staying)
    }
}

impl NodePiece {
    /// The entries that are left, the least first.
    fn entries_left(&self, alloc: Global) -> Result<Vec<Entry>, NoMemory>
        ensures { IfOk result (λ left. left.items ≡ self.now.left) }
    {
        let mut left = Vec::with_capacity(alloc, self.left_len() as usize)?;
        self.left().append_to(&mut left)?;
        Ok(left)
    }
}

impl Subtree {
    /// The entries that the first rows leave. Of the first piece on the path, which is the greatest, only what is left is copied.
    pub(crate) fn remaining(&self, alloc: Global, to: u32) -> Result<Vec<Entry>, NoMemory>
        requires { to ≤ length self.now.rows }
        ensures { IfOk result (λ left. left.items ≡ left_by (take to self.now.rows)) }
    {
        if to == self.len() {
            return match self.node_piece() {
                None => Ok(Vec::new(alloc)),
                Some(piece) => piece.entries_left(alloc),
            };
        }
        match self.root() {
            Root::Nothing => Ok(Vec::new(alloc)),
            Root::Run(run) => {
                let Piece { left, .. } = run.piece_of(alloc, 0, to)?;
                Ok(left)
            }
            Root::Pair(pair) => {
                let own = pair.earlier.len();
                if to <= own {
                    return pair.earlier.remaining(alloc, to);
                }
                let second = pair.later.prefix(alloc, to - own)?;
                let first = pair.earlier.remaining(alloc, own)?;
                second.left_after(alloc, first.as_slice())
            }
        }
    }
}
