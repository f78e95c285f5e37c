//! The sides of a pair: whether an edit leaves them in balance, and what stands at their boundary.

ghost use Rattle.std.specs.Prelude.{◌≡◌, ◌+◌, ◌*◌, ◌≤◌, false, length};
ghost use Rattle.retro_base.specs.Limits.{most_rows};
ghost use Rattle.pq_fusion.specs.Edits.{boundary_of};
ghost use Rattle.pq_fusion.specs.Nodes.{IsPair, pair_rows};
ghost use Rattle.pq_fusion.specs.Passages.{IsBoundaryFor, bears, make_pair};
ghost use Rattle.pq_fusion.specs.Pieces.{tolerant};
ghost use Rattle.pq_fusion.specs.Searches.{SearchesWithin};
ghost use Rattle.pq_fusion.specs.Wear.{gap};

use crate::Bound;
use crate::boundary::boundary;
use crate::row_edit::RowEdit;
use crate::subtree::Pair;
use retro_base::Steps;
use std::sync::ledger::Ledger;

/// A pair that would have fewer rows than this is made a run.
const LEAST_PAIR: u32 = 33;

/// Whether sides of so many rows are in balance, and these those of a pair.
fn make_pair(earlier: u32, later: u32) -> bool
    requires earlier { earlier ≤ most_rows + 1 }
    requires later { later ≤ most_rows + 1 }
    ensures { result ≡ make_pair earlier later }
{
    if earlier + later < LEAST_PAIR {
        return false;
    }
    earlier < 3 * later && later < 3 * earlier
}

impl Pair {
    /// Whether the sides are in balance after an edit, and the rows those of a pair.
    pub(crate) fn bears(&self, edit: RowEdit) -> bool
        ensures bears { result ≡ bears self.now edit }
        ensures worn { result ≡ false → length (pair_rows self.now) ≤ 64 + 2 * gap (length self.now.earlier.rows) (length self.now.later.rows) }
    {
        let (earlier, later) = (self.earlier.len(), self.later.len());
        if edit.is_first(earlier) {
            return make_pair(edit.count_after(earlier), later);
        }
        make_pair(earlier, edit.count_after(later))
    }

    /// What stands at the boundary of what the later side takes of the earlier one, seen from before an edit that gains or loses.
    pub(crate) fn boundary<L: Ledger>(&self, gains: bool, steps: &mut Steps<L>) -> Bound
        requires { IsPair self.now }
        ensures boundary { result ≡ boundary_of gains (tolerant self.now.earlier.rows) (tolerant self.now.later.rows) }
        ensures visits { SearchesWithin 6 (length (pair_rows self.now)) steps.old steps.new }
    {
        let (Some(first), Some(second)) = (self.earlier.node_piece(), self.later.node_piece())
        else {
            unreachable!()
        };
        boundary(
            first.left(),
            second.removed(),
            second.takings(),
            gains,
            steps,
        )
    }

    /// The boundary where a row is edited at a place. Behind all others a row that adds an entry passes its own, and needs none.
    pub(crate) fn boundary_for<L: Ledger>(
        &self,
        place: u32,
        gains: bool,
        steps: &mut Steps<L>,
    ) -> Bound
        requires { IsPair self.now }
        ensures boundary { IsBoundaryFor gains place self.now result }
        ensures visits { SearchesWithin 6 (length (pair_rows self.now)) steps.old steps.new }
    {
        if gains && place == self.size {
            return Bound::Low;
        }
        self.boundary(gains, steps)
    }
}
