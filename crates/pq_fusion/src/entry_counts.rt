//! How many entries some rows leave, and how many of these do not come before a given one.

ghost use Rattle.std.specs.Prelude.{◌≡◌, ◌+◌, ◌≤◌, [], ◌∷◌, length};
ghost use Rattle.retro_base.specs.declared.kind.Kind.TheVariants.{Pq};
ghost use Rattle.retro_base.specs.EntriesInOrder.{AreInOrder};
ghost use Rattle.retro_base.specs.Kind.{kind_of};
ghost use Rattle.retro_base.specs.Limits.{most_rows};
ghost use Rattle.retro_base.specs.Timeline.{AreOfKind};
ghost use Rattle.pq_fusion.specs.Pieces.{PieceParts, fuse};
ghost use Rattle.pq_fusion.specs.Searches.{SearchesPiece, SearchesWithin, VisitsUpTo};
ghost use Rattle.pq_fusion.specs.EntryCounts.{reaching, counts_of, LeadsCounts};

use crate::exchange::place_of;
use crate::node_piece::NodePiece;
use retro_base::{Entry, PackedRow, Row, Steps};
use std::sync::ledger::Ledger;

/// How many entries some rows leave, and how many of these do not come before a given one.
#[derive(Clone, Copy)]
pub(crate) struct EntryCounts {
    pub(crate) left: u32,
    pub(crate) reaching: u32,
}

impl EntryCounts {
    /// The counts where the rows of a piece follow.
    pub(crate) fn after_piece<L: Ledger>(
        self,
        bound: Entry,
        piece: &NodePiece,
        steps: &mut Steps<L>,
    ) -> EntryCounts
        requires few { self.left + length piece.now.left ≤ most_rows }
        ensures counts { (first : PieceParts) → self ≡ counts_of bound first.left → result ≡ counts_of bound (fuse first piece.now).left }
        ensures few { result.left ≤ self.left + length piece.now.left }
        ensures visits { SearchesPiece 0 (length piece.now.left + length piece.now.removed) steps.old steps.new }
    {
        let (left, removed) = (piece.left(), piece.removed());
        let kept = self.left.saturating_sub(piece.unmet());
        let met = u64::from(self.reaching) + u64::from(removed.reaching(bound, steps));
        EntryCounts {
            left: left.len() + kept,
            reaching: left.reaching(bound, steps) + met.min(u64::from(kept)) as u32,
        }
    }

    /// The counts where one row follows.
    fn after_row(self, bound: Entry, row: Row) -> EntryCounts
        requires few { self.left + 1 ≤ most_rows }
        requires of_kind { kind_of row.op ≡ Pq }
        ensures counts { LeadsCounts bound self (row ∷ []) result }
        ensures few { result.left ≤ self.left + 1 }
    {
        let Some(entry) = row.added_entry() else {
            let left = self.left.saturating_sub(1);
            return EntryCounts {
                left,
                reaching: self.reaching.min(left),
            };
        };
        EntryCounts {
            left: self.left + 1,
            reaching: self.reaching.min(self.left) + reaches(bound, entry),
        }
    }

    /// The counts where these rows follow, one after another.
    pub(crate) fn after_rows<L: Ledger>(
        self,
        bound: Entry,
        rows: &[PackedRow],
        steps: &mut Steps<L>,
    ) -> EntryCounts
        requires few { self.left + length rows.now ≤ most_rows }
        requires of_kind { AreOfKind Pq rows.now }
        ensures counts { LeadsCounts bound self rows.now result }
        ensures few { result.left ≤ self.left + length rows.now }
        ensures visits { VisitsUpTo (length rows.now) steps.old steps.new }
    {
        let mut counts = self;
        for row in rows {
            steps.tick();
            counts = counts.after_row(bound, row.row());
        }
        counts
    }
}

/// Once where the entry does not come before the bound.
fn reaches(bound: Entry, entry: Entry) -> u32
    ensures count { result ≡ reaching bound (entry ∷ []) }
    ensures few { result ≤ 1 }
{
    if entry.comes_before(bound) { 0 } else { 1 }
}

/// How many of these entries do not come before this one, by halves.
pub(crate) fn reaching<L: Ledger>(bound: Entry, entries: &[Entry], steps: &mut Steps<L>) -> u32
    requires order { AreInOrder entries.now }
    requires few { length entries.now ≤ most_rows }
    ensures count { result ≡ reaching bound entries.now }
    ensures few { result ≤ length entries.now }
    ensures visits { SearchesWithin 1 (length entries.now) steps.old steps.new }
{
    (entries.len() - place_of(entries, bound, steps)) as u32
}
