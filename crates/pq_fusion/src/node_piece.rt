//! What the rows of a node come to, in two lists that an edit changes by one entry.

ghost use Rattle.std.specs.Prelude.{◌≡◌, ◌+◌, ◌≤◌, length, IfOk, MatchResult};
ghost use Rattle.retro_base.specs.EntriesInOrder.{AreInOrder};
ghost use Rattle.retro_base.specs.Limits.{most_rows};
ghost use Rattle.pq_fusion.specs.Edits.{Passes, takings};
ghost use Rattle.pq_fusion.specs.Pieces.{IsPiece, PieceParts, no_parts};
ghost use Rattle.pq_fusion.specs.Searches.{EditsWithin};

use crate::entry_list::{EntryList, RoomyList};
use crate::{Bound, Piece};
use retro_base::{NoMemory, Steps};
use std::alloc::Global;
use std::marker::Model;
use std::sync::ledger::Ledger;

/// What the rows of a node come to, in lists that an edit changes by one entry.
#[derive(Drop)]
pub(crate) struct NodePiece {
    left: EntryList,
    removed: EntryList,
    unmet: u32,
}

/// Such a piece with room for one more entry in each of its lists, so that an edit takes no memory.
#[derive(Drop)]
pub(crate) struct RoomyPiece {
    left: RoomyList,
    removed: RoomyList,
    unmet: u32,
}

impl Model for NodePiece {
    ghost use Rattle.pq_fusion.specs.Pieces.{PieceParts, IsPiece};

    ghost Value = { PieceParts };

    ghost view = { λ piece. record { left = piece.left; removed = piece.removed; unmet = piece.unmet } };

    ghost invariant = { λ piece. IsPiece (record { left = piece.left; removed = piece.removed; unmet = piece.unmet }) };
}

impl Model for RoomyPiece {
    ghost use Rattle.pq_fusion.specs.Pieces.{PieceParts, IsPiece};

    ghost Value = { PieceParts };

    ghost view = { λ piece. record { left = piece.left; removed = piece.removed; unmet = piece.unmet } };

    ghost invariant = { λ piece. IsPiece (record { left = piece.left; removed = piece.removed; unmet = piece.unmet }) };
}

impl NodePiece {
    /// What no rows come to.
    pub(crate) fn empty(alloc: Global) -> NodePiece
        ensures { result ≡ no_parts }
    {
        NodePiece {
            left: EntryList::new(alloc),
            removed: EntryList::new(alloc),
            unmet: 0,
        }
    }

    /// The same piece, in lists that an edit changes.
    pub(crate) fn of_piece(piece: Piece) -> Result<NodePiece, NoMemory>
        ensures { IfOk result (λ same. same ≡ piece) }
    {
        let Piece {
            left,
            removed,
            unmet,
            ..
        } = piece;
        Ok(NodePiece {
            left: EntryList::of_entries(left)?,
            removed: EntryList::of_entries(removed)?,
            unmet,
        })
    }

    /// The same piece once more, in vectors.
    pub(crate) fn to_piece(&self, alloc: Global) -> Result<Piece, NoMemory>
        ensures { IfOk result (λ piece. piece ≡ self.now) }
    {
        let mut left = Vec::with_capacity(alloc, self.left.len() as usize)?;
        self.left.append_to(&mut left)?;
        let mut removed = Vec::with_capacity(alloc, self.removed.len() as usize)?;
        self.removed.append_to(&mut removed)?;
        Ok(Piece {
            alloc,
            left,
            removed,
            unmet: self.unmet,
        })
    }

    /// The entries that are left, the least first.
    pub(crate) fn left(&self) -> &EntryList
        ensures list { result.now ≡ self.now.left }
        ensures order { AreInOrder self.now.left }
    {
        &self.left
    }

    /// The entries that were put in and removed again, the least first.
    pub(crate) fn removed(&self) -> &EntryList
        ensures list { result.now ≡ self.now.removed }
        ensures order { AreInOrder self.now.removed }
    {
        &self.removed
    }

    /// How many takings found nothing to take.
    pub(crate) fn unmet(&self) -> u32
        ensures count { result ≡ self.now.unmet }
        ensures few { result ≤ most_rows }
    {
        self.unmet
    }

    /// How many takings the rows make.
    pub(crate) fn takings(&self) -> u32
        ensures { result ≡ takings self.now }
    {
        self.removed.len() + self.unmet
    }

    /// How many entries are left.
    pub(crate) fn left_len(&self) -> u32
        ensures { result ≡ length self.now.left }
    {
        self.left.len()
    }

    /// How many entries were put in and removed again.
    pub(crate) fn removed_len(&self) -> u32
        ensures { result ≡ length self.now.removed }
    {
        self.removed.len()
    }

    /// How many entries the piece has.
    pub(crate) fn stored(&self) -> u64
        ensures count { result ≡ length self.now.left + length self.now.removed }
        ensures few { result ≤ most_rows }
    {
        u64::from(self.left.len()) + u64::from(self.removed.len())
    }

    /// The piece with room in both lists. Where there is no memory for it, it comes back as it was.
    pub(crate) fn with_room(self) -> Result<RoomyPiece, NodePiece>
        ensures { MatchResult result (λ roomy. roomy ≡ self) (λ piece. piece ≡ self) }
    {
        let NodePiece {
            left,
            removed,
            unmet,
        } = self;
        let left = match left.with_room() {
            Ok(left) => left,
            Err(left) => {
                return Err(NodePiece {
                    left,
                    removed,
                    unmet,
                });
            }
        };
        match removed.with_room() {
            Ok(removed) => Ok(RoomyPiece {
                left,
                removed,
                unmet,
            }),
            Err(removed) => Err(NodePiece {
                left: left.into_list(),
                removed,
                unmet,
            }),
        }
    }
}

impl RoomyPiece {
    /// The piece as it is.
    pub(crate) fn into_piece(self) -> NodePiece
        ensures { result ≡ self }
    {
        let RoomyPiece {
            left,
            removed,
            unmet,
        } = self;
        NodePiece {
            left: left.into_list(),
            removed: removed.into_list(),
            unmet,
        }
    }

    /// The piece after an edit that passes this entry: `own` is that of the edited row.
    pub(crate) fn after<L: Ledger>(
        self,
        gains: bool,
        own: Bound,
        passed: Bound,
        steps: &mut Steps<L>,
    ) -> NodePiece
        requires { (after : PieceParts) × (IsPiece after × Passes gains own passed self after) }
        ensures passes { Passes gains own passed self result }
        ensures piece { IsPiece result }
        ensures visits { EditsWithin self steps.old steps.new }
    {
        let RoomyPiece {
            left,
            removed,
            unmet,
        } = self;
        if gains {
            NodePiece {
                left: left.exchange(passed, Bound::Low, steps),
                removed: removed.exchange(own, passed, steps),
                unmet: unmet - passed.tops(),
            }
        } else {
            NodePiece {
                left: left.exchange(Bound::Low, passed, steps),
                removed: removed.exchange(passed, own, steps),
                unmet: unmet + passed.tops(),
            }
        }
    }
}
