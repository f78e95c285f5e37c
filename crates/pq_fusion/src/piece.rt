//! What some neighbouring rows come to, whatever stands before them.

ghost use Rattle.std.specs.Prelude.{◌≡◌, ◌+◌, ◌≤◌, [], ◌∷◌, length, slice_get, IfOk};
ghost use Rattle.retro_base.specs.declared.kind.Kind.TheVariants.{Pq};
ghost use Rattle.retro_base.specs.EntriesInOrder.{AreInOrder};
ghost use Rattle.retro_base.specs.Kind.{kind_of};
ghost use Rattle.retro_base.specs.Limits.{most_rows};
ghost use Rattle.pq_fusion.specs.Pieces.{no_parts, tolerant, size_of, fuse};

use crate::merge::merge;
use retro_base::{Entry, NoMemory, Op, Row};
use std::alloc::Global;
use std::marker::Model;

/// What some neighbouring rows of a priority queue come to, whatever stands before them.
#[derive(Drop)]
pub struct Piece {
    pub(crate) alloc: Global,
    pub(crate) left: Vec<Entry>,
    pub(crate) removed: Vec<Entry>,
    pub(crate) unmet: u32,
}

impl Model for Piece {
    ghost use Rattle.pq_fusion.specs.Pieces.{PieceParts, IsPiece};

    ghost Value = { PieceParts };

    ghost view = { λ piece. record { left = piece.left.items; removed = piece.removed.items; unmet = piece.unmet } };

    ghost invariant = { λ piece. IsPiece (record { left = piece.left.items; removed = piece.removed.items; unmet = piece.unmet }) };
}

impl Piece {
    /// What no rows come to.
    pub fn empty(alloc: Global) -> Piece
        ensures { result ≡ no_parts }
    {
        Piece {
            alloc,
            left: Vec::new(alloc),
            removed: Vec::new(alloc),
            unmet: 0,
        }
    }

    /// What one row comes to.
    pub fn of_row(alloc: Global, row: Row) -> Result<Piece, NoMemory>
        requires { kind_of row.op ≡ Pq }
        ensures { IfOk result (λ piece. piece ≡ tolerant (row ∷ [])) }
    {
        let removed = Vec::new(alloc);
        let mut left = Vec::new(alloc);
        let Some(entry) = row.added_entry() else {
            return Ok(Piece {
                alloc,
                left,
                removed,
                unmet: 1,
            });
        };
        left.push(entry)?;
        Ok(Piece {
            alloc,
            left,
            removed,
            unmet: 0,
        })
    }

    /// What the rows of this piece and those of a later one come to, one after the other. It walks each list once.
    pub fn fuse(&self, later: &Piece) -> Result<Piece, NoMemory>
        requires few { size_of self.now + size_of later.now ≤ most_rows }
        ensures { IfOk result (λ piece. piece ≡ fuse self.now later.now) }
    {
        let (left, unmet) = (self.left(), later.unmet as usize);
        let both = merge(self.alloc, left, later.removed())?;
        let met = both.as_slice();
        let kept = left.len().saturating_sub(unmet);
        let (taken, staying) = met.split_at(met.len() - kept);
        Ok(Piece {
            alloc: self.alloc,
            left: merge(self.alloc, later.left(), staying)?,
            removed: merge(self.alloc, self.removed(), taken)?,
            unmet: self.unmet() + unmet.saturating_sub(left.len()) as u32,
        })
    }

    /// The same piece once more.
    pub(crate) fn copy(&self) -> Result<Piece, NoMemory>
        ensures { IfOk result (λ piece. piece ≡ self.now) }
    {
        Ok(Piece {
            alloc: self.alloc,
            left: Vec::from_slice(self.alloc, self.left())?,
            removed: Vec::from_slice(self.alloc, self.removed())?,
            unmet: self.unmet,
        })
    }

    /// The least entry that is left, where there is one.
    pub fn min(&self) -> Option<Entry>
        ensures { result ≡ slice_get self.now.left 0 }
    {
        self.left.first().copied()
    }

    /// How many takings found nothing to take.
    pub fn unmet(&self) -> u32
        ensures count { result ≡ self.now.unmet }
        ensures few { result ≤ most_rows }
    {
        self.unmet
    }

    /// How many entries are left.
    pub fn left_len(&self) -> u32
        ensures { result ≡ length self.now.left }
    {
        self.left.len() as u32
    }

    /// How many entries were put in and removed again.
    pub fn removed_len(&self) -> u32
        ensures { result ≡ length self.now.removed }
    {
        self.removed.len() as u32
    }

    /// The entries that are left, the least first.
    pub(crate) fn left(&self) -> &[Entry]
        ensures list { result.now ≡ self.now.left }
        ensures order { AreInOrder result.now }
        ensures few { length result.now ≤ most_rows }
    {
        self.left.as_slice()
    }

    /// The entries that were put in and removed again, the least first.
    pub(crate) fn removed(&self) -> &[Entry]
        ensures list { result.now ≡ self.now.removed }
        ensures order { AreInOrder result.now }
        ensures few { length result.now ≤ most_rows }
    {
        self.removed.as_slice()
    }
}
