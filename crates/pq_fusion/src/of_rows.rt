//! The piece of some rows, one row after another.

ghost use Rattle.std.specs.Prelude.{◌≡◌, ◌+◌, ◌≤◌, length, IfOk};
ghost use Rattle.retro_base.specs.declared.kind.Kind.TheVariants.{Pq};
ghost use Rattle.retro_base.specs.Kind.{kind_of};
ghost use Rattle.retro_base.specs.Limits.{most_rows};
ghost use Rattle.retro_base.specs.Timeline.{AreOfKind};
ghost use Rattle.retro_base.specs.State.{with_entry};
ghost use Rattle.pq_fusion.specs.Pieces.{after_row, after_take, no_parts, size_of, tolerant};

use crate::Piece;
use crate::exchange::{make_room, put_uncounted};
use retro_base::{Entry, NoMemory, PackedRow, Row};
use std::alloc::Global;

impl Piece {
    /// What these rows come to, row by row: it moves the entries behind a place for each.
    pub(crate) fn of_rows(alloc: Global, rows: &[PackedRow]) -> Result<Piece, NoMemory>
        requires of_kind { AreOfKind Pq rows.now }
        requires few { length rows.now ≤ most_rows }
        ensures { IfOk result (λ piece. piece ≡ tolerant rows.now) }
    {
        let mut piece = Piece::with_capacity(alloc, rows.len())?;
        for row in rows {
            piece = piece.with_row(row.row())?;
        }
        Ok(piece)
    }

    /// What no rows come to, with memory for so many entries in each list.
    fn with_capacity(alloc: Global, entries: usize) -> Result<Piece, NoMemory>
        ensures { IfOk result (λ piece. piece ≡ no_parts) }
    {
        let left = Vec::with_capacity(alloc, entries)?;
        let removed = Vec::with_capacity(alloc, entries)?;
        Ok(Piece {
            alloc,
            left,
            removed,
            unmet: 0,
        })
    }

    /// The piece with one row more behind its rows.
    pub(crate) fn with_row(self, row: Row) -> Result<Piece, NoMemory>
        requires of_kind { kind_of row.op ≡ Pq }
        requires few { size_of self + 1 ≤ most_rows }
        ensures { IfOk result (λ piece. piece ≡ after_row row.op row.number self) }
    {
        match row.added_entry() {
            Some(entry) => self.with_added(entry),
            None => self.with_taking(),
        }
    }

    /// The piece with an entry that is added behind its rows.
    fn with_added(self, entry: Entry) -> Result<Piece, NoMemory>
        requires { size_of self + 1 ≤ most_rows }
        ensures { IfOk result (λ piece. piece ≡ record { left = with_entry entry self.left; removed = self.removed; unmet = self.unmet }) }
    {
        let Piece {
            alloc,
            mut left,
            removed,
            unmet,
        } = self;
        make_room(&mut left)?;
        put_uncounted(&mut left, entry);
        Ok(Piece {
            alloc,
            left,
            removed,
            unmet,
        })
    }

    /// The piece with a taking behind its rows.
    fn with_taking(self) -> Result<Piece, NoMemory>
        requires { size_of self + 1 ≤ most_rows }
        ensures { IfOk result (λ piece. piece ≡ after_take self.left self.removed self.unmet) }
    {
        let Piece {
            alloc,
            mut left,
            mut removed,
            unmet,
        } = self;
        if left.is_empty() {
            return Ok(Piece {
                alloc,
                left,
                removed,
                unmet: unmet + 1,
            });
        }
        make_room(&mut removed)?;
        put_uncounted(&mut removed, left.remove(0));
        Ok(Piece {
            alloc,
            left,
            removed,
            unmet,
        })
    }
}
