//! What is read of the tree: a row, the product of some rows, and how many entries all pieces have.

ghost use Rattle.std.specs.Prelude.{◌≡◌, ℕ, ◌+◌, ◌*◌, ◌^◌, ◌<◌, ◌≤◌, ◌++◌, length, slice_get, take, drop, Some, IfOk, OnOk};
ghost use Rattle.std.specs.List.{slice_range};
ghost use Rattle.retro_base.specs.declared.kind.Kind.TheVariants.{Pq};
ghost use Rattle.retro_base.specs.BridgeTable.{added};
ghost use Rattle.retro_base.specs.Limits.{most_rows};
ghost use Rattle.retro_base.specs.Timeline.{AreOfKind};
ghost use Rattle.pq_fusion.specs.Pieces.{tolerant};
ghost use Rattle.pq_fusion.specs.Searches.{StepsWithin};
ghost use Rattle.pq_fusion.specs.Nodes.{weight, IsRun, IsWithinLevels};

use crate::Piece;
use crate::root::Root;
use crate::subtree::{Run, Subtree};
use retro_base::{NoMemory, PackedRow, Row, Steps};
use std::alloc::Global;
use std::sync::ledger::Ledger;

impl Subtree {
    /// The row at a place.
    pub(crate) fn row_at<L: Ledger>(&self, place: u32, steps: &mut Steps<L>) -> Row
        requires { place < length self.now.rows }
        ensures row { slice_get self.now.rows place ≡ Some result }
        ensures visits { StepsWithin self.now.rows steps.old steps.new }
    {
        steps.tick();
        match self.root() {
            Root::Nothing => unreachable!(),
            Root::Run(run) => run.rows[place as usize].row(),
            Root::Pair(pair) => {
                let before = pair.earlier.len();
                if place < before {
                    return pair.earlier.row_at(place, steps);
                }
                pair.later.row_at(place - before, steps)
            }
        }
    }

    /// What the first rows come to.
    pub(crate) fn prefix(&self, alloc: Global, to: u32) -> Result<Piece, NoMemory>
        requires { to ≤ length self.now.rows }
        ensures { IfOk result (λ piece. piece ≡ tolerant (take to self.now.rows)) }
    {
        if to == self.len() {
            return self.whole(alloc);
        }
        match self.root() {
            Root::Nothing => Ok(Piece::empty(alloc)),
            Root::Run(run) => run.piece_of(alloc, 0, to),
            Root::Pair(pair) => {
                let before = pair.earlier.len();
                if to <= before {
                    return pair.earlier.prefix(alloc, to);
                }
                let second = pair.later.prefix(alloc, to - before)?;
                pair.earlier.whole(alloc)?.fuse(&second)
            }
        }
    }

    /// What the rows from a place on come to.
    pub(crate) fn suffix(&self, alloc: Global, from: u32) -> Result<Piece, NoMemory>
        requires { from ≤ length self.now.rows }
        ensures { IfOk result (λ piece. piece ≡ tolerant (drop from self.now.rows)) }
    {
        if from == 0 {
            return self.whole(alloc);
        }
        match self.root() {
            Root::Nothing => Ok(Piece::empty(alloc)),
            Root::Run(run) => run.piece_of(alloc, from, run.rows.len() as u32),
            Root::Pair(pair) => {
                let before = pair.earlier.len();
                if from >= before {
                    return pair.later.suffix(alloc, from - before);
                }
                let first = pair.earlier.suffix(alloc, from)?;
                first.fuse(&pair.later.whole(alloc)?)
            }
        }
    }

    /// What the rows from `from` to before `to` come to.
    pub(crate) fn piece(&self, alloc: Global, from: u32, to: u32) -> Result<Piece, NoMemory>
        requires order { from ≤ to }
        requires within { to ≤ length self.now.rows }
        ensures { IfOk result (λ piece. piece ≡ tolerant (slice_range self.now.rows from to)) }
    {
        if from == 0 {
            return self.prefix(alloc, to);
        }
        match self.root() {
            Root::Nothing => Ok(Piece::empty(alloc)),
            Root::Run(run) => run.piece_of(alloc, from, to),
            Root::Pair(pair) => {
                let before = pair.earlier.len();
                if to <= before {
                    return pair.earlier.piece(alloc, from, to);
                }
                if from >= before {
                    return pair.later.piece(alloc, from - before, to - before);
                }
                let first = pair.earlier.suffix(alloc, from)?;
                first.fuse(&pair.later.prefix(alloc, to - before)?)
            }
        }
    }

    /// How many entries there are in the pieces of all runs and pairs.
    pub(crate) fn stored(&self) -> u64
        ensures least { length (added self.now.rows) ≤ result }
        ensures levels { (levels : ℕ) → levels * length (added self.now.rows) ≤ result + 16 * 2 ^ levels }
        ensures most { (levels : ℕ) → IsWithinLevels (weight self.now.rows) levels → result ≤ length (added self.now.rows) * levels }
        ensures fits { result ≤ length self.now.rows * length self.now.rows }
    {
        match self.root() {
            Root::Nothing => 0,
            Root::Run(run) => run.piece.stored(),
            Root::Pair(pair) => pair.earlier.stored() + pair.piece.stored() + pair.later.stored(),
        }
    }

    /// Appends the rows to others.
    pub(crate) fn append_to(&self, rows: &mut Vec<PackedRow>) -> Result<(), NoMemory>
        ensures items { OnOk result (rows.new.items ≡ rows.old.items ++ self.now.rows) }
        ensures of_kind { AreOfKind Pq self.now.rows }
        ensures few { length self.now.rows ≤ most_rows }
    {
        match self.root() {
            Root::Nothing => Ok(()),
            Root::Run(run) => {
                rows.extend_from_slice(run.rows.as_slice())?;
                Ok(())
            }
            Root::Pair(pair) => {
                pair.earlier.append_to(rows)?;
                pair.later.append_to(rows)
            }
        }
    }
}

impl Run {
    /// What the rows of the run from `from` to before `to` come to.
    pub(crate) fn piece_of(&self, alloc: Global, from: u32, to: u32) -> Result<Piece, NoMemory>
        requires run { IsRun self.now }
        requires order { from ≤ to }
        requires within { to ≤ length self.now.rows.items }
        ensures { IfOk result (λ piece. piece ≡ tolerant (slice_range self.now.rows.items from to)) }
    {
        Piece::of_rows(alloc, &self.rows[from as usize..to as usize])
    }
}
