//! A part of the tree that is made anew: its rows are halved until they are runs.

ghost use Rattle.std.specs.Prelude.{◌≡◌, ◌+◌, ◌≤◌, length, IfOk, OnOk, OnErr};
ghost use Rattle.std.specs.List.{insert};
ghost use Rattle.retro_base.specs.declared.kind.Kind.TheVariants.{Pq};
ghost use Rattle.retro_base.specs.Kind.{kind_of};
ghost use Rattle.retro_base.specs.Limits.{most_rows};
ghost use Rattle.retro_base.specs.Timeline.{AreOfKind};
ghost use Rattle.pq_fusion.specs.Nodes.{IsBalanced, longest_run};
ghost use Rattle.pq_fusion.specs.RowEdits.{CanBeMade, PassesBy, edited};
ghost use Rattle.pq_fusion.specs.Wear.{joined, unworn};

use crate::anew::Anew;
use crate::difference::difference;
use crate::node_piece::NodePiece;
use crate::row_edit::{RowEdit, Way};
use crate::subtree::{Pair, Run, Subtree};
use crate::{Bound, Piece};
use retro_base::{NoMemory, PackedRow, Row};
use std::alloc::Global;
use std::sync::ledger::Ledger;

impl Subtree {
    /// The subtree of a run of these rows.
    fn of_few<M: Ledger>(
        alloc: Global,
        rows: &[PackedRow],
        anew: &mut Anew<M>,
    ) -> Result<Subtree, NoMemory>
        requires of_kind { AreOfKind Pq rows.now }
        requires few { length rows.now ≤ longest_run }
        ensures subtree { IfOk result (λ subtree. subtree ≡ unworn rows.now) }
        ensures made { OnOk result (anew.new ≡ anew.old + length rows.now) }
        ensures none_lost { anew.old ≤ anew.new }
    {
        if rows.is_empty() {
            return Ok(Subtree::new());
        }
        let piece = Piece::of_rows(alloc, rows)?.copy()?;
        let run = Run {
            rows: Vec::from_slice(alloc, rows)?,
            piece: NodePiece::of_piece(piece)?,
        };
        let subtree = Subtree::of_run(Box::new(alloc, run)?);
        anew.count(rows.len());
        Ok(subtree)
    }

    /// The subtree of two sides that are in balance.
    fn of_sides(alloc: Global, earlier: Subtree, later: Subtree) -> Result<Subtree, NoMemory>
        requires balanced { IsBalanced (length earlier.rows) (length later.rows) }
        requires few { length earlier.rows + length later.rows ≤ most_rows }
        ensures { IfOk result (λ subtree. subtree ≡ joined earlier later) }
    {
        let first = earlier.whole(alloc)?;
        let second = later.whole(alloc)?;
        let both = first.fuse(&second)?;
        let piece = NodePiece::of_piece(both)?;
        let pair = Pair {
            size: earlier.len() + later.len(),
            earlier,
            later,
            piece,
        };
        Ok(Subtree::of_pair(Box::new(alloc, pair)?))
    }

    /// The subtree of these rows, halved until a run has no more than `longest`.
    fn of_rows<M: Ledger>(
        alloc: Global,
        rows: &[PackedRow],
        longest: usize,
        anew: &mut Anew<M>,
    ) -> Result<Subtree, NoMemory>
        requires of_kind { AreOfKind Pq rows.now }
        requires few { length rows.now ≤ most_rows }
        requires some { 1 ≤ longest }
        requires short { longest ≤ longest_run }
        ensures subtree { IfOk result (λ subtree. subtree ≡ unworn rows.now) }
        ensures made { OnOk result (anew.new ≡ anew.old + length rows.now) }
        ensures none_lost { anew.old ≤ anew.new }
    {
        if rows.len() <= longest {
            return Subtree::of_few(alloc, rows, anew);
        }
        let (before, after) = rows.split_at(rows.len() / 2);
        let earlier = Subtree::of_rows(alloc, before, longest, anew)?;
        let later = Subtree::of_rows(alloc, after, longest, anew)?;
        Subtree::of_sides(alloc, earlier, later)
    }

    /// The rows after an edit.
    fn rows_after(&self, alloc: Global, edit: RowEdit) -> Result<Vec<PackedRow>, NoMemory>
        requires { CanBeMade edit self.now.rows }
        ensures rows { IfOk result (λ rows. rows.items ≡ edited edit self.now.rows) }
        ensures of_kind { IfOk result (λ rows. AreOfKind Pq rows.items) }
        ensures few { IfOk result (λ rows. length rows.items ≤ most_rows) }
    {
        let mut rows = Vec::with_capacity(alloc, self.len() as usize + 1)?;
        self.append_to(&mut rows)?;
        match edit.way {
            Way::Put => rows.insert(edit.place as usize, PackedRow::new(edit.row))?,
            Way::Cut => {
                rows.remove(edit.place as usize);
            }
        }
        Ok(rows)
    }

    /// The run of the rows here and this one behind them, which are `rows`. Its piece is the one here with a row more.
    fn with_last<M: Ledger>(
        &self,
        alloc: Global,
        rows: Vec<PackedRow>,
        row: Row,
        anew: &mut Anew<M>,
    ) -> Result<Subtree, NoMemory>
        requires rows { rows.items ≡ insert self.now.rows (length self.now.rows) row }
        requires row { kind_of row.op ≡ Pq }
        requires of_kind { AreOfKind Pq rows.items }
        requires few { length rows.items ≤ longest_run }
        ensures subtree { IfOk result (λ subtree. subtree ≡ unworn rows.items) }
        ensures made { OnOk result (anew.new ≡ anew.old + length rows.items) }
        ensures none_lost { anew.old ≤ anew.new }
    {
        let piece = self.whole(alloc)?.with_row(row)?.copy()?;
        let made = rows.as_slice().len();
        let run = Run {
            rows,
            piece: NodePiece::of_piece(piece)?,
        };
        let subtree = Subtree::of_run(Box::new(alloc, run)?);
        anew.count(made);
        Ok(subtree)
    }

    /// The subtree of the rows after an edit, in runs of no more than `longest`.
    fn after_edit<M: Ledger>(
        &self,
        alloc: Global,
        edit: RowEdit,
        longest: usize,
        anew: &mut Anew<M>,
    ) -> Result<Subtree, NoMemory>
        requires possible { CanBeMade edit self.now.rows }
        requires some { 1 ≤ longest }
        requires short { longest ≤ longest_run }
        ensures new { IfOk result (λ new. new ≡ unworn (edited edit self.now.rows)) }
        ensures made { OnOk result (anew.new ≡ anew.old + length (edited edit self.now.rows)) }
        ensures none_lost { anew.old ≤ anew.new }
    {
        let rows = self.rows_after(alloc, edit)?;
        if edit.place == self.len() && rows.as_slice().len() <= longest {
            return self.with_last(alloc, rows, edit.row, anew);
        }
        Subtree::of_rows(alloc, rows.as_slice(), longest, anew)
    }

    /// Makes an edit, with all rows made anew, in runs of no more than `longest`. What passes is found by comparing.
    pub(crate) fn edit_anew<M: Ledger>(
        &mut self,
        alloc: Global,
        edit: RowEdit,
        longest: usize,
        anew: &mut Anew<M>,
    ) -> Result<Bound, NoMemory>
        requires possible { CanBeMade edit self.old.rows }
        requires some { 1 ≤ longest }
        requires short { longest ≤ longest_run }
        ensures ok { OnOk result (self.new ≡ unworn (edited edit self.old.rows)) }
        ensures err { OnErr result (self.new ≡ self.old) }
        ensures made { OnOk result (anew.new ≡ anew.old + length self.new.rows) }
        ensures near { OnOk result (length self.new.rows ≤ length self.old.rows + 1) }
        ensures none_lost { anew.old ≤ anew.new }
        ensures passed { IfOk result (λ passed. PassesBy edit passed self.old.rows) }
    {
        let new = self.after_edit(alloc, edit, longest, anew)?;
        let passed = difference(edit.gains(), &self.whole(alloc)?, &new.whole(alloc)?);
        *self = new;
        Ok(passed)
    }
}
