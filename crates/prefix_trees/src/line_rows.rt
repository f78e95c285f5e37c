//! The rows of a line of items, and the searches of their walks.

ghost use Rattle.std.specs.Prelude.{◌≡◌, ℕ, ℤ, List, pos, negsuc, ◌-ℤ◌, ◌+◌, ◌^◌, ◌<◌, ◌≤◌, [], length, slice_get, Some, OnOk, OnErr, IfOk, IfSome};
ghost use Rattle.std.specs.List.{insert, remove};
ghost use Rattle.retro_base.specs.declared.row.Row.{Row};
ghost use Rattle.costs.specs.Visits.{VisitsWithin};
ghost use Rattle.prefix_trees.specs.Growth.{grown, growth_at, left_growth, right_growth, sign_of};
ghost use Rattle.prefix_trees.specs.Prefixes.{FindsFirstAtMost, FindsLastAtMost, FindsLastAtEither};
ghost use Rattle.prefix_trees.specs.Falls.{NeverFalls, FallsFirst};
ghost use Rattle.prefix_trees.specs.WriterLaws.{IsWrittenAt};

use crate::growth::{End, sign_of, value_of};
use crate::line_row::{LineRow, Walks, falls_to, growth, height, rises_at_either};
use retro_base::{NoMemory, Op, Row, Steps};
use std::alloc::Global;
use std::marker::Model;
use std::sync::ledger::Ledger;
use weighted_tree::Tree;

/// A list of rows, by each of which a line of items grows or shrinks at an end. By how much a range of them lets it grow is
/// read and searched in a few visits.
#[derive(Drop)]
pub struct LineRows {
    rows: Tree<LineRow>,
}

impl Model for LineRows {
    ghost use Rattle.std.specs.Prelude.{List};
    ghost use Rattle.retro_base.specs.declared.row.Row.{Row};

    ghost Value = { List Row };

    ghost view = { λ t. t.rows };
}

impl LineRows {
    /// No rows; their memory will be that of `alloc`.
    pub fn new(alloc: Global) -> LineRows
        ensures { result ≡ [] }
    {
        LineRows {
            rows: Tree::new(alloc),
        }
    }

    /// Where the memory comes from.
    pub(crate) fn alloc(&self) -> Global {
        self.rows.alloc()
    }

    /// How many rows there are.
    pub fn len(&self) -> u32
        ensures { result ≡ length self.now }
    {
        self.rows.len()
    }

    /// The row at a place.
    pub(crate) fn row_at<L: Ledger>(&self, place: u32, steps: &mut Steps<L>) -> Row
        requires { place < length self.now }
        ensures row { slice_get self.now place ≡ Some result }
        ensures visits { VisitsWithin 12 (length self.now) steps.old steps.new }
    {
        self.rows.get(place, steps).row()
    }

    /// The item that the row at a place wrote.
    pub(crate) fn value_at<L: Ledger>(&self, place: u32, steps: &mut Steps<L>) -> i64
        requires { (items : List ℤ) × ((index : ℕ) × IsWrittenAt self.now items index place) }
        ensures value { (items : List ℤ) (index : ℕ)
            → IsWrittenAt self.now items index place → slice_get items index ≡ Some result }
        ensures visits { VisitsWithin 12 (length self.now) steps.old steps.new }
    {
        value_of(self.row_at(place, steps).op).unwrap()
    }

    /// How many items there are after the first so many rows.
    pub fn size_at<L: Ledger>(&self, place: u32, steps: &mut Steps<L>) -> i64
        requires { place ≤ length self.now }
        ensures size { result ≡ grown sign_of self.now place }
        ensures visits { VisitsWithin 12 (length self.now) steps.old steps.new }
    {
        growth(&self.rows.measure(0, place, steps))
    }

    /// The greatest place up to `to` from which on the rows before `to` let the line grow at an end by so many items at least.
    pub fn last_growing<L: Ledger>(
        &self,
        end: End,
        to: u32,
        count: i64,
        steps: &mut Steps<L>,
    ) -> Option<u32>
        requires { to ≤ length self.now }
        ensures last { FindsLastAtMost (growth_at end)
            self.now to (grown (growth_at end) self.now to -ℤ count) result }
        ensures visits { VisitsWithin 12 (length self.now) steps.old steps.new }
    {
        self.rows
            .last_place(to, |range: &Walks| height(range, end) >= count, steps)
    }

    /// The greatest place up to `to` from which on the rows before `to` let the line grow by so many items at least, at its left end
    /// by `at_left` or at its right end by `at_right`.
    pub fn last_growing_at_either<L: Ledger>(
        &self,
        to: u32,
        at_left: i64,
        at_right: i64,
        steps: &mut Steps<L>,
    ) -> Option<u32>
        requires { to ≤ length self.now }
        ensures last { FindsLastAtEither self.now to
            (grown left_growth self.now to -ℤ at_left) (grown right_growth self.now to -ℤ at_right) result }
        ensures visits { VisitsWithin 12 (length self.now) steps.old steps.new }
    {
        self.rows.last_place(
            to,
            |range: &Walks| rises_at_either(range, at_left, at_right),
            steps,
        )
    }

    /// The least place from `from` on before which there are no more items than the value. Most often there is none, which the
    /// measure of all rows from there on tells before any search.
    fn first_at_most<L: Ledger>(&self, from: u32, value: i64, steps: &mut Steps<L>) -> Option<u32>
        requires { from ≤ length self.now }
        ensures first { FindsFirstAtMost sign_of self.now from value result }
        ensures visits { VisitsWithin 36 (length self.now) steps.old steps.new }
    {
        let start = self.size_at(from, steps);
        let rest = self.rows.measure(from, self.len(), steps);
        if falls_to(&rest, start, value) {
            self.first_falling(from, start, value, steps)
        } else {
            None
        }
    }

    /// The same by a search, where it is told how many items there are before the place.
    fn first_falling<L: Ledger>(
        &self,
        from: u32,
        start: i64,
        value: i64,
        steps: &mut Steps<L>,
    ) -> Option<u32>
        requires within { from ≤ length self.now }
        requires start { start ≡ grown sign_of self.now from }
        ensures first { FindsFirstAtMost sign_of self.now from value result }
        ensures visits { VisitsWithin 12 (length self.now) steps.old steps.new }
    {
        self.rows
            .first_place(from, |range: &Walks| falls_to(range, start, value), steps)
    }

    /// The index of the first row that finds nothing to take, were a row with this operation put in at
    /// the place; none where each finds something, as where the row takes nothing itself.
    pub(crate) fn failure_after_insert<L: Ledger>(
        &self,
        place: u32,
        op: Op,
        steps: &mut Steps<L>,
    ) -> Option<u32>
        requires within { place ≤ length self.now }
        requires never { NeverFalls self.now }
        ensures first { (row : Row) → row.op ≡ op → FallsFirst (insert self.now place row) result }
        ensures index { IfSome result (λ index. index ≤ length self.now) }
        ensures visits { VisitsWithin 36 (length self.now) steps.old steps.new }
    {
        if sign_of(op) >= 0 {
            return None;
        }
        self.first_at_most(place, deepest_with(op), steps)
    }

    /// The index of the first row that finds nothing to take, were the row at the place taken out; none
    /// where each finds something, as where the row adds nothing.
    pub(crate) fn failure_after_remove<L: Ledger>(
        &self,
        place: u32,
        steps: &mut Steps<L>,
    ) -> Option<u32>
        requires within { place < length self.now }
        requires never { NeverFalls self.now }
        ensures first { FallsFirst (remove self.now place) result }
        ensures index { IfSome result (λ index. index + 1 < length self.now) }
        ensures visits { VisitsWithin 48 (length self.now) steps.old steps.new }
    {
        let row = self.row_at(place, steps);
        if sign_of(row.op) <= 0 {
            return None;
        }
        prove!(place < self.len());
        let later = self.first_at_most(place + 1, deepest_without(row.op), steps)?;
        Some(later - 2)
    }

    /// Puts a row in at a place; those from there on move one place on.
    pub fn insert<L: Ledger>(
        &mut self,
        place: u32,
        row: Row,
        steps: &mut Steps<L>,
    ) -> Result<(), NoMemory>
        requires within { place ≤ length self.old }
        requires room { length self.old < 2 ^ 31 }
        ensures ok { OnOk result (self.new ≡ insert self.old place row) }
        ensures err { OnErr result (self.new ≡ self.old) }
        ensures visits { VisitsWithin 12 (length self.new) steps.old steps.new }
    {
        self.rows.insert(place, LineRow::new(row), steps)
    }

    /// Takes the row at a place out, and gives it; those after it move one place back.
    pub fn remove<L: Ledger>(&mut self, place: u32, steps: &mut Steps<L>) -> Row
        requires { place < length self.old }
        ensures row { slice_get self.old place ≡ Some result }
        ensures rows { self.new ≡ remove self.old place }
        ensures visits { VisitsWithin 12 (length self.old) steps.old steps.new }
    {
        self.rows.remove(place, steps).row()
    }

    /// The same rows once more.
    pub fn copy<L: Ledger>(&self, steps: &mut Steps<L>) -> Result<LineRows, NoMemory>
        ensures rows { IfOk result (λ copy. copy ≡ self.now) }
        ensures none_lost { steps.old ≤ steps.new }
        ensures visits { steps.new ≤ steps.old + length self.now }
    {
        let rows = self.rows.copy(steps)?;
        Ok(LineRows { rows })
    }
}

/// A size that falls to this does so below 0 where a row with this operation is put in before it.
fn deepest_with(op: Op) -> i64
    ensures { result ≡ negsuc 0 -ℤ sign_of op }
{
    -1 - i64::from(sign_of(op))
}

/// A size that falls to this does so below 0 where a row with this operation is taken out before it.
fn deepest_without(op: Op) -> i64
    ensures { result ≡ sign_of op -ℤ pos 1 }
{
    i64::from(sign_of(op)) - 1
}
