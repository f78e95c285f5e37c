//! A row as it is measured: by how much it lets the line grow at either end.

ghost use Rattle.std.specs.Prelude.{◌≡◌, ◌+ℤ◌, ◌||◌};
ghost use Rattle.std.specs.Int.Signed.{le_z};
ghost use Rattle.monoid_laws.specs.Walk.{end_of, lowest_of, height_of};
ghost use Rattle.prefix_trees.specs.Walks.{walk_at};
ghost use Rattle.prefix_trees.specs.declared.growth.End.TheVariants.{Left, Right};

use crate::growth::{End, left_growth, right_growth, sign_of};
use monoid_laws::{Both, LeastPrefix, Measured};
use retro_base::{PackedRow, Row};
use std::marker::Model;

/// What a range of rows measures: the walks of the growth of the whole line, at its left end and at its right end.
pub(crate) type Walks = Both<LeastPrefix, Both<LeastPrefix, LeastPrefix>>;

/// A row of which a range measures by how much it lets the line grow. Contracts see it as the row.
#[derive(Clone, Copy)]
pub(crate) struct LineRow {
    row: PackedRow,
}

impl Model for LineRow {
    ghost use Rattle.retro_base.specs.declared.row.Row.{Row};

    ghost Value = { Row };

    ghost view = { λ item. item.row };

    ghost inverse = { λ row. record { row = row } };
}

impl LineRow {
    /// The row, to be measured.
    pub(crate) fn new(row: Row) -> LineRow
        ensures { result ≡ row }
    {
        LineRow {
            row: PackedRow::new(row),
        }
    }

    /// The row.
    pub(crate) fn row(self) -> Row
        ensures { result ≡ self }
    {
        self.row.row()
    }
}

impl Measured for LineRow {
    ghost use Rattle.prefix_trees.specs.Walks.{row_walks, row_walks-items};

    type Measure = Walks;

    ghost measured = { row_walks };

    ghost single = { row_walks-items };

    fn measure(&self) -> Walks {
        let op = self.row.op();
        let left = LeastPrefix::single(left_growth(op));
        let right = LeastPrefix::single(right_growth(op));
        Both::single(LeastPrefix::single(sign_of(op)), Both::single(left, right))
    }
}

/// By how much the whole line grows.
pub(crate) fn growth(range: &Walks) -> i64
    ensures { result ≡ end_of range.now.0 }
{
    range.first().sum()
}

/// Whether the whole line, of so many items at its start, falls to a value on the way.
pub(crate) fn falls_to(range: &Walks, start: i64, value: i64) -> bool
    ensures { result ≡ le_z (start +ℤ lowest_of range.now.0) value }
{
    i128::from(start) + i128::from(range.first().least()) <= i128::from(value)
}

/// How far the growth at an end ends above its lowest point.
pub(crate) fn height(range: &Walks, end: End) -> i64
    ensures { result ≡ height_of (walk_at end range.now) }
{
    let walk = walk_at(range, end);
    walk.sum() - walk.least()
}

/// Whether the growth ends so far above its lowest point, at the left end or at the right end.
pub(crate) fn rises_at_either(range: &Walks, at_left: i64, at_right: i64) -> bool
    ensures { result ≡ (le_z at_left (height_of (walk_at Left range.now)) || le_z at_right (height_of (walk_at Right range.now))) }
{
    height(range, End::Left) >= at_left || height(range, End::Right) >= at_right
}

/// The walk of the growth at an end.
fn walk_at(range: &Walks, end: End) -> LeastPrefix
    ensures { result ≡ walk_at end range.now }
{
    let ends = range.second();
    match end {
        End::Left => ends.first(),
        End::Right => ends.second(),
    }
}
