//! The item at a place of a subtree, and what a range of its items measures.
ghost use Rattle.std.specs.Prelude.{◌≡◌, ◌+◌, ◌<◌, ◌≤◌, take, drop, length, slice_get, Some};
ghost use Rattle.weighted_tree.specs.Measures.{measure_in};
ghost use Rattle.std.specs.List.{slice_range};
ghost use Rattle.weighted_tree.specs.Balance.{weight};
ghost use Rattle.weighted_tree.specs.Levels.{OneALevel, FourALevel};

use crate::leaf::measure_between;
use crate::node::Side;
use crate::subtree::Subtree;
use costs::Steps;
use monoids::{Measured, Monoid};
use std::sync::ledger::Ledger;

impl<T: Measured> Subtree<T> {
    /// The item at a place.
    pub(crate) fn item_at<L: Ledger>(&self, place: u32, steps: &mut Steps<L>) -> &T
        requires within { place < length self.now.items }
        ensures item { slice_get self.now.items place ≡ Some result.now }
        ensures few { self.now.nodes ≤ length self.now.items }
        ensures some { steps.old + 1 ≤ steps.new }
        ensures visits { FourALevel (weight self.now) steps.old steps.new }
    {
        let Some(node) = self.root(steps) else {
            let Some(items) = self.leaf(steps) else {
                unreachable!()
            };
            return &items[place as usize];
        };
        let before = node.left.len();
        if place < before {
            node.left.item_at(place, steps)
        } else if place > before {
            node.right.item_at(place - before - 1, steps)
        } else {
            &node.item
        }
    }

    /// The measure of the items from `from` to before `to`.
    #[inline(always)]
    pub(crate) fn between<L: Ledger>(&self, from: u32, to: u32, steps: &mut Steps<L>) -> T::Measure
        requires order { from ≤ to }
        requires within { to ≤ length self.now.items }
        ensures value { result ≡ measure_in T.Measured T.Measure.Monoid (slice_range self.now.items from to) }
        ensures few { self.now.nodes ≤ length self.now.items }
        ensures none_lost { steps.old ≤ steps.new }
        ensures some { from < to → steps.old + 1 ≤ steps.new }
        ensures visits { FourALevel (weight self.now) steps.old steps.new }
    {
        prove!(to <= self.len());
        let (mut subtree, mut start, mut end) = (self, from, to);
        'down: while start < end {
            let Some(node) = subtree.root(steps) else {
                return subtree.between_in_leaf(start, end, steps);
            };
            let before = node.left.len();
            if end <= before {
                subtree = &node.left;
            } else if start > before {
                subtree = &node.right;
                start = start - before - 1;
                end = end - before - 1;
            } else {
                let left = node.left.suffix(start, steps);
                let right = node.right.prefix(end - before - 1, steps);
                return node.around(left, right);
            }
        }
        T::Measure::unit()
    }

    /// The same where there is no node.
    #[inline(always)]
    fn between_in_leaf<L: Ledger>(&self, from: u32, to: u32, steps: &mut Steps<L>) -> T::Measure
        requires leaf { self.now.nodes ≡ 0 }
        requires some { 0 < length self.now.items }
        requires order { from ≤ to }
        requires within { to ≤ length self.now.items }
        ensures value { result ≡ measure_in T.Measured T.Measure.Monoid (slice_range self.now.items from to) }
        ensures items { T.Measure.items_of result + from ≡ to }
        ensures visit { steps.new ≡ steps.old + 1 }
    {
        let Some(items) = self.leaf(steps) else {
            unreachable!()
        };
        measure_between(items, from as usize, to as usize)
    }

    /// The measure of the items before `to`.
    #[inline(always)]
    pub(crate) fn prefix<L: Ledger>(&self, to: u32, steps: &mut Steps<L>) -> T::Measure
        requires within { to ≤ length self.now.items }
        ensures value { result ≡ measure_in T.Measured T.Measure.Monoid (take to self.now.items) }
        ensures items { T.Measure.items_of result ≡ to }
        ensures none_lost { steps.old ≤ steps.new }
        ensures visits { OneALevel (weight self.now) steps.old steps.new }
    {
        let (mut subtree, mut rest) = (self, to);
        let mut before = T::Measure::unit();
        'down: while rest < subtree.len() {
            let Some(node) = subtree.root(steps) else {
                return before.join(subtree.between_in_leaf(0, rest, steps));
            };
            let count = node.left.len();
            if rest <= count {
                subtree = &node.left;
            } else {
                before = node.passed(Side::Left, node.left.passed(Side::Left, before));
                rest = rest - count - 1;
                subtree = &node.right;
            }
        }
        subtree.passed(Side::Left, before)
    }

    /// The measure of the items from `from` on.
    #[inline(always)]
    fn suffix<L: Ledger>(&self, from: u32, steps: &mut Steps<L>) -> T::Measure
        requires within { from ≤ length self.now.items }
        ensures value { result ≡ measure_in T.Measured T.Measure.Monoid (drop from self.now.items) }
        ensures items { T.Measure.items_of result + from ≡ length self.now.items }
        ensures none_lost { steps.old ≤ steps.new }
        ensures visits { OneALevel (weight self.now) steps.old steps.new }
    {
        let (mut subtree, mut rest) = (self, self.len() - from);
        let mut after = T::Measure::unit();
        'down: while rest < subtree.len() {
            let Some(node) = subtree.root(steps) else {
                let end = subtree.len();
                return subtree.between_in_leaf(end - rest, end, steps).join(after);
            };
            let count = node.right.len();
            if rest <= count {
                subtree = &node.right;
            } else {
                after = node.passed(Side::Right, node.right.passed(Side::Right, after));
                rest = rest - count - 1;
                subtree = &node.left;
            }
        }
        subtree.passed(Side::Right, after)
    }
}
