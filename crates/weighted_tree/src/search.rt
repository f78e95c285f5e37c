//! Searches of a subtree: where a test of a measure turns, and where a test of the items does.
ghost use Rattle.std.specs.Prelude.{◌≡◌, ◌+◌, ◌-◌, ◌^◌, ◌<◌, ◌≤◌, ◌++◌, drop, length};
ghost use Rattle.std.specs.Fn.{FnReturnsAt};
ghost use Rattle.weighted_tree.specs.Balance.{weight};
ghost use Rattle.weighted_tree.specs.Levels.{OneALevel, FourALevelOfBoth};
ghost use Rattle.weighted_tree.specs.Measures.{passing};
ghost use Rattle.weighted_tree.specs.Search.{FindsPartition};
ghost use Rattle.weighted_tree.specs.SearchSteps.{IsSought, IsBoundaryWithin, VisitsOfSearch, joined_after};
ghost use Rattle.weighted_tree.specs.Sides.{seen_from};

use crate::leaf::{boundary_in, partition_in};
use crate::node::Side;
use crate::subtree::Subtree;
use costs::Steps;
use monoids::{Measured, Monoid};
use std::sync::ledger::Ledger;

/// How far a search came.
pub(crate) enum Search<M> {
    /// So many items on the test holds, and one item before it does not.
    Found(u32),
    /// At the end the test does not hold. This is the measure up to there.
    Open(M),
}

impl<T: Measured> Subtree<T> {
    /// How many items after the place `from`, seen from `side`, a test turns true of their measure.
    pub(crate) fn boundary_from<F: Fn(&T::Measure) -> bool, L: Ledger>(
        &self,
        side: Side,
        from: u32,
        test: &F,
        steps: &mut Steps<L>,
    ) -> Search<T::Measure>
        requires within { from ≤ length self.now.items }
        requires callable { F.IsAlwaysCallable test.now }
        ensures sought { IsSought F.Fn test.now T.Measure.items_of
            (passing side T.Measured T.Measure.Monoid T.Measure.unit_value (drop from (seen_from side self.now.items)))
            (length self.now.items - from) result }
        ensures fits { length self.now.items < 2 ^ 32 }
        ensures few { self.now.nodes ≤ length self.now.items }
        ensures none_lost { steps.old ≤ steps.new }
        ensures some { from < length self.now.items → steps.old + 1 ≤ steps.new }
        ensures visits { VisitsOfSearch (weight self.now) steps.old steps.new result }
    {
        prove!(from <= self.len());
        let Some(node) = self.root(steps) else {
            return self.boundary_in_leaf(side, from, T::Measure::unit(), test, steps);
        };
        if from == 0 {
            let all = self.whole();
            return if passes(test, &all) {
                Search::Found(self.boundary_within(side, T::Measure::unit(), test, steps))
            } else {
                Search::Open(all)
            };
        }
        let (near, far) = node.sides(side);
        let place = near.len();
        if from > place {
            return far.boundary_from(side, from - place - 1, test, steps);
        }
        let through = match near.boundary_from(side, from, test, steps) {
            Search::Found(count) => return Search::Found(count),
            Search::Open(through) => through,
        };
        let next = node.passed(side, through);
        let count = place + 1 - from;
        if passes(test, &next) {
            return Search::Found(count);
        }
        let all = far.passed(side, next);
        if passes(test, &all) {
            Search::Found(count + far.boundary_within(side, next, test, steps))
        } else {
            Search::Open(all)
        }
    }

    /// The same where there is no node, with a measure before.
    #[inline(always)]
    fn boundary_in_leaf<F: Fn(&T::Measure) -> bool, L: Ledger>(
        &self,
        side: Side,
        from: u32,
        before: T::Measure,
        test: &F,
        steps: &mut Steps<L>,
    ) -> Search<T::Measure>
        requires leaf { self.now.nodes ≡ 0 }
        requires within { from ≤ length self.now.items }
        requires fits { T.Measure.items_of before + length self.now.items < 2 ^ 32 }
        requires callable { F.IsAlwaysCallable test.now }
        ensures sought { IsSought F.Fn test.now (joined_after T.Measure.items_of before)
            (passing side T.Measured T.Measure.Monoid before (drop from (seen_from side self.now.items)))
            (length self.now.items - from) result }
        ensures none_lost { steps.old ≤ steps.new }
        ensures some { 0 < length self.now.items → steps.old + 1 ≤ steps.new }
        ensures visits { steps.new ≤ steps.old + 1 }
    {
        if let Some(items) = self.leaf(steps) {
            return boundary_in(items, side, from, before, test);
        }
        if passes(test, &before) {
            Search::Found(0)
        } else {
            Search::Open(before)
        }
    }

    /// The same from the first item on, where the test holds at the end.
    #[inline(always)]
    fn boundary_within<F: Fn(&T::Measure) -> bool, L: Ledger>(
        &self,
        side: Side,
        before: T::Measure,
        test: &F,
        steps: &mut Steps<L>,
    ) -> u32
        requires fits { T.Measure.items_of before + length self.now.items < 2 ^ 32 }
        requires callable { F.IsAlwaysCallable test.now }
        ensures boundary { IsBoundaryWithin F.Fn test.now
            (passing side T.Measured T.Measure.Monoid before (seen_from side self.now.items)) (length self.now.items) result }
        ensures none_lost { steps.old ≤ steps.new }
        ensures visits { OneALevel (weight self.now) steps.old steps.new }
    {
        let (mut subtree, mut passed, mut count) = (self, before, 0);
        'down: while let Some(node) = subtree.root(steps) {
            let (near, far) = node.sides(side);
            let through = near.passed(side, passed);
            if passes(test, &through) {
                subtree = near;
            } else {
                count = count + near.len() + 1;
                passed = node.passed(side, through);
                if passes(test, &passed) {
                    return count;
                }
                subtree = far;
            }
        }
        match subtree.boundary_in_leaf(side, 0, passed, test, steps) {
            Search::Found(more) => count + more,
            Search::Open(_) => count + subtree.len(),
        }
    }

    /// How many items a test holds of, where it holds of none after one of which it does not.
    #[inline(always)]
    pub(crate) fn partition_point<F: Fn(&T) -> bool, L: Ledger>(
        &self,
        test: &F,
        steps: &mut Steps<L>,
    ) -> u32
        requires callable { F.IsAlwaysCallable test.now }
        ensures partition { FindsPartition F.Fn test.now self.now.items result }
        ensures within { result ≤ length self.now.items }
        ensures few { self.now.nodes ≤ length self.now.items }
        ensures none_lost { steps.old ≤ steps.new }
        ensures some { 0 < length self.now.items → steps.old + 1 ≤ steps.new }
        ensures visits { OneALevel (weight self.now) steps.old steps.new }
    {
        let (mut subtree, mut end) = (self, self.len());
        'down: while let Some(node) = subtree.root(steps) {
            if passes(test, &node.item) {
                subtree = &node.right;
            } else {
                end = end - node.right.len() - 1;
                subtree = &node.left;
            }
        }
        end - subtree.len() + subtree.partition_in_leaf(test, steps)
    }

    /// The same where there is no node.
    #[inline(always)]
    fn partition_in_leaf<F: Fn(&T) -> bool, L: Ledger>(&self, test: &F, steps: &mut Steps<L>) -> u32
        requires leaf { self.now.nodes ≡ 0 }
        requires callable { F.IsAlwaysCallable test.now }
        ensures partition { FindsPartition F.Fn test.now self.now.items result }
        ensures within { result ≤ length self.now.items }
        ensures none_lost { steps.old ≤ steps.new }
        ensures some { 0 < length self.now.items → steps.old + 1 ≤ steps.new }
        ensures visits { steps.new ≤ steps.old + 1 }
    {
        match self.leaf(steps) {
            Some(items) => partition_in(items, test) as u32,
            None => 0,
        }
    }
}

/// How many items after the place `from` a test turns true of their measure, in two subtrees of which `far` stands beyond `near`, seen from `side`.
pub(crate) fn boundary_in_both<T: Measured, F: Fn(&T::Measure) -> bool, L: Ledger>(
    side: Side,
    near: &Subtree<T>,
    far: &Subtree<T>,
    from: u32,
    test: &F,
    steps: &mut Steps<L>,
) -> Search<T::Measure>
    requires within { from ≤ length near.now.items + length far.now.items }
    requires fits { length near.now.items + length far.now.items < 2 ^ 32 }
    requires callable { F.IsAlwaysCallable test.now }
    ensures sought { IsSought F.Fn test.now T.Measure.items_of
        (passing side T.Measured T.Measure.Monoid T.Measure.unit_value (drop from (seen_from side near.now.items ++ seen_from side far.now.items)))
        (length near.now.items + length far.now.items - from) result }
    ensures near_few { near.now.nodes ≤ length near.now.items }
    ensures far_few { far.now.nodes ≤ length far.now.items }
    ensures none_lost { steps.old ≤ steps.new }
    ensures some { from < length near.now.items + length far.now.items → steps.old + 1 ≤ steps.new }
    ensures visits { FourALevelOfBoth (weight near.now) (weight far.now) steps.old steps.new }
{
    prove!(from <= near.len() + far.len());
    let count = near.len();
    if from >= count {
        return far.boundary_from(side, from - count, test, steps);
    }
    let through = match near.boundary_from(side, from, test, steps) {
        Search::Found(place) => return Search::Found(place),
        Search::Open(through) => through,
    };
    let all = far.passed(side, through);
    if passes(test, &all) {
        Search::Found(count - from + far.boundary_within(side, through, test, steps))
    } else {
        Search::Open(all)
    }
}

/// What the test says of a measure or of an item.
#[inline(always)]
pub(crate) fn passes<M, F: Fn(&M) -> bool>(test: &F, measure: &M) -> bool
    requires { F.IsAlwaysCallable test.now }
    ensures { FnReturnsAt F.Fn test.now measure.now result }
{
    test(measure)
}
