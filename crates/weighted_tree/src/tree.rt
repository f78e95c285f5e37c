//! The list whose ranges are measured, with the calls of the layers above.
ghost use Rattle.std.specs.Prelude.{◌≡◌, ◌+◌, ◌-◌, ◌^◌, ◌<◌, ◌≤◌, [], min, length, take, drop, slice_get, slice_set, Some, IfSome, IfOk, OnOk, OnErr};
ghost use Rattle.std.specs.List.{insert, remove, slice_range};
ghost use Rattle.weighted_tree.specs.Measures.{measure_in, from_place, up_to_place, passing};
ghost use Rattle.costs.specs.Visits.{VisitsWithin};
ghost use Rattle.weighted_tree.specs.Reads.{Writes};
ghost use Rattle.weighted_tree.specs.Search.{FindsFirst, FindsLast, FindsPartition};
ghost use Rattle.weighted_tree.specs.SearchSteps.{IsSought};
ghost use Rattle.weighted_tree.specs.Sides.{seen_from};

use crate::leaf::FULL;
use crate::node::Side;
use crate::search::{Search, boundary_in_both, passes};
use crate::subtree::Subtree;
use crate::tail::Tail;
use costs::{NoMemory, Steps};
use monoids::{Measured, Monoid};
use std::alloc::Global;
use std::marker::Model;
use std::sync::ledger::Ledger;

/// A list whose ranges are measured: the items of the root, and then those of the tail.
#[derive(Drop)]
pub struct Tree<T: Measured> {
    root: Subtree<T>,
    tail: Tail<T>,
    alloc: Global,
}

impl<T: Measured> Model for Tree<T> {
    ghost use Rattle.std.specs.Prelude.{List, ◌++◌, ◌+◌, ◌^◌, ◌<◌, length};

    ghost Value = { List T };

    ghost view = { λ t. t.root.items ++ t.tail };

    ghost invariant = { λ t. length t.root.items + length t.tail < 2 ^ 32 };
}

impl<T: Measured> Tree<T> {
    /// An empty tree, whose nodes will take their memory from `alloc`.
    pub fn new(alloc: Global) -> Tree<T>
        ensures { result ≡ [] }
    {
        Tree {
            root: Subtree::new(),
            tail: Tail::new(),
            alloc,
        }
    }

    /// How many items there are.
    pub fn len(&self) -> u32
        ensures { result ≡ length self.now }
    {
        self.root.len() + self.tail.len()
    }

    /// Where the nodes take their memory.
    pub fn alloc(&self) -> Global {
        self.alloc
    }

    /// The item at a place.
    pub fn get<L: Ledger>(&self, place: u32, steps: &mut Steps<L>) -> T
        requires within { place < length self.now }
        ensures item { slice_get self.now place ≡ Some result }
        ensures some { steps.old + 1 ≤ steps.new }
        ensures visits { VisitsWithin 12 (length self.now) steps.old steps.new }
    {
        let before = self.root.len();
        if place < before {
            *self.root.item_at(place, steps)
        } else {
            *self.tail.item_at(place - before, steps)
        }
    }

    /// Writes what `shown` makes of the items from a place on into a slice, as many as fit or are there, and gives their number.
    pub fn read<U: Copy, F: Fn(&T) -> U, L: Ledger>(
        &self,
        from: u32,
        shown: F,
        items: &mut [U],
        steps: &mut Steps<L>,
    ) -> usize
        requires within { from ≤ length self.now }
        requires callable { F.IsAlwaysCallable shown }
        ensures count { result ≡ min (length self.now - from) (length items.old) }
        ensures items { Writes F.Fn shown (take result (drop from self.now)) 0 items.old items.new }
        ensures visits { VisitsWithin 12 (length self.now) (steps.old + result) steps.new }
    {
        let count = self.tail.len();
        if count == 0 {
            return self.root.read(from, &shown, items, 0, steps);
        }
        let (before, tail) = (self.root.len(), self.tail.leaf());
        if from >= before {
            return tail.read(from - before, &shown, items, 0, steps);
        }
        let end = self.root.read(from, &shown, items, 0, steps);
        tail.read(0, &shown, items, end, steps)
    }

    /// Puts an item in at a place; those from there on move one place on.
    pub fn insert<L: Ledger>(
        &mut self,
        place: u32,
        item: T,
        steps: &mut Steps<L>,
    ) -> Result<(), NoMemory>
        requires within { place ≤ length self.old }
        requires room { length self.old < 2 ^ 31 }
        ensures ok { OnOk result (self.new ≡ insert self.old place item) }
        ensures err { OnErr result (self.new ≡ self.old) }
        ensures some { OnOk result (0 < length self.old → steps.old + 1 ≤ steps.new) }
        ensures none { OnErr result (length self.old ≡ 0 → steps.new ≡ steps.old) }
        ensures visits { VisitsWithin 12 (length self.new) steps.old steps.new }
    {
        let (before, count) = (self.root.len(), self.tail.len());
        let full = FULL as u32;
        if place < before || (before < full && count == 0) {
            return self.root.insert_below(place, item, self.alloc, steps);
        }
        let place = place - before;
        if count < full {
            return self.tail.insert(place, item, self.alloc, steps);
        }
        let node = self.tail.take_node(place, item, self.alloc, steps)?;
        self.root.append_below(node, steps);
        Ok(())
    }

    /// Removes the item at a place, and gives it; those after it move one place back.
    pub fn remove<L: Ledger>(&mut self, place: u32, steps: &mut Steps<L>) -> T
        requires within { place < length self.old }
        ensures item { slice_get self.old place ≡ Some result }
        ensures items { self.new ≡ remove self.old place }
        ensures some { steps.old + 1 ≤ steps.new }
        ensures visits { VisitsWithin 12 (length self.old) steps.old steps.new }
    {
        let before = self.root.len();
        if place < before {
            self.root.remove_below(place, steps)
        } else {
            self.tail.remove(place - before, steps)
        }
    }

    /// Puts another item at a place, and gives the one that was there.
    pub fn replace<L: Ledger>(&mut self, place: u32, item: T, steps: &mut Steps<L>) -> T
        requires within { place < length self.old }
        ensures item { slice_get self.old place ≡ Some result }
        ensures items { self.new ≡ slice_set self.old place item }
        ensures some { steps.old + 1 ≤ steps.new }
        ensures visits { VisitsWithin 12 (length self.old) steps.old steps.new }
    {
        let before = self.root.len();
        if place < before {
            self.root.replace_below(place, item, steps)
        } else {
            self.tail.replace(place - before, item, steps)
        }
    }

    /// The measure of the items from `from` to before `to`.
    #[inline(always)]
    pub fn measure<L: Ledger>(&self, from: u32, to: u32, steps: &mut Steps<L>) -> T::Measure
        requires order { from ≤ to }
        requires within { to ≤ length self.now }
        ensures value { result ≡ measure_in T.Measured T.Measure.Monoid (slice_range self.now from to) }
        ensures some { from < to → steps.old + 1 ≤ steps.new }
        ensures visits { VisitsWithin 12 (length self.now) steps.old steps.new }
    {
        let before = self.root.len();
        if to <= before {
            return self.root.between(from, to, steps);
        }
        let tail = self.tail.leaf();
        if from >= before {
            return tail.between(from - before, to - before, steps);
        }
        let left = self.root.between(from, before, steps);
        left.join(tail.prefix(to - before, steps))
    }

    /// The least place q, not before `from`, such that the test holds of the measure from `from` to q.
    pub fn first_place<F: Fn(&T::Measure) -> bool, L: Ledger>(
        &self,
        from: u32,
        test: F,
        steps: &mut Steps<L>,
    ) -> Option<u32>
        requires within { from ≤ length self.now }
        requires callable { F.IsAlwaysCallable test }
        ensures first { FindsFirst F.Fn test
            (from_place T.Measured T.Measure.Monoid self.now from) from (length self.now) result }
        ensures within { IfSome result (λ place. (from ≤ place) × (place ≤ length self.now)) }
        ensures some { from < length self.now → steps.old + 1 ≤ steps.new }
        ensures visits { VisitsWithin 12 (length self.now) steps.old steps.new }
    {
        match self.boundary_from(Side::Left, from, &test, steps) {
            Search::Found(count) => Some(from + count),
            Search::Open(_) => None,
        }
    }

    /// The greatest place q, not after `to`, such that the test holds of the measure from q to `to`.
    pub fn last_place<F: Fn(&T::Measure) -> bool, L: Ledger>(
        &self,
        to: u32,
        test: F,
        steps: &mut Steps<L>,
    ) -> Option<u32>
        requires within { to ≤ length self.now }
        requires callable { F.IsAlwaysCallable test }
        ensures last { FindsLast F.Fn test
            (up_to_place T.Measured T.Measure.Monoid self.now to) to result }
        ensures within { IfSome result (λ place. place ≤ to) }
        ensures some { 0 < to → steps.old + 1 ≤ steps.new }
        ensures visits { VisitsWithin 12 (length self.now) steps.old steps.new }
    {
        let from = self.len() - to;
        match self.boundary_from(Side::Right, from, &test, steps) {
            Search::Found(count) => Some(to - count),
            Search::Open(_) => None,
        }
    }

    /// How many items after the place `from`, seen from `side`, a test turns true of their measure.
    #[inline(always)]
    fn boundary_from<F: Fn(&T::Measure) -> bool, L: Ledger>(
        &self,
        side: Side,
        from: u32,
        test: &F,
        steps: &mut Steps<L>,
    ) -> Search<T::Measure>
        requires within { from ≤ length self.now }
        requires callable { F.IsAlwaysCallable test.now }
        ensures sought { IsSought F.Fn test.now T.Measure.items_of
            (passing side T.Measured T.Measure.Monoid T.Measure.unit_value (drop from (seen_from side self.now)))
            (length self.now - from) result }
        ensures fits { length self.now < 2 ^ 32 }
        ensures some { from < length self.now → steps.old + 1 ≤ steps.new }
        ensures visits { VisitsWithin 12 (length self.now) steps.old steps.new }
    {
        let count = self.tail.len();
        if count == 0 {
            return self.root.boundary_from(side, from, test, steps);
        }
        let tail = self.tail.leaf();
        match side {
            Side::Left => boundary_in_both(side, &self.root, tail, from, test, steps),
            Side::Right => boundary_in_both(side, tail, &self.root, from, test, steps),
        }
    }

    /// How many items the test holds of, where it holds of none after one of which it does not.
    pub fn partition_point<F: Fn(&T) -> bool, L: Ledger>(
        &self,
        test: F,
        steps: &mut Steps<L>,
    ) -> u32
        requires callable { F.IsAlwaysCallable test }
        ensures partition { FindsPartition F.Fn test self.now result }
        ensures within { result ≤ length self.now }
        ensures some { 0 < length self.now → steps.old + 1 ≤ steps.new }
        ensures visits { VisitsWithin 12 (length self.now) steps.old steps.new }
    {
        let count = self.tail.len();
        if count == 0 {
            return self.root.partition_point(&test, steps);
        }
        if passes(&test, self.tail.item_at(0, steps)) {
            return self.root.len() + self.tail.leaf().partition_point(&test, steps);
        }
        self.root.partition_point(&test, steps)
    }

    /// A tree of the same items.
    pub fn copy<L: Ledger>(&self, steps: &mut Steps<L>) -> Result<Tree<T>, NoMemory>
        ensures items { IfOk result (λ copy. copy ≡ self.now) }
        ensures none_lost { steps.old ≤ steps.new }
        ensures ok_visits { OnOk result (steps.new ≡ steps.old + length self.now) }
        ensures err_visits { OnErr result (steps.new ≤ steps.old + length self.now) }
    {
        let root = self.root.copy(self.alloc, steps)?;
        let tail = self.tail.copy(self.alloc, steps)?;
        Ok(Tree {
            root,
            tail,
            alloc: self.alloc,
        })
    }
}
