//! A node: what it tells of the items below it, and its two sides.
ghost use Rattle.std.specs.Prelude.{◌≡◌, ◌+◌, ◌^◌, ◌<◌, ◌≤◌, length, ◌↔◌, IsTrue, IfSome};
ghost use Rattle.weighted_tree.specs.Measures.{measure_in};
ghost use Rattle.weighted_tree.specs.Balance.{Part, no_part, weight};
ghost use Rattle.weighted_tree.specs.Nodes.{node_items, node_count, HasBalance, IsRoot};
ghost use Rattle.weighted_tree.specs.Sides.{other, side_of, with_side, join_from, IsOpened};

use crate::subtree::{Node, Subtree};
use monoids::{Measured, Monoid};
use std::mem;

/// One of the two sides of a node.
#[derive(Clone, Copy)]
pub(crate) enum Side {
    Left,
    Right,
}

impl Side {
    pub(crate) fn other(self) -> Side
        ensures { result ≡ other self }
    {
        match self {
            Side::Left => Side::Right,
            Side::Right => Side::Left,
        }
    }

    /// A measure joined with the one beyond it, seen from this side.
    #[inline(always)]
    pub(crate) fn join<M: Monoid>(self, near: M, far: M) -> M
        requires { M.items_of near + M.items_of far < 2 ^ 32 }
        ensures value { result ≡ join_from self M.joined near far }
        ensures items { M.items_of result ≡ M.items_of near + M.items_of far }
    {
        match self {
            Side::Left => near.join(far),
            Side::Right => far.join(near),
        }
    }
}

impl<T: Measured> Node<T> {
    /// A node without sides.
    pub(crate) fn alone(item: T) -> Node<T>
        ensures left { result.left ≡ no_part }
        ensures item { result.item ≡ item }
        ensures right { result.right ≡ no_part }
    {
        Node {
            left: Subtree::new(),
            item,
            right: Subtree::new(),
        }
    }

    /// How many items there are below the node.
    pub(crate) fn size(&self) -> u32
        requires fits { length (node_items self.now) < 2 ^ 32 }
        ensures { result ≡ length (node_items self.now) }
    {
        self.left.len() + 1 + self.right.len()
    }

    /// How many nodes it makes with those below it.
    pub(crate) fn nodes(&self) -> u32
        requires fits { length (node_items self.now) < 2 ^ 32 }
        ensures count { result ≡ node_count self.now }
        ensures few { result ≤ length (node_items self.now) }
    {
        self.left.nodes() + 1 + self.right.nodes()
    }

    /// The measure of these items.
    pub(crate) fn measure(&self) -> T::Measure
        requires fits { length (node_items self.now) < 2 ^ 32 }
        ensures { result ≡ measure_in T.Measured T.Measure.Monoid (node_items self.now) }
    {
        self.around(self.left.whole(), self.right.whole())
    }

    /// The same where it may be told already.
    pub(crate) fn measure_told(&self, told: Option<T::Measure>) -> T::Measure
        requires fits { length (node_items self.now) < 2 ^ 32 }
        requires told { IfSome told (λ measure. measure ≡ measure_in T.Measured T.Measure.Monoid (node_items self.now)) }
        ensures { result ≡ measure_in T.Measured T.Measure.Monoid (node_items self.now) }
    {
        match told {
            Some(measure) => measure,
            None => self.measure(),
        }
    }

    /// The measure of the item between what stands before and after it.
    pub(crate) fn around(&self, before: T::Measure, after: T::Measure) -> T::Measure
        requires fits { T.Measure.items_of before + 1 + T.Measure.items_of after < 2 ^ 32 }
        ensures { result ≡ T.Measure.joined (T.Measure.joined before (T.measured self.now.item)) after }
    {
        before.join(self.item.measure()).join(after)
    }

    /// The subtree on a side, and the one on the other side.
    pub(crate) fn sides(&self, side: Side) -> (&Subtree<T>, &Subtree<T>)
        ensures { (whole : Part T) → IsRoot whole self.now → IsOpened side whole result.0.now result.1.now self.now }
    {
        match side {
            Side::Left => (&self.left, &self.right),
            Side::Right => (&self.right, &self.left),
        }
    }

    /// A measure joined with that of the item, seen from a side.
    #[inline(always)]
    pub(crate) fn passed(&self, side: Side, before: T::Measure) -> T::Measure
        requires fits { T.Measure.items_of before + 1 < 2 ^ 32 }
        ensures value { result ≡ join_from side T.Measure.joined before (T.measured self.now.item) }
        ensures items { T.Measure.items_of result ≡ T.Measure.items_of before + 1 }
    {
        side.join(before, self.item.measure())
    }

    /// The weight of a side.
    pub(crate) fn weight(&self, side: Side) -> u64
        ensures value { result ≡ weight (side_of side self.now) }
        ensures few { result ≤ length (side_of side self.now).items + 1 }
    {
        match side {
            Side::Left => self.left.weight(),
            Side::Right => self.right.weight(),
        }
    }

    /// Whether neither side is too heavy.
    pub(crate) fn is_balanced(&self) -> bool
        requires fits { length (node_items self.now) < 2 ^ 32 }
        ensures { IsTrue result ↔ HasBalance self.now }
    {
        let (left, right) = (self.left.weight(), self.right.weight());
        left <= 3 * right && right <= 3 * left
    }

    /// Takes a side off.
    pub(crate) fn take(&mut self, side: Side) -> Subtree<T>
        ensures taken { result ≡ side_of side self.old }
        ensures rest { self.new ≡ with_side side no_part self.old }
    {
        match side {
            Side::Left => mem::replace(&mut self.left, Subtree::new()),
            Side::Right => mem::replace(&mut self.right, Subtree::new()),
        }
    }

    /// Puts a subtree on a side.
    pub(crate) fn put(&mut self, side: Side, subtree: Subtree<T>)
        ensures { self.new ≡ with_side side subtree self.old }
    {
        match side {
            Side::Left => self.left = subtree,
            Side::Right => self.right = subtree,
        }
    }
}
