//! A subtree: the link to a node or to a leaf, and what it tells of the items without a visit.
ghost use Rattle.std.specs.Prelude.{◌≡◌, ◌+◌, ◌^◌, ◌<◌, ◌≤◌, [], length, MatchOption};
ghost use Rattle.weighted_tree.specs.Balance.{no_part, weight};
ghost use Rattle.weighted_tree.specs.Measures.{measure_in, measure_seen};
ghost use Rattle.weighted_tree.specs.Nodes.{full, node_items, node_part, HasBalance, IsRoot};
ghost use Rattle.weighted_tree.specs.Sides.{join_from, seen_from};

use crate::closed::{Closed, ClosedItems};
use crate::leaf::measure_between;
use crate::node::Side;
use costs::Steps;
use monoids::{Measured, Monoid};
use std::marker::Model;
use std::mem;
use std::sync::ledger::Ledger;

/// The items of a tree or of one side of a node, in order.
#[cycle(subtree)]
#[derive(Drop)]
pub(crate) struct Subtree<T: Measured> {
    pub(crate) link: Link<T>,
}

// What a node has to know of a subtree without reading it. Fields lie in memory as they stand here, so that
// none leaves a gap before a measure that is aligned to 16 bytes.
#[cycle(subtree)]
#[derive(Drop)]
pub(crate) enum Link<T: Measured> {
    Empty,
    Leaf {
        items: ClosedItems<T>,
        measure: T::Measure,
    },
    Full {
        size: u32,
        nodes: u32,
        node: Closed<T>,
        measure: T::Measure,
    },
}

/// An item with what stands before and after it in its subtree.
#[cycle(subtree)]
#[derive(Drop)]
pub(crate) struct Node<T: Measured> {
    pub(crate) left: Subtree<T>,
    pub(crate) item: T,
    pub(crate) right: Subtree<T>,
}

impl<T: Measured> Model for Subtree<T> {
    ghost use Rattle.std.specs.Prelude.{length};
    ghost use Rattle.weighted_tree.specs.Balance.{Part};

    ghost Value = { Part T };

    ghost use Rattle.weighted_tree.specs.Nodes.{part_of, IsSound};

    ghost view = { λ t. part_of t.link };

    ghost invariant = { λ t. IsSound T.Measure.unit_value T.Measure.joined T.measured t.link };

    ghost size = { λ part. length part.items };

    ghost use Rattle.weighted_tree.specs.NodesFall.{depth_le-length-items};

    ghost size_decreases = { λ t h. depth_le-length-items T.Measured T.Measure.Monoid t.link };
}

impl<T: Measured> Subtree<T> {
    /// No items.
    pub(crate) fn new() -> Subtree<T>
        ensures { result ≡ no_part }
    {
        Subtree { link: Link::Empty }
    }

    /// How many items there are.
    pub(crate) fn len(&self) -> u32
        ensures count { result ≡ length self.now.items }
        ensures few { self.now.nodes ≤ length self.now.items }
    {
        match &self.link {
            Link::Empty => 0,
            Link::Leaf { items, .. } => items.len() as u32,
            Link::Full { size, .. } => *size,
        }
    }

    /// How many nodes there are.
    pub(crate) fn nodes(&self) -> u32
        ensures count { result ≡ self.now.nodes }
        ensures few { result ≤ length self.now.items }
    {
        match &self.link {
            Link::Empty | Link::Leaf { .. } => 0,
            Link::Full { nodes, .. } => *nodes,
        }
    }

    /// The number of the nodes and one.
    pub(crate) fn weight(&self) -> u64
        ensures value { result ≡ weight self.now }
        ensures few { result ≤ length self.now.items + 1 }
    {
        self.nodes() as u64 + 1
    }

    /// The measure of all items.
    pub(crate) fn whole(&self) -> T::Measure
        ensures value { result ≡ measure_in T.Measured T.Measure.Monoid self.now.items }
        ensures items { T.Measure.items_of result ≡ length self.now.items }
    {
        match &self.link {
            Link::Empty => T::Measure::unit(),
            Link::Leaf { measure, .. } => *measure,
            Link::Full { measure, .. } => *measure,
        }
    }

    /// A measure joined with that of all items, seen from a side.
    #[inline(always)]
    pub(crate) fn passed(&self, side: Side, before: T::Measure) -> T::Measure
        requires fits { T.Measure.items_of before + length self.now.items < 2 ^ 32 }
        ensures value { result ≡ join_from side T.Measure.joined before
            (measure_seen side T.Measured T.Measure.Monoid (seen_from side self.now.items)) }
        ensures items { T.Measure.items_of result ≡ T.Measure.items_of before + length self.now.items }
    {
        side.join(before, self.whole())
    }

    /// Visits the root, where there is a node.
    pub(crate) fn root<L: Ledger>(&self, steps: &mut Steps<L>) -> Option<&Node<T>>
        ensures { MatchOption result ((self.now.nodes ≡ 0) × (steps.new ≡ steps.old)) (λ node. IsRoot self.now node.now × (steps.new ≡ steps.old + 1)) }
    {
        match &self.link {
            Link::Empty | Link::Leaf { .. } => None,
            Link::Full { node, .. } => Some(node.open(steps)),
        }
    }

    /// Visits the root, where there is a node, and takes it out of its link.
    pub(crate) fn into_root<L: Ledger>(self, steps: &mut Steps<L>) -> Option<Box<Node<T>>>
        ensures { MatchOption result ((self.nodes ≡ 0) × (steps.new ≡ steps.old)) (λ node. IsRoot self node.value × (steps.new ≡ steps.old + 1)) }
    {
        match self.link {
            Link::Empty | Link::Leaf { .. } => None,
            Link::Full { node, .. } => Some(node.into_open(steps)),
        }
    }

    /// Visits the leaf, where there is no node.
    pub(crate) fn leaf<L: Ledger>(&self, steps: &mut Steps<L>) -> Option<&[T]>
        requires leaf { self.now.nodes ≡ 0 }
        ensures { MatchOption result ((self.now.items ≡ []) × (steps.new ≡ steps.old)) (λ items. (items.now ≡ self.now.items) × (steps.new ≡ steps.old + 1) × (length items.now ≤ full)) }
    {
        match &self.link {
            Link::Empty => None,
            Link::Leaf { items, .. } => Some(items.open(steps)),
            Link::Full { .. } => unreachable!(),
        }
    }

    /// Visits the leaf, where there is no node, and takes its items out of the link.
    pub(crate) fn take_leaf<L: Ledger>(&mut self, steps: &mut Steps<L>) -> Option<Vec<T>>
        requires leaf { self.old.nodes ≡ 0 }
        ensures taken { MatchOption result ((self.old.items ≡ []) × (steps.new ≡ steps.old)) (λ items. (items.items ≡ self.old.items) × (steps.new ≡ steps.old + 1)) }
        ensures few { length self.old.items ≤ full }
        ensures rest { self.new ≡ no_part }
    {
        match mem::replace(&mut self.link, Link::Empty) {
            Link::Empty => None,
            Link::Leaf { items, .. } => Some(items.into_open(steps)),
            Link::Full { .. } => unreachable!(),
        }
    }

    /// The leaf of these items, and closed from now on.
    pub(crate) fn of_items(items: Vec<T>) -> Subtree<T>
        requires few { length items.items ≤ full }
        ensures items { result.items ≡ items.items }
        ensures leaf { result.nodes ≡ 0 }
    {
        let measure = measure_between(items.as_slice(), 0, items.as_slice().len());
        Subtree::of_measured(items, measure)
    }

    /// The same where their measure is known.
    pub(crate) fn of_measured(items: Vec<T>, measure: T::Measure) -> Subtree<T>
        requires few { length items.items ≤ full }
        requires measure { measure ≡ measure_in T.Measured T.Measure.Monoid items.items }
        ensures items { result.items ≡ items.items }
        ensures leaf { result.nodes ≡ 0 }
    {
        if items.as_slice().len() == 0 {
            return Subtree::new();
        }
        Subtree {
            link: Link::Leaf {
                measure,
                items: ClosedItems::new(items),
            },
        }
    }

    /// The subtree of a node that is in balance, and closed from now on.
    pub(crate) fn of_root(node: Box<Node<T>>) -> Subtree<T>
        requires balanced { HasBalance node.value }
        requires fits { length (node_items node.value) < 2 ^ 32 }
        ensures { result ≡ node_part node.value }
    {
        Subtree {
            link: Link::Full {
                size: node.size(),
                nodes: node.nodes(),
                measure: node.measure(),
                node: Closed::new(node),
            },
        }
    }
}
