//! Nodes and leaves as their links hold them: closed, so that each way to open one is a visit.
ghost use Rattle.std.specs.Prelude.{◌≡◌, ◌+◌, ◌<◌, ◌≤◌, ◌++◌, ◌∷◌, [], length, slice_get, slice_set, Some, OnOk, OnErr};
ghost use Rattle.std.specs.Borrow.{sem};
ghost use Rattle.std.specs.List.{insert, remove};
ghost use Rattle.weighted_tree.specs.Measures.{measure_in};
ghost use Rattle.weighted_tree.specs.Nodes.{full};

use crate::leaf_edit::{insert_item, put_for, remove_item};
use crate::room::make_room;
use crate::subtree::Node;
use costs::{NoMemory, Steps};
use monoids::Measured;
use std::sync::ledger::Ledger;

/// A node as its link holds it. No other module sees it: each way to open it is a visit, and steps the
/// counter.
#[cycle(subtree)]
#[derive(Drop)]
pub(crate) struct Closed<T: Measured> {
    node: Box<Node<T>>,
}

impl<T: Measured> Closed<T> {
    ghost use Rattle.weighted_tree.specs.Opened.{lends_node};

    /// Closes a node.
    #[inline(always)]
    pub(crate) fn new(node: Box<Node<T>>) -> Closed<T>
        ensures { result.node ≡ node }
    {
        Closed { node }
    }

    /// Visits the node, to read it.
    #[inline(always)]
    pub(crate) fn open<L: Ledger>(&self, steps: &mut Steps<L>) -> &Node<T>
        ensures node { result.now ≡ self.now.node.value }
        ensures visit { steps.new ≡ steps.old + 1 }
    {
        steps.tick();
        &self.node
    }

    /// Visits the node, to change it.
    #[inline(always)]
    pub(crate) fn open_mut<L: Ledger>(&mut self, steps: &mut Steps<L>) -> &mut Box<Node<T>>
        ensures* writes_back { sem 𝓛 (lends_node T.row T.Measure.row T.Measured T.Measure.Monoid self.entry result) }
        ensures node { result.now ≡ self.old.node }
        ensures visit { steps.new ≡ steps.old + 1 }
    {
        steps.tick();
        &mut self.node
    }

    /// Visits the node, and takes it out of its link.
    #[inline(always)]
    pub(crate) fn into_open<L: Ledger>(self, steps: &mut Steps<L>) -> Box<Node<T>>
        ensures node { result ≡ self.node }
        ensures visit { steps.new ≡ steps.old + 1 }
    {
        steps.tick();
        self.node
    }
}

/// The items of a leaf as its link holds them, closed in the same way.
#[derive(Drop)]
pub(crate) struct ClosedItems<T: Copy> {
    items: Vec<T>,
}

impl<T: Copy> ClosedItems<T> {
    /// Closes the items.
    #[inline(always)]
    pub(crate) fn new(items: Vec<T>) -> ClosedItems<T>
        ensures { result.items ≡ items }
    {
        ClosedItems { items }
    }

    /// How many there are: the link itself tells it, without a visit.
    #[inline(always)]
    pub(crate) fn len(&self) -> usize
        ensures { result ≡ length self.now.items.items }
    {
        self.items.as_slice().len()
    }

    /// Visits the leaf, to read it.
    #[inline(always)]
    pub(crate) fn open<L: Ledger>(&self, steps: &mut Steps<L>) -> &[T]
        ensures items { result.now ≡ self.now.items.items }
        ensures visit { steps.new ≡ steps.old + 1 }
    {
        steps.tick();
        self.items.as_slice()
    }

    /// Visits the leaf, and puts an item in at its end.
    #[inline(always)]
    pub(crate) fn push<L: Ledger>(&mut self, item: T, steps: &mut Steps<L>) -> Result<(), NoMemory>
        ensures ok { OnOk result (self.new.items.items ≡ self.old.items.items ++ item ∷ []) }
        ensures err { OnErr result (self.new.items.items ≡ self.old.items.items) }
        ensures visit { steps.new ≡ steps.old + 1 }
    {
        steps.tick();
        make_room(&mut self.items)?;
        match self.items.push(item) {
            Ok(()) => Ok(()),
            Err(_) => Err(NoMemory),
        }
    }

    /// Visits the leaf, and takes its items out of the link.
    #[inline(always)]
    pub(crate) fn into_open<L: Ledger>(self, steps: &mut Steps<L>) -> Vec<T>
        ensures items { result ≡ self.items }
        ensures visit { steps.new ≡ steps.old + 1 }
    {
        steps.tick();
        self.items
    }
}

// Edits of the items in their place. Each tells their measure too.
impl<T: Measured> ClosedItems<T> {
    /// Visits the leaf, and puts an item in at a place.
    #[inline(always)]
    pub(crate) fn insert<L: Ledger>(
        &mut self,
        place: usize,
        item: T,
        measure: &mut T::Measure,
        steps: &mut Steps<L>,
    ) -> Result<(), NoMemory>
        requires within { place ≤ length self.old.items.items }
        requires room { length self.old.items.items < full }
        requires told { measure.old ≡ measure_in T.Measured T.Measure.Monoid self.old.items.items }
        ensures ok { OnOk result (self.new.items.items ≡ insert self.old.items.items place item) }
        ensures err { OnErr result (self.new.items.items ≡ self.old.items.items) }
        ensures told { measure.new ≡ measure_in T.Measured T.Measure.Monoid self.new.items.items }
        ensures visit { steps.new ≡ steps.old + 1 }
    {
        steps.tick();
        insert_item(&mut self.items, place, item, measure)
    }

    /// Visits the leaf, takes the item at a place out, and gives it.
    #[inline(always)]
    pub(crate) fn remove<L: Ledger>(
        &mut self,
        place: usize,
        measure: &mut T::Measure,
        steps: &mut Steps<L>,
    ) -> T
        requires within { place < length self.old.items.items }
        requires few { length self.old.items.items ≤ full }
        requires told { measure.old ≡ measure_in T.Measured T.Measure.Monoid self.old.items.items }
        ensures item { slice_get self.old.items.items place ≡ Some result }
        ensures items { self.new.items.items ≡ remove self.old.items.items place }
        ensures few { length self.new.items.items ≤ full }
        ensures told { measure.new ≡ measure_in T.Measured T.Measure.Monoid self.new.items.items }
        ensures visit { steps.new ≡ steps.old + 1 }
    {
        steps.tick();
        remove_item(&mut self.items, place, measure)
    }

    /// Visits the leaf, puts another item at a place, and gives the one that was there.
    #[inline(always)]
    pub(crate) fn replace<L: Ledger>(
        &mut self,
        place: usize,
        item: T,
        measure: &mut T::Measure,
        steps: &mut Steps<L>,
    ) -> T
        requires within { place < length self.old.items.items }
        requires few { length self.old.items.items ≤ full }
        requires told { measure.old ≡ measure_in T.Measured T.Measure.Monoid self.old.items.items }
        ensures item { slice_get self.old.items.items place ≡ Some result }
        ensures items { self.new.items.items ≡ slice_set self.old.items.items place item }
        ensures told { measure.new ≡ measure_in T.Measured T.Measure.Monoid self.new.items.items }
        ensures visit { steps.new ≡ steps.old + 1 }
    {
        steps.tick();
        put_for(&mut self.items, place, item, measure)
    }
}
