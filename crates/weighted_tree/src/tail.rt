//! The last items of a tree, outside of the root.
ghost use Rattle.std.specs.Prelude.{◌≡◌, ◌+◌, ◌<◌, ◌≤◌, ◌∷◌, [], length, slice_get, slice_set, Some, IfOk, OnOk, OnErr};
ghost use Rattle.std.specs.List.{insert, remove};
ghost use Rattle.weighted_tree.specs.Balance.{no_part};

use crate::leaf::shift_in;
use crate::subtree::{Node, Subtree};
use costs::{NoMemory, Steps};
use monoids::Measured;
use std::alloc::Global;
use std::marker::Model;
use std::sync::ledger::Ledger;

/// The last items of a tree, in a leaf of their own. There is none until the first of them comes in, so that a tree without
/// a tail has one word more and no memory more.
#[derive(Drop)]
pub(crate) struct Tail<T: Measured> {
    leaf: Option<Box<Subtree<T>>>,
}

impl<T: Measured> Model for Tail<T> {
    ghost use Rattle.std.specs.Prelude.{List};
    ghost use Rattle.weighted_tree.specs.Tails.{tail_items, HasNoNodes};

    ghost Value = { List T };

    ghost view = { λ t. tail_items t.leaf };

    ghost invariant = { λ t. HasNoNodes t.leaf };
}

impl<T: Measured> Tail<T> {
    /// No items.
    pub(crate) fn new() -> Tail<T>
        ensures { result ≡ [] }
    {
        Tail { leaf: None }
    }

    /// How many items there are.
    #[inline(always)]
    pub(crate) fn len(&self) -> u32
        ensures { result ≡ length self.now }
    {
        match &self.leaf {
            Some(leaf) => leaf.len(),
            None => 0,
        }
    }

    /// The leaf, where it has items.
    #[inline(always)]
    pub(crate) fn leaf(&self) -> &Subtree<T>
        requires some { 0 < length self.now }
        ensures items { result.now.items ≡ self.now }
        ensures nodes { result.now.nodes ≡ 0 }
    {
        let Some(leaf) = &self.leaf else {
            unreachable!()
        };
        leaf
    }

    /// The item at a place.
    #[inline(always)]
    pub(crate) fn item_at<L: Ledger>(&self, place: u32, steps: &mut Steps<L>) -> &T
        requires within { place < length self.now }
        ensures item { slice_get self.now place ≡ Some result.now }
        ensures visit { steps.new ≡ steps.old + 1 }
    {
        let Some(items) = self.leaf().leaf(steps) else {
            unreachable!()
        };
        &items[place as usize]
    }

    /// Puts an item in at a place, where there is room; those from there on move one place on. A step is counted for the tail
    /// itself, so that an insertion behind other items visits one also where the tail has none yet, and another for its leaf.
    #[inline(always)]
    pub(crate) fn insert<L: Ledger>(
        &mut self,
        place: u32,
        item: T,
        alloc: Global,
        steps: &mut Steps<L>,
    ) -> Result<(), NoMemory>
        requires within { place ≤ length self.old }
        requires room { length self.old < 32 }
        ensures ok { OnOk result (self.new ≡ insert self.old place item) }
        ensures err { OnErr result (self.new ≡ self.old) }
        ensures some { steps.old + 1 ≤ steps.new }
        ensures visits { steps.new ≤ steps.old + 2 }
    {
        steps.tick();
        let Some(leaf) = &mut self.leaf else {
            let mut leaf = Box::new(alloc, Subtree::new())?;
            leaf.insert_in_leaf(place, item, alloc, steps)?;
            self.leaf = Some(leaf);
            return Ok(());
        };
        leaf.insert_in_leaf(place, item, alloc, steps)
    }

    /// Takes all items out, with one more at a place: the first of them as a node, and the others in the leaf on its right. The
    /// tail is empty then. Where there is no memory for the node it is as before.
    pub(crate) fn take_node<L: Ledger>(
        &mut self,
        place: u32,
        item: T,
        alloc: Global,
        steps: &mut Steps<L>,
    ) -> Result<Box<Node<T>>, NoMemory>
        requires some { 0 < length self.old }
        requires within { place ≤ length self.old }
        ensures ok { IfOk result (λ node. node.value.item ∷ node.value.right.items ≡ insert self.old place item) }
        ensures right { IfOk result (λ node. node.value.right.nodes ≡ 0) }
        ensures left { IfOk result (λ node. node.value.left ≡ no_part) }
        ensures rest { OnOk result (self.new ≡ []) }
        ensures err { OnErr result (self.new ≡ self.old) }
        ensures some { OnOk result (steps.old + 1 ≤ steps.new) }
        ensures none_lost { steps.old ≤ steps.new }
        ensures visits { steps.new ≤ steps.old + 1 }
    {
        let Some(leaf) = &mut self.leaf else {
            unreachable!()
        };
        let mut node = Box::new(alloc, Node::alone(item))?;
        let Some(mut items) = leaf.take_leaf(steps) else {
            unreachable!()
        };
        node.item = shift_in(&mut items, place as usize, item);
        node.right = Subtree::of_items(items);
        Ok(node)
    }

    /// Removes the item at a place, and gives it; those after it move one place back.
    pub(crate) fn remove<L: Ledger>(&mut self, place: u32, steps: &mut Steps<L>) -> T
        requires within { place < length self.old }
        ensures item { slice_get self.old place ≡ Some result }
        ensures items { self.new ≡ remove self.old place }
        ensures visit { steps.new ≡ steps.old + 1 }
    {
        let Some(leaf) = &mut self.leaf else {
            unreachable!()
        };
        leaf.remove_in_leaf(place, steps)
    }

    /// Puts another item at a place, and gives the one that was there.
    pub(crate) fn replace<L: Ledger>(&mut self, place: u32, item: T, steps: &mut Steps<L>) -> T
        requires within { place < length self.old }
        ensures item { slice_get self.old place ≡ Some result }
        ensures items { self.new ≡ slice_set self.old place item }
        ensures visit { steps.new ≡ steps.old + 1 }
    {
        let Some(leaf) = &mut self.leaf else {
            unreachable!()
        };
        leaf.replace_in_leaf(place, item, steps)
    }

    /// The same items again.
    pub(crate) fn copy<L: Ledger>(
        &self,
        alloc: Global,
        steps: &mut Steps<L>,
    ) -> Result<Tail<T>, NoMemory>
        ensures items { IfOk result (λ copy. copy ≡ self.now) }
        ensures visits { steps.new ≡ steps.old + length self.now }
    {
        let Some(leaf) = &self.leaf else {
            return Ok(Tail::new());
        };
        let copy = leaf.copy_leaf(alloc, steps)?;
        let leaf = Box::new(alloc, copy)?;
        Ok(Tail { leaf: Some(leaf) })
    }
}
