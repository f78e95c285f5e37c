//! Edits of a subtree: an item comes in, goes, or is replaced by another one.
ghost use Rattle.std.specs.Prelude.{◌≡◌, ◌+◌, ◌^◌, ◌<◌, ◌≤◌, ◌++◌, ◌∷◌, [], length, slice_get, slice_set, Some, OnOk, OnErr};
ghost use Rattle.std.specs.List.{insert, remove};
ghost use Rattle.weighted_tree.specs.Balance.{weight, IsUpToOneMore};
ghost use Rattle.weighted_tree.specs.Levels.{FourALevel};
ghost use Rattle.weighted_tree.specs.Nodes.{full, items_of, nodes_of, HasNoRight, IsSound};

use crate::leaf::{FULL, divide};
use crate::leaf_edit::exchanged;
use crate::node::Side;
use crate::room::room_for;
use crate::subtree::{Link, Node, Subtree};
use costs::{NoMemory, Steps};
use monoids::{Measured, Monoid};
use std::alloc::Global;
use std::mem;
use std::sync::ledger::Ledger;

impl<T: Measured> Subtree<T> {
    /// Puts an item in at a place; those from there on move one place on.
    pub(crate) fn insert_below<L: Ledger>(
        &mut self,
        place: u32,
        item: T,
        alloc: Global,
        steps: &mut Steps<L>,
    ) -> Result<(), NoMemory>
        requires within { place ≤ length self.old.items }
        requires fits { length self.old.items + 1 < 2 ^ 32 }
        ensures ok { OnOk result (self.new.items ≡ insert self.old.items place item) }
        ensures grows { OnOk result (IsUpToOneMore self.old.nodes self.new.nodes) }
        ensures err { OnErr result (self.new ≡ self.old) }
        ensures few { self.old.nodes ≤ length self.old.items }
        ensures none_lost { steps.old ≤ steps.new }
        ensures some { OnOk result (0 < length self.old.items → steps.old + 1 ≤ steps.new) }
        ensures none { OnErr result (length self.old.items ≡ 0 → steps.new ≡ steps.old) }
        ensures visits { FourALevel (weight self.old) steps.old steps.new }
    {
        let Link::Full {
            node: closed,
            measure,
            ..
        } = &mut self.link
        else {
            return self.insert_in_leaf(place, item, alloc, steps);
        };
        let node = &mut **closed.open_mut(steps);
        let before = node.left.len();
        if place <= before {
            node.left.insert_below(place, item, alloc, steps)?;
        } else {
            node.right
                .insert_below(place - before - 1, item, alloc, steps)?;
        }
        let count = node.nodes();
        let told = measure.with(item.measure());
        self.link.settle_told(count, told, steps);
        Ok(())
    }

    /// The same where there is no node: a full leaf is divided below a new one.
    pub(crate) fn insert_in_leaf<L: Ledger>(
        &mut self,
        place: u32,
        item: T,
        alloc: Global,
        steps: &mut Steps<L>,
    ) -> Result<(), NoMemory>
        requires leaf { self.old.nodes ≡ 0 }
        requires within { place ≤ length self.old.items }
        requires fits { length self.old.items + 1 < 2 ^ 32 }
        ensures ok { OnOk result (self.new.items ≡ insert self.old.items place item) }
        ensures grows { OnOk result (IsUpToOneMore self.old.nodes self.new.nodes) }
        ensures leaf { length self.old.items < 32 → self.new.nodes ≡ 0 }
        ensures err { OnErr result (self.new ≡ self.old) }
        ensures none_lost { steps.old ≤ steps.new }
        ensures some { OnOk result (0 < length self.old.items → steps.old + 1 ≤ steps.new) }
        ensures none { OnErr result (length self.old.items ≡ 0 → steps.new ≡ steps.old) }
        ensures visits { steps.new ≤ steps.old + 1 }
    {
        let count = self.len();
        if count == 0 {
            self.start_leaf(item, alloc)
        } else if count >= FULL as u32 {
            self.divide_leaf(place as usize, item, alloc, steps)
        } else if place == count {
            self.push_in_leaf(item, steps)
        } else {
            self.put_in_leaf(place, item, steps)
        }
    }

    /// Makes a leaf of one item where there is none.
    fn start_leaf(&mut self, item: T, alloc: Global) -> Result<(), NoMemory>
        requires none { self.old.items ≡ [] }
        ensures ok { OnOk result (self.new.items ≡ item ∷ []) }
        ensures leaf { OnOk result (self.new.nodes ≡ 0) }
        ensures err { OnErr result (self.new ≡ self.old) }
    {
        let mut items = Vec::with_capacity(alloc, room_for(1))?;
        items.push(item)?;
        *self = Subtree::of_items(items);
        Ok(())
    }

    /// Puts an item in at a place of a full leaf, which is divided below a new node.
    fn divide_leaf<L: Ledger>(
        &mut self,
        place: usize,
        item: T,
        alloc: Global,
        steps: &mut Steps<L>,
    ) -> Result<(), NoMemory>
        requires leaf { self.old.nodes ≡ 0 }
        requires filled { full ≤ length self.old.items }
        requires within { place ≤ length self.old.items }
        ensures ok { OnOk result (self.new.items ≡ insert self.old.items place item) }
        ensures node { OnOk result (self.new.nodes ≡ 1) }
        ensures err { OnErr result (self.new ≡ self.old) }
        ensures visit { steps.new ≡ steps.old + 1 }
    {
        let measure = self.whole();
        let Some(mut items) = self.take_leaf(steps) else {
            unreachable!()
        };
        match divide(&mut items, place, item, alloc) {
            Ok(mut node) => {
                node.left = Subtree::of_items(items);
                *self = Subtree::of_root(node);
                Ok(())
            }
            Err(failed) => {
                *self = Subtree::of_measured(items, measure);
                Err(failed)
            }
        }
    }

    /// Puts an item in at the end of a leaf: its measure is joined with that of the others, none of which is read.
    #[inline(always)]
    fn push_in_leaf<L: Ledger>(&mut self, item: T, steps: &mut Steps<L>) -> Result<(), NoMemory>
        requires leaf { self.old.nodes ≡ 0 }
        requires some { 0 < length self.old.items }
        requires room { length self.old.items < full }
        ensures ok { OnOk result (self.new.items ≡ insert self.old.items (length self.old.items) item) }
        ensures leaf { self.new.nodes ≡ 0 }
        ensures err { OnErr result (self.new ≡ self.old) }
        ensures visit { steps.new ≡ steps.old + 1 }
    {
        let Link::Leaf { items, measure } = &mut self.link else {
            unreachable!()
        };
        items.push(item, steps)?;
        *measure = measure.join(item.measure());
        Ok(())
    }

    /// Puts an item in at a place of a leaf that has some and has room.
    #[inline(always)]
    fn put_in_leaf<L: Ledger>(
        &mut self,
        place: u32,
        item: T,
        steps: &mut Steps<L>,
    ) -> Result<(), NoMemory>
        requires leaf { self.old.nodes ≡ 0 }
        requires some { 0 < length self.old.items }
        requires room { length self.old.items < full }
        requires within { place ≤ length self.old.items }
        ensures ok { OnOk result (self.new.items ≡ insert self.old.items place item) }
        ensures leaf { self.new.nodes ≡ 0 }
        ensures err { OnErr result (self.new ≡ self.old) }
        ensures visit { steps.new ≡ steps.old + 1 }
    {
        let Link::Leaf { items, measure } = &mut self.link else {
            unreachable!()
        };
        items.insert(place as usize, item, measure, steps)
    }

    /// Puts a node after all items, with what stands on its right.
    pub(crate) fn append_below<L: Ledger>(&mut self, mut node: Box<Node<T>>, steps: &mut Steps<L>)
        requires right { node.value.right.nodes ≡ 0 }
        requires fits { length self.old.items + 1 + length node.value.right.items < 2 ^ 32 }
        ensures items { self.new.items ≡ self.old.items ++ node.value.item ∷ node.value.right.items }
        ensures nodes { self.new.nodes ≡ self.old.nodes + 1 }
        ensures few { self.old.nodes ≤ length self.old.items }
        ensures none_lost { steps.old ≤ steps.new }
        ensures visits { FourALevel (weight self.old) steps.old steps.new }
    {
        let Link::Full { node: closed, .. } = &mut self.link else {
            node.left = mem::replace(self, Subtree::new());
            *self = Subtree::of_root(node);
            return;
        };
        let root = &mut **closed.open_mut(steps);
        root.right.append_below(node, steps);
        self.link.settle(steps);
    }

    /// Removes the item at a place, and gives it; those after it move one place back.
    pub(crate) fn remove_below<L: Ledger>(&mut self, place: u32, steps: &mut Steps<L>) -> T
        requires within { place < length self.old.items }
        ensures item { slice_get self.old.items place ≡ Some result }
        ensures items { self.new.items ≡ remove self.old.items place }
        ensures shrinks { IsUpToOneMore self.new.nodes self.old.nodes }
        ensures few { self.old.nodes ≤ length self.old.items }
        ensures some { steps.old + 1 ≤ steps.new }
        ensures visits { FourALevel (weight self.old) steps.old steps.new }
    {
        let Link::Full {
            node: closed,
            measure,
            ..
        } = &mut self.link
        else {
            return self.remove_in_leaf(place, steps);
        };
        let node = &mut **closed.open_mut(steps);
        let before = node.left.len();
        let item = if place < before {
            node.left.remove_below(place, steps)
        } else if place > before {
            node.right.remove_below(place - before - 1, steps)
        } else if node.right.len() > 0 {
            let next = node.right.remove_below(0, steps);
            mem::replace(&mut node.item, next)
        } else {
            return self.link.remove_last(steps);
        };
        let count = node.nodes();
        let told = measure.without(item.measure());
        self.link.settle_told(count, told, steps);
        item
    }

    /// The same where there is no node.
    pub(crate) fn remove_in_leaf<L: Ledger>(&mut self, place: u32, steps: &mut Steps<L>) -> T
        requires leaf { self.old.nodes ≡ 0 }
        requires within { place < length self.old.items }
        ensures item { slice_get self.old.items place ≡ Some result }
        ensures items { self.new.items ≡ remove self.old.items place }
        ensures leaf { self.new.nodes ≡ 0 }
        ensures visit { steps.new ≡ steps.old + 1 }
    {
        let Link::Leaf { items, measure } = &mut self.link else {
            unreachable!()
        };
        let item = items.remove(place as usize, measure, steps);
        if items.len() == 0 {
            self.link = Link::Empty;
        }
        item
    }

    /// Puts another item at a place, and gives the one that was there.
    pub(crate) fn replace_below<L: Ledger>(
        &mut self,
        place: u32,
        item: T,
        steps: &mut Steps<L>,
    ) -> T
        requires within { place < length self.old.items }
        ensures item { slice_get self.old.items place ≡ Some result }
        ensures items { self.new.items ≡ slice_set self.old.items place item }
        ensures nodes { self.new.nodes ≡ self.old.nodes }
        ensures few { self.old.nodes ≤ length self.old.items }
        ensures some { steps.old + 1 ≤ steps.new }
        ensures visits { FourALevel (weight self.old) steps.old steps.new }
    {
        let Link::Full {
            node: closed,
            measure,
            ..
        } = &mut self.link
        else {
            return self.replace_in_leaf(place, item, steps);
        };
        let node = &mut **closed.open_mut(steps);
        let before = node.left.len();
        let old = if place < before {
            node.left.replace_below(place, item, steps)
        } else if place > before {
            node.right.replace_below(place - before - 1, item, steps)
        } else {
            mem::replace(&mut node.item, item)
        };
        let told = exchanged(*measure, old.measure(), item.measure());
        let node = &mut **closed.open_mut(steps);
        *measure = node.measure_told(told);
        old
    }

    /// The same where there is no node.
    pub(crate) fn replace_in_leaf<L: Ledger>(
        &mut self,
        place: u32,
        item: T,
        steps: &mut Steps<L>,
    ) -> T
        requires leaf { self.old.nodes ≡ 0 }
        requires within { place < length self.old.items }
        ensures item { slice_get self.old.items place ≡ Some result }
        ensures items { self.new.items ≡ slice_set self.old.items place item }
        ensures leaf { self.new.nodes ≡ 0 }
        ensures visit { steps.new ≡ steps.old + 1 }
    {
        let Link::Leaf { items, measure } = &mut self.link else {
            unreachable!()
        };
        items.replace(place as usize, item, measure, steps)
    }
}

impl<T: Measured> Link<T> {
    /// Visits the node, on whose right there is nothing, and removes it: what stands on its left stays, and its item is given.
    fn remove_last<L: Ledger>(&mut self, steps: &mut Steps<L>) -> T
        requires last { HasNoRight self.old }
        ensures sound { IsSound T.Measure.unit_value T.Measure.joined T.measured self.new }
        ensures items { items_of self.old ≡ items_of self.new ++ result ∷ [] }
        ensures nodes { nodes_of self.old ≡ nodes_of self.new + 1 }
        ensures visit { steps.new ≡ steps.old + 1 }
    {
        let Link::Full { node, .. } = mem::replace(self, Link::Empty) else {
            unreachable!()
        };
        let mut node = node.into_open(steps);
        *self = node.take(Side::Left).link;
        node.item
    }
}
