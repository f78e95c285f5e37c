//! The balance of a node, which rotations restore where one side gained or lost a node.
ghost use Rattle.std.specs.Prelude.{◌≡◌, ◌+◌, ◌^◌, ◌<◌, ◌≤◌, length, IfSome, IfNone};
ghost use Rattle.weighted_tree.specs.Measures.{measure_in};
ghost use Rattle.weighted_tree.specs.Balance.{weight, IsNearlyBalanced, IsTooHeavy};
ghost use Rattle.weighted_tree.specs.Nodes.{node_items, node_count, items_of, nodes_of, HasBalance, HasChangedSide, IsSound, IsUnsettled};
ghost use Rattle.weighted_tree.specs.Sides.{other, side_of};

use crate::node::Side;
use crate::subtree::{Link, Node, Subtree};
use costs::Steps;
use monoids::{Measured, Monoid};
use std::mem;
use std::sync::ledger::Ledger;

impl<T: Measured> Link<T> {
    /// Visits the node again, of which one side gained or lost an item since, and tells again what the link leads to. Where
    /// there are other nodes below it too, its balance is restored first.
    pub(crate) fn settle<L: Ledger>(&mut self, steps: &mut Steps<L>)
        requires nearly { IsUnsettled self.old }
        ensures sound { IsSound T.Measure.unit_value T.Measure.joined T.measured self.new }
        ensures items { items_of self.new ≡ items_of self.old }
        ensures nodes { nodes_of self.new ≡ nodes_of self.old }
        ensures some { steps.old + 1 ≤ steps.new }
        ensures visits { steps.new ≤ steps.old + 3 }
    {
        let Link::Full {
            size,
            nodes,
            node,
            measure,
        } = self
        else {
            unreachable!()
        };
        let root = node.open_mut(steps);
        restore(root, nodes, steps);
        *size = root.size();
        *measure = root.measure();
    }

    /// The same where the number of the nodes is known, and what the items measure may be told. Only where it is told and
    /// there are as many nodes as before, the node is not visited again.
    #[inline(always)]
    pub(crate) fn settle_told<L: Ledger>(
        &mut self,
        count: u32,
        told: Option<T::Measure>,
        steps: &mut Steps<L>,
    )
        requires nearly { IsUnsettled self.old }
        requires count { count ≡ nodes_of self.old }
        requires few { count ≤ length (items_of self.old) }
        requires told { IfSome told (λ measure. measure ≡ measure_in T.Measured T.Measure.Monoid (items_of self.old)) }
        ensures sound { IsSound T.Measure.unit_value T.Measure.joined T.measured self.new }
        ensures items { items_of self.new ≡ items_of self.old }
        ensures nodes { nodes_of self.new ≡ nodes_of self.old }
        ensures none_lost { steps.old ≤ steps.new }
        ensures untold { IfNone told (steps.old + 1 ≤ steps.new) }
        ensures visits { steps.new ≤ steps.old + 3 }
    {
        let Link::Full {
            size,
            nodes,
            measure,
            ..
        } = self
        else {
            unreachable!()
        };
        if count == *nodes {
            if let Some(whole) = told {
                *size = whole.items();
                *measure = whole;
                return;
            }
        }
        self.settle(steps);
    }
}

/// Restores the balance of a node where there are other nodes below it than were told, and tells their number.
fn restore<T: Measured, L: Ledger>(root: &mut Box<Node<T>>, told: &mut u32, steps: &mut Steps<L>)
    requires changed { HasChangedSide told.old root.old.value }
    ensures balanced { HasBalance root.new.value }
    ensures items { node_items root.new.value ≡ node_items root.old.value }
    ensures nodes { node_count root.new.value ≡ node_count root.old.value }
    ensures told { told.new ≡ node_count root.new.value }
    ensures few { told.new ≤ length (node_items root.new.value) }
    ensures none_lost { steps.old ≤ steps.new }
    ensures visits { steps.new ≤ steps.old + 2 }
{
    let count = root.nodes();
    if count != *told {
        balance(root, steps);
        *told = count;
    }
}

/// Restores the balance of a node of which one side gained or lost an item.
fn balance<T: Measured, L: Ledger>(root: &mut Box<Node<T>>, steps: &mut Steps<L>)
    requires nearly { IsNearlyBalanced (weight root.old.value.left) (weight root.old.value.right) }
    requires fits { length (node_items root.old.value) < 2 ^ 32 }
    ensures balanced { HasBalance root.new.value }
    ensures items { node_items root.new.value ≡ node_items root.old.value }
    ensures nodes { node_count root.new.value ≡ node_count root.old.value }
    ensures none_lost { steps.old ≤ steps.new }
    ensures visits { steps.new ≤ steps.old + 2 }
{
    if root.is_balanced() {
        return;
    }
    if root.left.nodes() > root.right.nodes() {
        rotate(Side::Left, root, steps);
    } else {
        rotate(Side::Right, root, steps);
    }
}

/// Rotates a node that is too heavy on `side`. The child of that side becomes the root, or its inner
/// child where that one weighs twice as much as the outer one.
fn rotate<T: Measured, L: Ledger>(side: Side, root: &mut Box<Node<T>>, steps: &mut Steps<L>)
    requires heavy { IsTooHeavy (weight (side_of side root.old.value)) (weight (side_of (other side) root.old.value)) }
    requires fits { length (node_items root.old.value) < 2 ^ 32 }
    ensures balanced { HasBalance root.new.value }
    ensures items { node_items root.new.value ≡ node_items root.old.value }
    ensures nodes { node_count root.new.value ≡ node_count root.old.value }
    ensures none_lost { steps.old ≤ steps.new }
    ensures visits { steps.new ≤ steps.old + 2 }
{
    let far = side.other();
    let Some(mut child) = root.take(side).into_root(steps) else {
        unreachable!()
    };
    if child.weight(far) < 2 * child.weight(side) {
        root.put(side, child.take(far));
        let node = mem::replace(root, child);
        root.put(far, Subtree::of_root(node));
        return;
    }
    let Some(inner) = child.take(far).into_root(steps) else {
        unreachable!()
    };
    let mut node = mem::replace(root, inner);
    child.put(far, root.take(side));
    node.put(side, root.take(far));
    root.put(side, Subtree::of_root(child));
    root.put(far, Subtree::of_root(node));
}
