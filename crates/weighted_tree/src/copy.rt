//! A copy of a subtree.
ghost use Rattle.std.specs.Prelude.{◌≡◌, ◌+◌, ◌≤◌, length, IfOk, OnOk, OnErr};

use crate::subtree::{Node, Subtree};
use costs::{NoMemory, Steps};
use monoids::Measured;
use std::alloc::Global;
use std::sync::ledger::Ledger;

impl<T: Measured> Subtree<T> {
    /// A subtree of the same items.
    pub(crate) fn copy<L: Ledger>(
        &self,
        alloc: Global,
        steps: &mut Steps<L>,
    ) -> Result<Subtree<T>, NoMemory>
        ensures items { IfOk result (λ copy. copy ≡ self.now) }
        ensures none_lost { steps.old ≤ steps.new }
        ensures ok_visits { OnOk result (steps.new ≡ steps.old + length self.now.items) }
        ensures err_visits { OnErr result (steps.new ≤ steps.old + length self.now.items) }
    {
        let Some(node) = self.root(steps) else {
            return self.copy_leaf(alloc, steps);
        };
        let left = node.left.copy(alloc, steps)?;
        let right = node.right.copy(alloc, steps)?;
        let item = node.item;
        let copy = Box::new(alloc, Node { left, item, right })?;
        Ok(Subtree::of_root(copy))
    }

    /// The same where there is no node: each item counts as a visit.
    pub(crate) fn copy_leaf<L: Ledger>(
        &self,
        alloc: Global,
        steps: &mut Steps<L>,
    ) -> Result<Subtree<T>, NoMemory>
        requires leaf { self.now.nodes ≡ 0 }
        ensures items { IfOk result (λ copy. copy ≡ self.now) }
        ensures visits { steps.new ≡ steps.old + length self.now.items }
    {
        let count = self.len();
        if count == 0 {
            return Ok(Subtree::new());
        }
        let Some(items) = self.leaf(steps) else {
            unreachable!()
        };
        let mut counted = 1;
        'on: while counted < count {
            steps.tick();
            counted = counted + 1;
        }
        Ok(Subtree::of_items(Vec::from_slice(alloc, items)?))
    }
}
