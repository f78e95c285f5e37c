//! The items of a subtree, read one after another into a slice.
ghost use Rattle.std.specs.Prelude.{◌≡◌, ◌+◌, ◌-◌, ◌<◌, ◌≤◌, min, take, drop, length};
ghost use Rattle.std.specs.Fn.{FnReturnsAt};
ghost use Rattle.weighted_tree.specs.Balance.{weight};
ghost use Rattle.weighted_tree.specs.Reads.{Writes, VisitsOfRead};

use crate::leaf::read_in;
use crate::subtree::Subtree;
use costs::Steps;
use monoids::Measured;
use std::sync::ledger::Ledger;

impl<T: Measured> Subtree<T> {
    /// Writes what `shown` makes of the items from `from` on into a slice after its first `filled`, as many as fit or are
    /// there, and gives where they end.
    pub(crate) fn read<U: Copy, F: Fn(&T) -> U, L: Ledger>(
        &self,
        from: u32,
        shown: &F,
        items: &mut [U],
        filled: usize,
        steps: &mut Steps<L>,
    ) -> usize
        requires within { from ≤ length self.now.items }
        requires room { filled ≤ length items.old }
        requires callable { F.IsAlwaysCallable shown.now }
        ensures end { result ≡ filled + min (length self.now.items - from) (length items.old - filled) }
        ensures size { length items.new ≡ length items.old }
        ensures items { Writes F.Fn shown.now (take (result - filled) (drop from self.now.items)) filled items.old items.new }
        ensures few { self.now.nodes ≤ length self.now.items }
        ensures each { steps.old + (result - filled) ≤ steps.new }
        ensures visits { VisitsOfRead (weight self.now) from (length self.now.items - from - (result - filled))
            (steps.old + (result - filled)) steps.new }
    {
        if from == self.len() || filled == items.len() {
            return filled;
        }
        let Some(node) = self.root(steps) else {
            return self.read_leaf(from, shown, items, filled, steps);
        };
        let before = node.left.len();
        if from > before {
            return node
                .right
                .read(from - before - 1, shown, items, filled, steps);
        }
        let end = node.left.read(from, shown, items, filled, steps);
        if end == items.len() {
            return end;
        }
        items[end] = show(shown, &node.item);
        node.right.read(0, shown, items, end + 1, steps)
    }

    /// The same where there is no node, and something to be read.
    fn read_leaf<U: Copy, F: Fn(&T) -> U, L: Ledger>(
        &self,
        from: u32,
        shown: &F,
        items: &mut [U],
        filled: usize,
        steps: &mut Steps<L>,
    ) -> usize
        requires leaf { self.now.nodes ≡ 0 }
        requires some { from < length self.now.items }
        requires room { filled < length items.old }
        requires callable { F.IsAlwaysCallable shown.now }
        ensures end { result ≡ filled + min (length self.now.items - from) (length items.old - filled) }
        ensures size { length items.new ≡ length items.old }
        ensures items { Writes F.Fn shown.now (take (result - filled) (drop from self.now.items)) filled items.old items.new }
        ensures visits { steps.new ≡ steps.old + (result - filled) }
    {
        let Some(leaf) = self.leaf(steps) else {
            unreachable!()
        };
        let from = from as usize;
        let count = (leaf.len() - from).min(items.len() - filled);
        read_in(leaf, from, count, shown, items, filled, steps);
        filled + count
    }
}

/// What the closure makes of an item.
#[inline(always)]
pub(crate) fn show<T, U, F: Fn(&T) -> U>(shown: &F, item: &T) -> U
    requires { F.IsAlwaysCallable shown.now }
    ensures { FnReturnsAt F.Fn shown.now item.now result }
{
    shown(item)
}
