//! The items of a leaf: what a range of them measures, where a test turns among them, and how a full leaf is divided.
ghost use Rattle.std.specs.Prelude.{◌≡◌, ◌+◌, ◌-◌, ◌^◌, ◌<◌, ◌≤◌, ◌++◌, ◌∷◌, take, drop, length, slice_get, Some, IfOk, OnErr};
ghost use Rattle.std.specs.List.{insert, slice_range};
ghost use Rattle.weighted_tree.specs.Balance.{no_part};
ghost use Rattle.weighted_tree.specs.Measures.{measure_in, passing};
ghost use Rattle.weighted_tree.specs.Nodes.{full};
ghost use Rattle.weighted_tree.specs.Reads.{Writes};
ghost use Rattle.weighted_tree.specs.Search.{FindsPartition};
ghost use Rattle.weighted_tree.specs.SearchSteps.{IsSought, joined_after};
ghost use Rattle.weighted_tree.specs.Sides.{seen_from};

use crate::node::Side;
use crate::room::{give_back, room_for};
use crate::search::{Search, passes};
use crate::subtree::{Node, Subtree};
use crate::walk::show;
use costs::{NoMemory, Steps};
use monoids::{Measured, Monoid};
use std::alloc::Global;
use std::sync::ledger::Ledger;

/// So many items fill a leaf.
pub(crate) const FULL: usize = 32;

/// The measure of the items of a leaf from `from` to before `to`.
#[inline(always)]
pub(crate) fn measure_between<T: Measured>(items: &[T], from: usize, to: usize) -> T::Measure
    requires order { from ≤ to }
    requires within { to ≤ length items.now }
    requires fits { length items.now < 2 ^ 32 }
    ensures value { result ≡ measure_in T.Measured T.Measure.Monoid (slice_range items.now from to) }
    ensures items { T.Measure.items_of result + from ≡ to }
{
    let (mut joined, mut end) = (T::Measure::unit(), from);
    'on: while end < to {
        joined = joined.join(items[end].measure());
        end = end + 1;
    }
    joined
}

/// How many items of a leaf after the place `from`, seen from `side`, a test turns true of the measure before them joined
/// with theirs.
#[inline(always)]
pub(crate) fn boundary_in<T: Measured, F: Fn(&T::Measure) -> bool>(
    items: &[T],
    side: Side,
    from: u32,
    before: T::Measure,
    test: &F,
) -> Search<T::Measure>
    requires within { from ≤ length items.now }
    requires fits { T.Measure.items_of before + length items.now < 2 ^ 32 }
    requires callable { F.IsAlwaysCallable test.now }
    ensures { IsSought F.Fn test.now (joined_after T.Measure.items_of before)
        (passing side T.Measured T.Measure.Monoid before (drop from (seen_from side items.now)))
        (length items.now - from) result }
{
    if passes(test, &before) {
        return Search::Found(0);
    }
    let rest = items.len() as u32 - from;
    let (mut passed, mut count) = (before, 0);
    'on: while count < rest {
        let item = item_from(items, side, from + count);
        passed = side.join(passed, item.measure());
        count = count + 1;
        if passes(test, &passed) {
            return Search::Found(count);
        }
    }
    Search::Open(passed)
}

/// The item at a place, seen from `side`.
#[inline(always)]
fn item_from<T: Copy>(items: &[T], side: Side, place: u32) -> T
    requires within { place < length items.now }
    requires fits { length items.now < 2 ^ 32 }
    ensures { slice_get (seen_from side items.now) place ≡ Some result }
{
    let place = place as usize;
    match side {
        Side::Left => items[place],
        Side::Right => items[items.len() - place - 1],
    }
}

/// How many items of a leaf a test holds of, where it holds of none after one of which it does not.
pub(crate) fn partition_in<T: Copy, F: Fn(&T) -> bool>(items: &[T], test: &F) -> usize
    requires callable { F.IsAlwaysCallable test.now }
    ensures partition { FindsPartition F.Fn test.now items.now result }
    ensures within { result ≤ length items.now }
{
    let (mut low, mut high) = (0, items.len());
    'halve: while low < high {
        let middle = low + (high - low) / 2;
        if passes(test, &items[middle]) {
            low = middle + 1;
        } else {
            high = middle;
        }
    }
    low
}

/// Writes what `shown` makes of `count` items of a leaf from `from` on into a slice after its first `filled`, and counts
/// each but the first.
pub(crate) fn read_in<T: Copy, U: Copy, F: Fn(&T) -> U, L: Ledger>(
    leaf: &[T],
    from: usize,
    count: usize,
    shown: &F,
    items: &mut [U],
    filled: usize,
    steps: &mut Steps<L>,
)
    requires some { 0 < count }
    requires within { from + count ≤ length leaf.now }
    requires room { filled + count ≤ length items.old }
    requires callable { F.IsAlwaysCallable shown.now }
    ensures size { length items.new ≡ length items.old }
    ensures items { Writes F.Fn shown.now (take count (drop from leaf.now)) filled items.old items.new }
    ensures visits { steps.new + 1 ≡ steps.old + count }
{
    let mut done = 0;
    'on: while done < count {
        items[filled + done] = show(shown, &leaf[from + done]);
        if done > 0 {
            steps.tick();
        }
        done = done + 1;
    }
}

/// Divides the items of a full leaf where one more comes in at a place: those of the first half stay, and a node without a
/// left side has the next one and the others.
pub(crate) fn divide<T: Measured>(
    items: &mut Vec<T>,
    place: usize,
    item: T,
    alloc: Global,
) -> Result<Box<Node<T>>, NoMemory>
    requires some { 0 < length items.old.items }
    requires within { place ≤ length items.old.items }
    requires few { length items.old.items ≤ full }
    ensures ok { IfOk result (λ node. items.new.items ++ node.value.item ∷ node.value.right.items ≡ insert items.old.items place item) }
    ensures right { IfOk result (λ node. node.value.right.nodes ≡ 0) }
    ensures left { IfOk result (λ node. node.value.left ≡ no_part) }
    ensures few { length items.new.items ≤ full }
    ensures err { OnErr result (items.new.items ≡ items.old.items) }
{
    let cut = cut_at(items.len(), place);
    let middle = items[cut];
    let right = divided_right(items.as_slice(), cut, place, item, alloc)?;
    let mut node = Box::new(alloc, Node::alone(middle))?;
    node.right = Subtree::of_items(right);
    divide_left(items, cut, place, item);
    Ok(node)
}

/// Leaves the items before the one where a full leaf is divided, and puts the new one in where it comes among them. The room for
/// the others is given back.
fn divide_left<T: Copy>(items: &mut Vec<T>, cut: usize, place: usize, item: T)
    requires cut { cut < length items.old.items }
    requires few { length items.old.items ≤ full }
    ensures before { place ≤ cut → items.new.items ≡ insert (take cut items.old.items) place item }
    ensures after { cut < place → items.new.items ≡ take cut items.old.items }
{
    items.truncate(cut);
    if place <= cut {
        let Ok(()) = items.insert(place, item) else {
            unreachable!()
        };
    }
    give_back(items);
}

/// Puts one more item in at a place, and takes the first one out.
pub(crate) fn shift_in<T: Copy>(items: &mut Vec<T>, place: usize, item: T) -> T
    requires some { 0 < length items.old.items }
    requires within { place ≤ length items.old.items }
    ensures { result ∷ items.new.items ≡ insert items.old.items place item }
{
    if place == 0 {
        return item;
    }
    let first = items.remove(0);
    let Ok(()) = items.insert(place - 1, item) else {
        unreachable!()
    };
    first
}

/// Where a full leaf is divided: at an end where the new item comes there, so that leaves that are filled in order stay full,
/// and else in the middle.
fn cut_at(count: usize, place: usize) -> usize
    requires some { 0 < count }
    ensures within { result < count }
{
    if place == 0 {
        0
    } else if place == count {
        count - 1
    } else {
        count / 2
    }
}

/// The items of a full leaf after the one where it is divided, and the new one where it comes among them.
fn divided_right<T: Measured>(
    items: &[T],
    cut: usize,
    place: usize,
    item: T,
    alloc: Global,
) -> Result<Vec<T>, NoMemory>
    requires cut { cut < length items.now }
    requires few { length items.now ≤ full }
    requires within { place ≤ length items.now }
    ensures before { place ≤ cut → IfOk result (λ right. right.items ≡ drop (cut + 1) items.now) }
    ensures after { cut < place → IfOk result (λ right. right.items ≡ insert (drop (cut + 1) items.now) (place - cut - 1) item) }
{
    let (_, rest) = items.split_at(cut + 1);
    let mut right = Vec::with_capacity(alloc, room_for(items.len() - cut))?;
    right.extend_from_slice(rest)?;
    if place > cut {
        right.insert(place - cut - 1, item)?;
    }
    Ok(right)
}
