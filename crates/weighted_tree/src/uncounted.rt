//! Calls of a tree for a caller that counts nothing: each opens a counter of its own. Conditions and answers are those of the
//! calls of `Tree` with the same names; `last_place` and `copy` have no such twin.
ghost use Rattle.std.specs.Prelude.{◌≡◌, ◌-◌, ◌^◌, ◌<◌, ◌≤◌, min, length, take, drop, slice_get, slice_set, Some, IfSome, OnOk, OnErr};
ghost use Rattle.std.specs.List.{insert, remove, slice_range};
ghost use Rattle.costs.specs.Visits.{OpensCounter};
ghost use Rattle.weighted_tree.specs.Measures.{measure_in, from_place};
ghost use Rattle.weighted_tree.specs.Reads.{Writes};
ghost use Rattle.weighted_tree.specs.Search.{FindsFirst, FindsPartition};

use crate::tree::Tree;
use costs::{NoMemory, Steps};
use monoids::Measured;
use std::marker::Brand;
use std::sync::ledger::{Blank, Ledger};

/// `get` of the tree.
pub fn get<T: Measured>(tree: &Tree<T>, place: u32) -> T
    requires within { place < length tree.now }
    ensures item { slice_get tree.now place ≡ Some result }
{
    item_at::<T, Brand>(tree, place, Blank::new(1))
}

fn item_at<T: Measured, L: Ledger>(tree: &Tree<T>, place: u32, blank: Blank) -> T
    requires within { place < length tree.now }
    requires counter { OpensCounter blank.name L.name blank.parts L.parts }
    ensures item { slice_get tree.now place ≡ Some result }
{
    let mut steps = Steps::<L>::new(blank);
    tree.get(place, &mut steps)
}

/// `read` of the tree.
pub fn read<T: Measured, U: Copy, F: Fn(&T) -> U>(
    tree: &Tree<T>,
    from: u32,
    shown: F,
    items: &mut [U],
) -> usize
    requires within { from ≤ length tree.now }
    requires callable { F.IsAlwaysCallable shown }
    ensures count { result ≡ min (length tree.now - from) (length items.old) }
    ensures items { Writes F.Fn shown (take result (drop from tree.now)) 0 items.old items.new }
{
    write_items::<T, U, F, Brand>(tree, from, shown, items, Blank::new(1))
}

fn write_items<T: Measured, U: Copy, F: Fn(&T) -> U, L: Ledger>(
    tree: &Tree<T>,
    from: u32,
    shown: F,
    items: &mut [U],
    blank: Blank,
) -> usize
    requires within { from ≤ length tree.now }
    requires callable { F.IsAlwaysCallable shown }
    requires counter { OpensCounter blank.name L.name blank.parts L.parts }
    ensures count { result ≡ min (length tree.now - from) (length items.old) }
    ensures items { Writes F.Fn shown (take result (drop from tree.now)) 0 items.old items.new }
{
    let mut steps = Steps::<L>::new(blank);
    tree.read(from, shown, items, &mut steps)
}

/// `insert` of the tree.
pub fn insert<T: Measured>(tree: &mut Tree<T>, place: u32, item: T) -> Result<(), NoMemory>
    requires within { place ≤ length tree.old }
    requires room { length tree.old < 2 ^ 31 }
    ensures ok { OnOk result (tree.new ≡ insert tree.old place item) }
    ensures err { OnErr result (tree.new ≡ tree.old) }
{
    insert_with_counter::<T, Brand>(tree, place, item, Blank::new(1))
}

fn insert_with_counter<T: Measured, L: Ledger>(
    tree: &mut Tree<T>,
    place: u32,
    item: T,
    blank: Blank,
) -> Result<(), NoMemory>
    requires within { place ≤ length tree.old }
    requires room { length tree.old < 2 ^ 31 }
    requires counter { OpensCounter blank.name L.name blank.parts L.parts }
    ensures ok { OnOk result (tree.new ≡ insert tree.old place item) }
    ensures err { OnErr result (tree.new ≡ tree.old) }
{
    let mut steps = Steps::<L>::new(blank);
    tree.insert(place, item, &mut steps)
}

/// `remove` of the tree.
pub fn remove<T: Measured>(tree: &mut Tree<T>, place: u32) -> T
    requires within { place < length tree.old }
    ensures item { slice_get tree.old place ≡ Some result }
    ensures items { tree.new ≡ remove tree.old place }
{
    remove_with_counter::<T, Brand>(tree, place, Blank::new(1))
}

fn remove_with_counter<T: Measured, L: Ledger>(tree: &mut Tree<T>, place: u32, blank: Blank) -> T
    requires within { place < length tree.old }
    requires counter { OpensCounter blank.name L.name blank.parts L.parts }
    ensures item { slice_get tree.old place ≡ Some result }
    ensures items { tree.new ≡ remove tree.old place }
{
    let mut steps = Steps::<L>::new(blank);
    tree.remove(place, &mut steps)
}

/// `replace` of the tree.
pub fn replace<T: Measured>(tree: &mut Tree<T>, place: u32, item: T) -> T
    requires within { place < length tree.old }
    ensures item { slice_get tree.old place ≡ Some result }
    ensures items { tree.new ≡ slice_set tree.old place item }
{
    exchange::<T, Brand>(tree, place, item, Blank::new(1))
}

fn exchange<T: Measured, L: Ledger>(tree: &mut Tree<T>, place: u32, item: T, blank: Blank) -> T
    requires within { place < length tree.old }
    requires counter { OpensCounter blank.name L.name blank.parts L.parts }
    ensures item { slice_get tree.old place ≡ Some result }
    ensures items { tree.new ≡ slice_set tree.old place item }
{
    let mut steps = Steps::<L>::new(blank);
    tree.replace(place, item, &mut steps)
}

/// `measure` of the tree.
pub fn measure<T: Measured>(tree: &Tree<T>, from: u32, to: u32) -> T::Measure
    requires order { from ≤ to }
    requires within { to ≤ length tree.now }
    ensures value { result ≡ measure_in T.Measured T.Measure.Monoid (slice_range tree.now from to) }
{
    between::<T, Brand>(tree, from, to, Blank::new(1))
}

fn between<T: Measured, L: Ledger>(tree: &Tree<T>, from: u32, to: u32, blank: Blank) -> T::Measure
    requires order { from ≤ to }
    requires within { to ≤ length tree.now }
    requires counter { OpensCounter blank.name L.name blank.parts L.parts }
    ensures value { result ≡ measure_in T.Measured T.Measure.Monoid (slice_range tree.now from to) }
{
    let mut steps = Steps::<L>::new(blank);
    tree.measure(from, to, &mut steps)
}

/// `first_place` of the tree.
pub fn first_place<T: Measured, F: Fn(&T::Measure) -> bool>(
    tree: &Tree<T>,
    from: u32,
    test: F,
) -> Option<u32>
    requires within { from ≤ length tree.now }
    requires callable { F.IsAlwaysCallable test }
    ensures first { FindsFirst F.Fn test
        (from_place T.Measured T.Measure.Monoid tree.now from) from (length tree.now) result }
    ensures within { IfSome result (λ place. (from ≤ place) × (place ≤ length tree.now)) }
{
    find_first::<T, F, Brand>(tree, from, test, Blank::new(1))
}

fn find_first<T: Measured, F: Fn(&T::Measure) -> bool, L: Ledger>(
    tree: &Tree<T>,
    from: u32,
    test: F,
    blank: Blank,
) -> Option<u32>
    requires within { from ≤ length tree.now }
    requires callable { F.IsAlwaysCallable test }
    requires counter { OpensCounter blank.name L.name blank.parts L.parts }
    ensures first { FindsFirst F.Fn test
        (from_place T.Measured T.Measure.Monoid tree.now from) from (length tree.now) result }
    ensures within { IfSome result (λ place. (from ≤ place) × (place ≤ length tree.now)) }
{
    let mut steps = Steps::<L>::new(blank);
    tree.first_place(from, test, &mut steps)
}

/// `partition_point` of the tree.
pub fn partition_point<T: Measured, F: Fn(&T) -> bool>(tree: &Tree<T>, test: F) -> u32
    requires callable { F.IsAlwaysCallable test }
    ensures partition { FindsPartition F.Fn test tree.now result }
    ensures within { result ≤ length tree.now }
{
    find_partition::<T, F, Brand>(tree, test, Blank::new(1))
}

fn find_partition<T: Measured, F: Fn(&T) -> bool, L: Ledger>(
    tree: &Tree<T>,
    test: F,
    blank: Blank,
) -> u32
    requires callable { F.IsAlwaysCallable test }
    requires counter { OpensCounter blank.name L.name blank.parts L.parts }
    ensures partition { FindsPartition F.Fn test tree.now result }
    ensures within { result ≤ length tree.now }
{
    let mut steps = Steps::<L>::new(blank);
    tree.partition_point(test, &mut steps)
}
