//! Edits of the items of a leaf. Each tells their measure too: from what it was, where the monoid can, and else from all of them.
ghost use Rattle.std.specs.Prelude.{◌≡◌, ◌^◌, ◌<◌, ◌≤◌, length, slice_get, slice_set, Some, IfSome, OnOk, OnErr};
ghost use Rattle.std.specs.List.{insert, remove};
ghost use Rattle.weighted_tree.specs.Measures.{measure_in};
ghost use Rattle.weighted_tree.specs.Nodes.{full};

use crate::leaf::measure_between;
use crate::room::make_room;
use costs::NoMemory;
use monoids::{Measured, Monoid};

/// Puts one more item in at a place.
pub(crate) fn insert_item<T: Measured>(
    items: &mut Vec<T>,
    place: usize,
    item: T,
    measure: &mut T::Measure,
) -> Result<(), NoMemory>
    requires within { place ≤ length items.old.items }
    requires room { length items.old.items < full }
    requires told { measure.old ≡ measure_in T.Measured T.Measure.Monoid items.old.items }
    ensures ok { OnOk result (items.new.items ≡ insert items.old.items place item) }
    ensures err { OnErr result (items.new.items ≡ items.old.items) }
    ensures told { measure.new ≡ measure_in T.Measured T.Measure.Monoid items.new.items }
{
    make_room(items)?;
    let told = measure.with(item.measure());
    match items.insert(place, item) {
        Ok(()) => {
            *measure = measure_told(items, told);
            Ok(())
        }
        Err(_) => Err(NoMemory),
    }
}

/// Takes the item at a place out, and gives it.
pub(crate) fn remove_item<T: Measured>(
    items: &mut Vec<T>,
    place: usize,
    measure: &mut T::Measure,
) -> T
    requires within { place < length items.old.items }
    requires few { length items.old.items ≤ full }
    requires told { measure.old ≡ measure_in T.Measured T.Measure.Monoid items.old.items }
    ensures item { slice_get items.old.items place ≡ Some result }
    ensures items { items.new.items ≡ remove items.old.items place }
    ensures few { length items.new.items ≤ full }
    ensures told { measure.new ≡ measure_in T.Measured T.Measure.Monoid items.new.items }
{
    let item = items.remove(place);
    let told = measure.without(item.measure());
    *measure = measure_told(items, told);
    item
}

/// Puts another item at a place, and gives the one that was there.
pub(crate) fn put_for<T: Measured>(
    items: &mut Vec<T>,
    place: usize,
    item: T,
    measure: &mut T::Measure,
) -> T
    requires within { place < length items.old.items }
    requires few { length items.old.items ≤ full }
    requires told { measure.old ≡ measure_in T.Measured T.Measure.Monoid items.old.items }
    ensures item { slice_get items.old.items place ≡ Some result }
    ensures items { items.new.items ≡ slice_set items.old.items place item }
    ensures told { measure.new ≡ measure_in T.Measured T.Measure.Monoid items.new.items }
{
    let old = items[place];
    items[place] = item;
    let told = exchanged(*measure, old.measure(), item.measure());
    *measure = measure_told(items, told);
    old
}

/// The measure of items of which one gave way to another, where the measures tell it.
pub(crate) fn exchanged<M: Monoid>(whole: M, old: M, new: M) -> Option<M>
    requires fits { M.items_of whole < 2 ^ 32 }
    requires few { M.items_of new ≤ M.items_of old }
    ensures { (before after : M) → whole ≡ M.joined (M.joined before old) after → IfSome result (λ all. all ≡ M.joined (M.joined before new) after) }
{
    match whole.without(old) {
        Some(rest) => rest.with(new),
        None => None,
    }
}

/// The measure of the items of a leaf, which may be told already.
fn measure_told<T: Measured>(items: &[T], told: Option<T::Measure>) -> T::Measure
    requires few { length items.now ≤ full }
    requires told { IfSome told (λ measure. measure ≡ measure_in T.Measured T.Measure.Monoid items.now) }
    ensures { result ≡ measure_in T.Measured T.Measure.Monoid items.now }
{
    match told {
        Some(measure) => measure,
        None => measure_between(items, 0, items.len()),
    }
}
