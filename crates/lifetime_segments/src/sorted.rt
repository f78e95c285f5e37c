//! Orders, and trees that keep their items in them.
ghost use Rattle.std.specs.Prelude.{◌≡◌, ◌<◌, ◌≤◌, ◌^◌, Bool, true, suc, length, OnOk, OnErr};
ghost use Rattle.lifetime_segments.specs.Ordered.{IsOrder, AreInOrder, insert_by, is_in, without, place_in, position_in};
ghost use Rattle.lifetime_segments.specs.Lifetimes.{stands_by_item, stands_earlier};
ghost use Rattle.lifetime_segments.specs.LifetimeLaws.{by_item_order, earlier_order};

use crate::decomposable::Decomposable;
use crate::lifetime::Lifetime;
use monoid_laws::Measured;
use retro_base::NoMemory;
use std::marker::PhantomData;
use weighted_tree::{Tree, uncounted};

/// An order in which items are kept.
pub(crate) trait Order {
    /// What stands in the order.
    type Item: Measured;

    /// Whether the first item stands before the second.
    ghost stands_before: { Self.Item → Self.Item → Bool };

    /// Whether the first item stands before the second.
    fn before(first: &Self::Item, second: &Self::Item) -> bool
        ensures { result ≡ stands_before first.now second.now };

    /// It is strict and total.
    ghost order: { IsOrder stands_before };
}

/// The order of the items of a search.
pub(crate) struct ByItem<D>(PhantomData<D>);

impl<D: Decomposable> Order for ByItem<D> {
    type Item = D::Item;

    ghost stands_before = { D.stands_before };

    ghost order = { D.order };

    fn before(first: &D::Item, second: &D::Item) -> bool {
        D::before(first, second)
    }
}

/// The order of a list of lifetimes: by where they begin, then by where they end, then by their items.
pub(crate) struct ByStart<O>(PhantomData<O>);

impl<O: Order> Order for ByStart<O> {
    type Item = Lifetime<O::Item>;

    ghost stands_before = { stands_earlier O.stands_before };

    ghost order = { earlier_order O.order };

    fn before(first: &Lifetime<O::Item>, second: &Lifetime<O::Item>) -> bool {
        first.from < second.from
            || (first.from == second.from
                && (first.to < second.to
                    || (first.to == second.to && O::before(&first.item, &second.item))))
    }
}

/// The order of the few lifetimes of a span: by their items, then by where they begin, then by where they end.
pub(crate) struct LivesByItem<O>(PhantomData<O>);

impl<O: Order> Order for LivesByItem<O> {
    type Item = Lifetime<O::Item>;

    ghost stands_before = { stands_by_item O.stands_before };

    ghost order = { by_item_order O.order };

    fn before(first: &Lifetime<O::Item>, second: &Lifetime<O::Item>) -> bool {
        O::before(&first.item, &second.item)
            || (!O::before(&second.item, &first.item)
                && (first.from < second.from
                    || (first.from == second.from && first.to < second.to)))
    }
}

/// How many of the items stand before one: its place among them.
pub(crate) fn place_of<O: Order>(items: &Tree<O::Item>, item: &O::Item) -> u32
    requires ordered { AreInOrder O.stands_before items.now }
    ensures { result ≡ place_in O.stands_before item.now items.now }
{
    uncounted::partition_point(items, |other: &O::Item| O::before(other, item))
}

/// Puts an item in at its place.
pub(crate) fn put<O: Order>(items: &mut Tree<O::Item>, item: O::Item) -> Result<(), NoMemory>
    requires ordered { AreInOrder O.stands_before items.old }
    requires room { length items.old < 2 ^ 31 }
    ensures ok { OnOk result (items.new ≡ insert_by O.stands_before item items.old) }
    ensures err { OnErr result (items.new ≡ items.old) }
{
    let place = place_of::<O>(items, &item);
    uncounted::insert(items, place, item)
}

/// The place of an item, if it is there.
pub(crate) fn position<O: Order>(items: &Tree<O::Item>, item: &O::Item) -> Option<u32>
    requires ordered { AreInOrder O.stands_before items.now }
    ensures { result ≡ position_in O.stands_before item.now items.now }
{
    let place = place_of::<O>(items, item);
    if place < items.len() && !O::before(item, &uncounted::get(items, place)) {
        Some(place)
    } else {
        None
    }
}

/// Whether an item that would be put in at the place `next` stands in order in the place of another: right before that
/// one, or right after it.
pub(crate) fn is_beside(place: usize, next: usize) -> bool
    ensures before { result ≡ true → place ≤ next }
    ensures after { result ≡ true → next ≤ suc place }
{
    place <= next && next - place <= 1
}

/// Takes an item out that is there.
pub(crate) fn remove_ordered<O: Order>(items: &mut Tree<O::Item>, item: O::Item)
    requires ordered { AreInOrder O.stands_before items.old }
    requires there { is_in O.stands_before item items.old ≡ true }
    ensures { items.new ≡ without O.stands_before item items.old }
{
    let place = place_of::<O>(items, &item);
    uncounted::remove(items, place);
}
