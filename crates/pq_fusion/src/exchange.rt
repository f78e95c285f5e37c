//! One entry of a vector in the place of another.

ghost use Rattle.std.specs.Prelude.{◌≡◌, ◌+◌, ◌<◌, List, length, OnOk, vec_capacity, vec_len};
ghost use Rattle.retro_base.specs.declared.row.Entry.{Entry};
ghost use Rattle.retro_base.specs.EntriesInOrder.{AreInOrder};
ghost use Rattle.retro_base.specs.State.{with_entry};
ghost use Rattle.costs.specs.Visits.{OpensCounter};
ghost use Rattle.pq_fusion.specs.Bounds.{with_bound};
ghost use Rattle.pq_fusion.specs.Exchanges.{Has, HasBound, IsExchange, IsPlaceOf};
ghost use Rattle.pq_fusion.specs.Searches.{SearchesWithin};

use crate::Bound;
use retro_base::{Entry, NoMemory, Steps};
use std::marker::Brand;
use std::sync::ledger::{Blank, Ledger};

/// Sees to it that one more element has room in a list, which otherwise grows by an eighth.
pub(crate) fn make_room<T>(list: &mut Vec<T>) -> Result<(), NoMemory>
    ensures items { list.new.items ≡ list.old.items }
    ensures room { OnOk result (vec_len list.new < vec_capacity list.new) }
{
    let length = list.len();
    if length < list.capacity() {
        return Ok(());
    }
    list.reserve_exact(1 + length / 8)?;
    Ok(())
}

/// The place of an entry in a rising list. Sought by halves.
pub(crate) fn place_of<L: Ledger>(list: &[Entry], entry: Entry, steps: &mut Steps<L>) -> usize
    requires order { AreInOrder list.now }
    ensures place { IsPlaceOf entry list.now result }
    ensures visits { SearchesWithin 1 (length list.now) steps.old steps.new }
{
    let (mut low, mut high) = (0, list.len());
    'halve: while low < high {
        steps.tick();
        let middle = low + (high - low) / 2;
        if list[middle].comes_before(entry) {
            low = middle + 1;
        } else {
            high = middle;
        }
    }
    low
}

/// Puts an entry into a rising list that has room for it.
pub(crate) fn put_entry<L: Ledger>(list: &mut Vec<Entry>, entry: Entry, steps: &mut Steps<L>)
    requires room { vec_len list.old < vec_capacity list.old }
    requires order { AreInOrder list.old.items }
    ensures items { list.new.items ≡ with_entry entry list.old.items }
    ensures visits { SearchesWithin 1 (length list.old.items) steps.old steps.new }
{
    let place = place_of(list.as_slice(), entry, steps);
    if list.insert(place, entry).is_err() {
        unreachable!()
    }
}

/// The same for a caller that counts nothing.
pub(crate) fn put_uncounted(list: &mut Vec<Entry>, entry: Entry)
    requires room { vec_len list.old < vec_capacity list.old }
    requires order { AreInOrder list.old.items }
    ensures { list.new.items ≡ with_entry entry list.old.items }
{
    put_with::<Brand>(list, entry, Blank::new(1));
}

fn put_with<L: Ledger>(list: &mut Vec<Entry>, entry: Entry, blank: Blank)
    requires room { vec_len list.old < vec_capacity list.old }
    requires order { AreInOrder list.old.items }
    requires counter { OpensCounter blank.name L.name blank.parts L.parts }
    ensures { list.new.items ≡ with_entry entry list.old.items }
{
    let mut steps = Steps::<L>::new(blank);
    put_entry(list, entry, &mut steps);
}

/// Takes an entry out of a rising list that has it.
pub(crate) fn take_entry<L: Ledger>(list: &mut Vec<Entry>, entry: Entry, steps: &mut Steps<L>)
    requires order { AreInOrder list.old.items }
    requires there { Has entry list.old.items }
    ensures items { with_entry entry list.new.items ≡ list.old.items }
    ensures order { AreInOrder list.new.items }
    ensures visits { SearchesWithin 1 (length list.old.items) steps.old steps.new }
{
    let place = place_of(list.as_slice(), entry, steps);
    list.remove(place);
}

/// Puts in what the bound is, where that is an entry.
fn put_bound<L: Ledger>(list: &mut Vec<Entry>, put: Bound, steps: &mut Steps<L>)
    requires room { vec_len list.old < vec_capacity list.old }
    requires order { AreInOrder list.old.items }
    ensures items { list.new.items ≡ with_bound put list.old.items }
    ensures visits { SearchesWithin 1 (length list.old.items) steps.old steps.new }
{
    if let Bound::At(entry) = put {
        put_entry(list, entry, steps);
    }
}

/// Takes out what the bound is, where that is an entry.
fn take_bound<L: Ledger>(list: &mut Vec<Entry>, take: Bound, steps: &mut Steps<L>)
    requires order { AreInOrder list.old.items }
    requires there { HasBound take list.old.items }
    ensures items { with_bound take list.new.items ≡ list.old.items }
    ensures order { AreInOrder list.new.items }
    ensures visits { SearchesWithin 1 (length list.old.items) steps.old steps.new }
{
    if let Bound::At(entry) = take {
        take_entry(list, entry, steps);
    }
}

/// Puts one entry into a rising list that has room for it and takes another out.
pub(crate) fn exchange<L: Ledger>(
    list: &mut Vec<Entry>,
    put: Bound,
    take: Bound,
    steps: &mut Steps<L>,
)
    requires room { vec_len list.old < vec_capacity list.old }
    requires order { AreInOrder list.old.items }
    requires there { (new : List Entry) × IsExchange put take list.old.items new }
    ensures items { IsExchange put take list.old.items list.new.items }
    ensures visits { SearchesWithin 2 (length list.old.items + 1) steps.old steps.new }
{
    if !put.is_below(take) && !take.is_below(put) {
        return;
    }
    put_bound(list, put, steps);
    take_bound(list, take, steps);
}
