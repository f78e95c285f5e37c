//! Edits of a list in chunks: one entry comes into its chunk and another goes from its own, and no other chunk changes.

ghost use Rattle.std.specs.Prelude.{◌≡◌, ◌+◌, ◌<◌, ◌≤◌, ◌++◌, [], List, length, MatchOption, vec_capacity, vec_len};
ghost use Rattle.retro_base.specs.declared.row.Entry.{Entry};
ghost use Rattle.retro_base.specs.EntriesInOrder.{AreInOrder};
ghost use Rattle.retro_base.specs.State.{with_entry};
ghost use Rattle.pq_fusion.specs.Bounds.{with_bound};
ghost use Rattle.pq_fusion.specs.Chunks.{AreChunks, IsChunk, IsHome, IsOneMoreAtMost, entries_of, most_in_chunk};
ghost use Rattle.pq_fusion.specs.Exchanges.{Has, HasBound, IsExchange};
ghost use Rattle.pq_fusion.specs.Searches.{SearchesWithin};

use crate::Bound;
use crate::exchange::{make_room, put_entry, take_entry};
use retro_base::{Entry, Steps};
use std::sync::ledger::Ledger;

/// So many entries fill a chunk.
pub(crate) const FULL: usize = 256;

/// The chunk that an entry belongs to: the last one that begins no later, or the first. Sought by halves.
fn home<L: Ledger>(chunks: &[Vec<Entry>], entry: Entry, steps: &mut Steps<L>) -> usize
    requires some { 0 < length chunks.now }
    requires chunks { AreChunks chunks.now }
    ensures home { IsHome entry chunks.now result }
    ensures visits { SearchesWithin 1 (length chunks.now) steps.old steps.new }
{
    let (mut low, mut high) = (1, chunks.len());
    'halve: while low < high {
        steps.tick();
        let middle = low + (high - low) / 2;
        if entry.comes_before(chunks[middle][0]) {
            high = middle;
        } else {
            low = middle + 1;
        }
    }
    low - 1
}

/// Gives back memory of a chunk that has become much smaller than its room.
fn trim(chunk: &mut Vec<Entry>)
    ensures { chunk.new.items ≡ chunk.old.items }
{
    let length = chunk.as_slice().len();
    if length + length / 4 < chunk.capacity() {
        chunk.shrink_to(length + length / 8);
    }
}

/// Puts an entry into a chunk. Where there is no memory for more room, all of it goes into the spare one.
fn grow_into<L: Ledger>(
    chunk: &mut Vec<Entry>,
    mut spare: Vec<Entry>,
    entry: Entry,
    steps: &mut Steps<L>,
)
    requires order { AreInOrder chunk.old.items }
    requires few { length chunk.old.items < most_in_chunk }
    requires none { spare.items ≡ [] }
    requires room { most_in_chunk < vec_capacity spare }
    ensures items { chunk.new.items ≡ with_entry entry chunk.old.items }
    ensures visits { SearchesWithin 1 (length chunk.old.items) steps.old steps.new }
{
    if make_room(chunk).is_ok() {
        put_entry(chunk, entry, steps);
        return;
    }
    if spare.extend_from_slice(chunk.as_slice()).is_err() {
        unreachable!()
    }
    put_entry(&mut spare, entry, steps);
    *chunk = spare;
}

/// Puts an entry into one of two chunks, of which the second stands behind the first.
fn put_in_either<L: Ledger>(
    earlier: &mut Vec<Entry>,
    later: &mut Vec<Entry>,
    entry: Entry,
    steps: &mut Steps<L>,
)
    requires order { AreInOrder (earlier.old.items ++ later.old.items) }
    requires some { 0 < length later.old.items }
    requires room_earlier { vec_len earlier.old < vec_capacity earlier.old }
    requires room_later { vec_len later.old < vec_capacity later.old }
    ensures items { earlier.new.items ++ later.new.items ≡ with_entry entry (earlier.old.items ++ later.old.items) }
    ensures earlier { IsOneMoreAtMost earlier.old.items earlier.new.items }
    ensures later { IsOneMoreAtMost later.old.items later.new.items }
    ensures visits { SearchesWithin 1 (length (earlier.old.items ++ later.old.items)) steps.old steps.new }
{
    if entry.comes_before(later[0]) {
        put_entry(earlier, entry, steps);
    } else {
        put_entry(later, entry, steps);
    }
}

/// Divides a full chunk in halves, and puts an entry into its half. The later half comes back.
fn divide<L: Ledger>(
    chunk: &mut Vec<Entry>,
    mut later: Vec<Entry>,
    entry: Entry,
    steps: &mut Steps<L>,
) -> Vec<Entry>
    requires order { AreInOrder chunk.old.items }
    requires full { length chunk.old.items ≡ most_in_chunk }
    requires none { later.items ≡ [] }
    requires room { most_in_chunk < vec_capacity later }
    ensures items { chunk.new.items ++ result.items ≡ with_entry entry chunk.old.items }
    ensures earlier { IsChunk chunk.new }
    ensures later { IsChunk result }
    ensures visits { SearchesWithin 1 (length chunk.old.items) steps.old steps.new }
{
    if later
        .extend_from_slice(chunk.as_slice().split_at(FULL / 2).1)
        .is_err()
    {
        unreachable!()
    }
    chunk.truncate(FULL / 2);
    put_in_either(chunk, &mut later, entry, steps);
    trim(chunk);
    trim(&mut later);
    later
}

/// Puts an entry into a chunk. Where the chunk was full, its later half comes back.
fn put_into<L: Ledger>(
    chunk: &mut Vec<Entry>,
    spare: Vec<Entry>,
    entry: Entry,
    steps: &mut Steps<L>,
) -> Option<Vec<Entry>>
    requires order { AreInOrder chunk.old.items }
    requires chunk { IsChunk chunk.old }
    requires none { spare.items ≡ [] }
    requires room { most_in_chunk < vec_capacity spare }
    ensures items { MatchOption result (chunk.new.items ≡ with_entry entry chunk.old.items)
        (λ later. (chunk.new.items ++ later.items ≡ with_entry entry chunk.old.items) × IsChunk later) }
    ensures chunk { IsChunk chunk.new }
    ensures visits { SearchesWithin 1 (length chunk.old.items) steps.old steps.new }
{
    if chunk.as_slice().len() >= FULL {
        return Some(divide(chunk, spare, entry, steps));
    }
    grow_into(chunk, spare, entry, steps);
    None
}

/// Puts an entry into its chunk.
fn put_among<L: Ledger>(
    chunks: &mut Vec<Vec<Entry>>,
    mut spare: Vec<Entry>,
    entry: Entry,
    steps: &mut Steps<L>,
)
    requires order { AreInOrder (entries_of chunks.old.items) }
    requires chunks { AreChunks chunks.old.items }
    requires place { vec_len chunks.old < vec_capacity chunks.old }
    requires none { spare.items ≡ [] }
    requires room { most_in_chunk < vec_capacity spare }
    ensures items { entries_of chunks.new.items ≡ with_entry entry (entries_of chunks.old.items) }
    ensures chunks { AreChunks chunks.new.items }
    ensures few { vec_len chunks.new ≤ vec_len chunks.old + 1 }
    ensures visits { SearchesWithin 2 (length (entries_of chunks.old.items)) steps.old steps.new }
{
    if chunks.as_slice().len() == 0 {
        put_entry(&mut spare, entry, steps);
        chunks.push_reserved(spare);
        return;
    }
    let place = home(chunks, entry, steps);
    let chunk = &mut chunks[place];
    let Some(later) = put_into(chunk, spare, entry, steps) else {
        return;
    };
    if chunks.insert(place + 1, later).is_err() {
        unreachable!()
    }
}

/// Takes an entry out of its chunk. A chunk of this entry alone goes whole.
fn take_among<L: Ledger>(chunks: &mut Vec<Vec<Entry>>, entry: Entry, steps: &mut Steps<L>)
    requires order { AreInOrder (entries_of chunks.old.items) }
    requires chunks { AreChunks chunks.old.items }
    requires there { Has entry (entries_of chunks.old.items) }
    ensures items { with_entry entry (entries_of chunks.new.items) ≡ entries_of chunks.old.items }
    ensures chunks { AreChunks chunks.new.items }
    ensures few { vec_len chunks.new ≤ vec_len chunks.old }
    ensures visits { SearchesWithin 2 (length (entries_of chunks.old.items)) steps.old steps.new }
{
    let place = home(chunks, entry, steps);
    let chunk = &mut chunks[place];
    take_entry(chunk, entry, steps);
    if chunk.as_slice().len() == 0 {
        let _ = chunks.remove(place);
    } else {
        trim(chunk);
    }
}

/// Puts in what the bound is, where that is an entry.
fn put_bound_among<L: Ledger>(
    chunks: &mut Vec<Vec<Entry>>,
    spare: Vec<Entry>,
    put: Bound,
    steps: &mut Steps<L>,
)
    requires order { AreInOrder (entries_of chunks.old.items) }
    requires chunks { AreChunks chunks.old.items }
    requires place { vec_len chunks.old < vec_capacity chunks.old }
    requires none { spare.items ≡ [] }
    requires room { most_in_chunk < vec_capacity spare }
    ensures items { entries_of chunks.new.items ≡ with_bound put (entries_of chunks.old.items) }
    ensures chunks { AreChunks chunks.new.items }
    ensures few { vec_len chunks.new ≤ vec_len chunks.old + 1 }
    ensures visits { SearchesWithin 2 (length (entries_of chunks.old.items)) steps.old steps.new }
{
    if let Bound::At(entry) = put {
        put_among(chunks, spare, entry, steps);
    }
}

/// Takes out what the bound is, where that is an entry.
fn take_bound_among<L: Ledger>(chunks: &mut Vec<Vec<Entry>>, take: Bound, steps: &mut Steps<L>)
    requires order { AreInOrder (entries_of chunks.old.items) }
    requires chunks { AreChunks chunks.old.items }
    requires there { HasBound take (entries_of chunks.old.items) }
    ensures items { with_bound take (entries_of chunks.new.items) ≡ entries_of chunks.old.items }
    ensures chunks { AreChunks chunks.new.items }
    ensures few { vec_len chunks.new ≤ vec_len chunks.old }
    ensures visits { SearchesWithin 2 (length (entries_of chunks.old.items)) steps.old steps.new }
{
    if let Bound::At(entry) = take {
        take_among(chunks, entry, steps);
    }
}

/// Puts one entry into its chunk and takes another out of its own. A full chunk is divided into the spare one.
pub(crate) fn exchange_among<L: Ledger>(
    chunks: &mut Vec<Vec<Entry>>,
    spare: Vec<Entry>,
    put: Bound,
    take: Bound,
    steps: &mut Steps<L>,
)
    requires order { AreInOrder (entries_of chunks.old.items) }
    requires chunks { AreChunks chunks.old.items }
    requires place { vec_len chunks.old < vec_capacity chunks.old }
    requires none { spare.items ≡ [] }
    requires room { most_in_chunk < vec_capacity spare }
    requires there { (new : List Entry) × IsExchange put take (entries_of chunks.old.items) new }
    ensures items { IsExchange put take (entries_of chunks.old.items) (entries_of chunks.new.items) }
    ensures chunks { AreChunks chunks.new.items }
    ensures few { vec_len chunks.new ≤ vec_len chunks.old + 1 }
    ensures visits { SearchesWithin 4 (length (entries_of chunks.old.items) + 1) steps.old steps.new }
{
    put_bound_among(chunks, spare, put, steps);
    take_bound_among(chunks, take, steps);
}
