//! A list of entries in chunks, so that an edit, which puts one in and takes another out, moves the entries of two chunks at most.

ghost use Rattle.std.specs.Prelude.{◌≡◌, ◌+◌, ◌-◌, ◌<◌, ◌≤◌, ◌++◌, [], List, length, get_or, slice_get, IfOk, OnOk, MatchResult, vec_capacity};
ghost use Rattle.retro_base.specs.declared.row.Entry.{Entry};
ghost use Rattle.retro_base.specs.EntriesInOrder.{AreInOrder};
ghost use Rattle.retro_base.specs.Limits.{most_rows};
ghost use Rattle.pq_fusion.specs.Chunks.{AreChunks, BeginBefore, HoldsRank, entries_of, starts_of};
ghost use Rattle.pq_fusion.specs.Exchanges.{IsExchange};
ghost use Rattle.pq_fusion.specs.Searches.{SearchesList, SearchesWithin};
ghost use Rattle.pq_fusion.specs.EntryCounts.{reaching};
ghost use Rattle.pq_fusion.specs.Intervals.{AreLent};

use crate::Bound;
use crate::chunk_edits::{FULL, exchange_among};
use crate::entry_counts::reaching;
use crate::exchange::make_room;
use crate::interval::Lent;
use retro_base::{Entry, NoMemory, Steps};
use std::alloc::Global;
use std::marker::Model;
use std::sync::ledger::Ledger;

/// So many entries a chunk has at first.
const FILLED: usize = 192;

/// Entries in rising order in chunks, and how many stand before each chunk.
#[derive(Drop)]
pub(crate) struct Chunks {
    alloc: Global,
    chunks: Vec<Vec<Entry>>,
    starts: Vec<u32>,
    count: u32,
}

impl Model for Chunks {
    ghost use Rattle.std.specs.Prelude.{List};
    ghost use Rattle.retro_base.specs.declared.row.Entry.{Entry};
    ghost use Rattle.pq_fusion.specs.Chunks.{AreRanked, entries_of};

    ghost Value = { List Entry };

    ghost view = { λ list. entries_of list.chunks.items };

    ghost invariant = { λ list. AreRanked list.chunks.items list.starts.items list.count };
}

/// Chunks with one to spare and room for it, so that an edit takes no memory.
#[derive(Drop)]
pub(crate) struct RoomyChunks {
    alloc: Global,
    chunks: Vec<Vec<Entry>>,
    starts: Vec<u32>,
    count: u32,
    spare: Vec<Entry>,
}

impl Model for RoomyChunks {
    ghost use Rattle.std.specs.Prelude.{◌≡◌, ◌<◌, [], List, vec_capacity, vec_len};
    ghost use Rattle.retro_base.specs.declared.row.Entry.{Entry};
    ghost use Rattle.pq_fusion.specs.Chunks.{AreRanked, entries_of, most_in_chunk};

    ghost Value = { List Entry };

    ghost view = { λ list. entries_of list.chunks.items };

    ghost invariant = { λ list. AreRanked list.chunks.items list.starts.items list.count
        × (vec_len list.chunks < vec_capacity list.chunks) × (vec_len list.starts < vec_capacity list.starts)
        × (list.spare.items ≡ []) × (most_in_chunk < vec_capacity list.spare) };
}

/// Divides entries into chunks.
fn divided(alloc: Global, entries: &[Entry]) -> Result<Vec<Vec<Entry>>, NoMemory>
    ensures { IfOk result (λ chunks. (entries_of chunks.items ≡ entries.now) × AreChunks chunks.items) }
{
    let mut chunks = Vec::with_capacity(alloc, entries.len() / FILLED + 1)?;
    let mut rest = entries;
    'divide: while rest.len() > 0 {
        let (chunk, behind) = rest.split_at(rest.len().min(FILLED));
        chunks.push(Vec::from_slice(alloc, chunk)?)?;
        rest = behind;
    }
    Ok(chunks)
}

/// Counts anew how many entries stand before each chunk, and how many there are.
fn count_anew(starts: &mut Vec<u32>, chunks: &[Vec<Entry>]) -> u32
    requires few { length (entries_of chunks.now) ≤ most_rows }
    requires room { length chunks.now ≤ vec_capacity starts.old }
    ensures starts { starts.new.items ≡ starts_of 0 chunks.now }
    ensures count { result ≡ length (entries_of chunks.now) }
{
    starts.clear();
    let mut before = 0;
    for chunk in chunks {
        starts.push_reserved(before);
        before += chunk.as_slice().len() as u32;
    }
    before
}

/// The chunk in which a rank lies: the last one before which no more entries stand. Sought by halves.
fn holding<L: Ledger>(starts: &[u32], rank: u32, steps: &mut Steps<L>) -> usize
    requires some { 0 < length starts.now }
    requires first { get_or starts.now 0 0 ≡ 0 }
    ensures holds { HoldsRank starts.now rank result }
    ensures visits { SearchesWithin 1 (length starts.now) steps.old steps.new }
{
    let (mut low, mut high) = (1, starts.len());
    'halve: while low < high {
        steps.tick();
        let middle = low + (high - low) / 2;
        if rank < starts[middle] {
            high = middle;
        } else {
            low = middle + 1;
        }
    }
    low - 1
}

/// The entry at a rank of a chunk, where there is one.
pub(crate) fn entry_at(chunk: &Vec<Entry>, rank: u32) -> Option<Entry>
    ensures { result ≡ slice_get chunk.now.items rank }
{
    chunk.as_slice().get(rank as usize).copied()
}

/// How many of these chunks begin before this entry, by halves.
fn begun_before<L: Ledger>(bound: Entry, chunks: &[Vec<Entry>], steps: &mut Steps<L>) -> usize
    requires order { AreInOrder (entries_of chunks.now) }
    requires chunks { AreChunks chunks.now }
    ensures begun { BeginBefore bound chunks.now result }
    ensures visits { SearchesWithin 1 (length chunks.now) steps.old steps.new }
{
    let (mut low, mut high) = (0, chunks.len());
    'halve: while low < high {
        steps.tick();
        let middle = low + (high - low) / 2;
        if chunks[middle][0].comes_before(bound) {
            low = middle + 1;
        } else {
            high = middle;
        }
    }
    low
}

/// How many of these entries do not come before this one: all behind the last chunk that begins before it, and some of this chunk. Both
/// are sought by halves.
pub(crate) fn reaching_in_chunks<L: Ledger>(
    bound: Entry,
    list: &Chunks,
    steps: &mut Steps<L>,
) -> u32
    ensures count { result ≡ reaching bound list.now }
    ensures few { result ≤ length list.now }
    ensures visits { SearchesList (length list.now) steps.old steps.new }
{
    let begun = begun_before(bound, &list.chunks, steps);
    if begun == 0 {
        return list.count;
    }
    let chunk = list.chunks[begun - 1].as_slice();
    let behind = list.count - list.starts[begun - 1] - chunk.len() as u32;
    behind + reaching(bound, chunk, steps)
}

impl Chunks {
    /// The list of these entries.
    pub(crate) fn of_entries(alloc: Global, entries: &[Entry]) -> Result<Chunks, NoMemory>
        requires order { AreInOrder entries.now }
        requires few { length entries.now ≤ most_rows }
        ensures { IfOk result (λ list. list ≡ entries.now) }
    {
        let chunks = divided(alloc, entries)?;
        let mut starts = Vec::with_capacity(alloc, chunks.as_slice().len())?;
        let count = count_anew(&mut starts, &chunks);
        Ok(Chunks {
            alloc,
            chunks,
            starts,
            count,
        })
    }

    /// How many entries the list has.
    pub(crate) fn len(&self) -> u32
        ensures count { result ≡ length self.now }
        ensures few { result ≤ most_rows }
        ensures order { AreInOrder self.now }
    {
        self.count
    }

    /// The chunks, lent.
    pub(crate) fn lent(&self) -> Lent
        ensures entries { entries_of result.chunks.now ≡ self.now }
        ensures lent { AreLent result.chunks.now result.starts.now }
    {
        Lent {
            chunks: &self.chunks,
            starts: &self.starts,
        }
    }

    /// The entry at a rank, where there is one. Its chunk is sought by halves.
    pub(crate) fn entry<L: Ledger>(&self, rank: u32, steps: &mut Steps<L>) -> Option<Entry>
        ensures entry { result ≡ slice_get self.now rank }
        ensures visits { SearchesWithin 1 (length self.now) steps.old steps.new }
    {
        if self.starts.as_slice().len() == 0 {
            return None;
        }
        let place = holding(&self.starts, rank, steps);
        entry_at(&self.chunks[place], rank - self.starts[place])
    }

    /// Puts the entries behind those of a vector.
    pub(crate) fn append_to(&self, entries: &mut Vec<Entry>) -> Result<(), NoMemory>
        ensures { OnOk result (entries.new.items ≡ entries.old.items ++ self.now) }
    {
        for chunk in &self.chunks {
            entries.extend_from_slice(chunk.as_slice())?;
        }
        Ok(())
    }

    /// The list with a chunk to spare. Where there is no memory for it, it comes back as it was.
    pub(crate) fn with_room(self) -> Result<RoomyChunks, Chunks>
        ensures { MatchResult result (λ roomy. roomy ≡ self) (λ list. list ≡ self) }
    {
        let Chunks {
            alloc,
            mut chunks,
            mut starts,
            count,
        } = self;
        let first = make_room(&mut chunks).is_ok();
        let second = make_room(&mut starts).is_ok();
        match Vec::with_capacity(alloc, FULL + 1) {
            Ok(spare) if first && second => Ok(RoomyChunks {
                alloc,
                chunks,
                starts,
                count,
                spare,
            }),
            _ => Err(Chunks {
                alloc,
                chunks,
                starts,
                count,
            }),
        }
    }
}

impl RoomyChunks {
    /// The list as it is.
    pub(crate) fn into_list(self) -> Chunks
        ensures { result ≡ self }
    {
        let RoomyChunks {
            alloc,
            chunks,
            starts,
            count,
            ..
        } = self;
        Chunks {
            alloc,
            chunks,
            starts,
            count,
        }
    }

    /// Puts one entry in and takes another out. Where these are the same, all stays, and nothing is counted anew.
    pub(crate) fn exchange<L: Ledger>(self, put: Bound, take: Bound, steps: &mut Steps<L>) -> Chunks
        requires there { (new : List Entry) × (IsExchange put take self new × (length new ≤ most_rows)) }
        ensures exchange { IsExchange put take self result }
        ensures visits { SearchesWithin 4 (length self + 1) steps.old steps.new }
    {
        if !put.is_below(take) && !take.is_below(put) {
            return self.into_list();
        }
        let RoomyChunks {
            alloc,
            mut chunks,
            mut starts,
            spare,
            ..
        } = self;
        exchange_among(&mut chunks, spare, put, take, steps);
        let count = count_anew(&mut starts, &chunks);
        Chunks {
            alloc,
            chunks,
            starts,
            count,
        }
    }
}
