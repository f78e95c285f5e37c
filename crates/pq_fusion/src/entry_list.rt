//! Entries in rising order, with room for an edit.

ghost use Rattle.std.specs.Prelude.{◌≡◌, ◌+◌, ◌++◌, ◌-◌, ◌<◌, ◌≤◌, [], List, length, slice_get, IfOk, OnOk, MatchResult, vec_capacity, vec_len};
ghost use Rattle.retro_base.specs.declared.row.Entry.{Entry};
ghost use Rattle.retro_base.specs.EntriesInOrder.{AreInOrder};
ghost use Rattle.retro_base.specs.Limits.{most_rows};
ghost use Rattle.pq_fusion.specs.Chunks.{entries_of};
ghost use Rattle.pq_fusion.specs.Exchanges.{IsExchange};
ghost use Rattle.pq_fusion.specs.Searches.{SearchesList, SearchesWithin};
ghost use Rattle.pq_fusion.specs.EntryCounts.{reaching};
ghost use Rattle.pq_fusion.specs.Intervals.{AreLent};

use crate::Bound;
use crate::chunk_edits::FULL;
use crate::chunks::{Chunks, RoomyChunks, entry_at, reaching_in_chunks};
use crate::entry_counts::reaching;
use crate::exchange::{exchange, make_room};
use crate::interval::Lent;
use retro_base::{Entry, NoMemory, Steps};
use std::alloc::Global;
use std::marker::Model;
use std::slice::from_ref;
use std::sync::ledger::Ledger;

/// Entries in rising order. A short list is one vector, a longer one is in chunks, so that putting one in or taking one out moves few.
#[derive(Drop)]
pub(crate) struct EntryList {
    body: Body,
}

#[derive(Drop)]
pub(crate) enum Body {
    Whole(Vec<Entry>),
    Parted(Chunks),
}

impl Model for EntryList {
    ghost use Rattle.std.specs.Prelude.{List};
    ghost use Rattle.retro_base.specs.declared.row.Entry.{Entry};
    ghost use Rattle.pq_fusion.specs.Bodies.{IsSoundBody, kept_in};

    ghost Value = { List Entry };

    ghost view = { λ list. kept_in list.body };

    ghost invariant = { λ list. IsSoundBody list.body };
}

/// A list with room for one more entry, so that an edit takes no memory.
#[derive(Drop)]
pub(crate) struct RoomyList {
    body: RoomyBody,
}

#[derive(Drop)]
pub(crate) enum RoomyBody {
    Whole(Vec<Entry>),
    Parted(RoomyChunks),
}

impl Model for RoomyList {
    ghost use Rattle.std.specs.Prelude.{List};
    ghost use Rattle.retro_base.specs.declared.row.Entry.{Entry};
    ghost use Rattle.pq_fusion.specs.Bodies.{IsRoomyBody, kept_in_roomy};

    ghost Value = { List Entry };

    ghost view = { λ list. kept_in_roomy list.body };

    ghost invariant = { λ list. IsRoomyBody list.body };
}

impl EntryList {
    /// A list of no entries, which takes no memory.
    pub(crate) fn new(alloc: Global) -> EntryList
        ensures { result ≡ [] }
    {
        EntryList {
            body: Body::Whole(Vec::new(alloc)),
        }
    }

    /// The list of these entries.
    pub(crate) fn of_entries(entries: Vec<Entry>) -> Result<EntryList, NoMemory>
        requires order { AreInOrder entries.items }
        requires few { length entries.items ≤ most_rows }
        ensures { IfOk result (λ list. list ≡ entries.items) }
    {
        if entries.as_slice().len() <= FULL {
            return Ok(EntryList {
                body: Body::Whole(entries),
            });
        }
        let chunks = Chunks::of_entries(*entries.allocator(), entries.as_slice())?;
        Ok(EntryList {
            body: Body::Parted(chunks),
        })
    }

    /// How many entries the list has.
    pub(crate) fn len(&self) -> u32
        ensures count { result ≡ length self.now }
        ensures few { result ≤ most_rows }
        ensures order { AreInOrder self.now }
    {
        match &self.body {
            Body::Whole(entries) => entries.as_slice().len() as u32,
            Body::Parted(chunks) => chunks.len(),
        }
    }

    /// The entries in chunks, lent. A list of one vector is one chunk.
    pub(crate) fn lent(&self) -> Lent
        ensures entries { entries_of result.chunks.now ≡ self.now }
        ensures lent { AreLent result.chunks.now result.starts.now }
    {
        match &self.body {
            Body::Whole(entries) => Lent {
                chunks: from_ref(entries),
                starts: &[],
            },
            Body::Parted(chunks) => chunks.lent(),
        }
    }

    /// The entry at a rank, where there is one.
    pub(crate) fn entry<L: Ledger>(&self, rank: u32, steps: &mut Steps<L>) -> Option<Entry>
        ensures entry { result ≡ slice_get self.now rank }
        ensures visits { SearchesWithin 1 (length self.now) steps.old steps.new }
    {
        match &self.body {
            Body::Whole(entries) => entry_at(entries, rank),
            Body::Parted(chunks) => chunks.entry(rank, steps),
        }
    }

    /// How many entries do not come before this one, by halves.
    pub(crate) fn reaching<L: Ledger>(&self, bound: Entry, steps: &mut Steps<L>) -> u32
        ensures count { result ≡ reaching bound self.now }
        ensures few { result ≤ length self.now }
        ensures visits { SearchesList (length self.now) steps.old steps.new }
    {
        match &self.body {
            Body::Whole(entries) => reaching(bound, entries.as_slice(), steps),
            Body::Parted(chunks) => reaching_in_chunks(bound, chunks, steps),
        }
    }

    /// Puts the entries behind those of a vector.
    pub(crate) fn append_to(&self, entries: &mut Vec<Entry>) -> Result<(), NoMemory>
        ensures { OnOk result (entries.new.items ≡ entries.old.items ++ self.now) }
    {
        match &self.body {
            Body::Whole(own) => {
                entries.extend_from_slice(own.as_slice())?;
                Ok(())
            }
            Body::Parted(chunks) => chunks.append_to(entries),
        }
    }

    /// The list with room for one more entry. Where there is no memory for it, it comes back as it was.
    pub(crate) fn with_room(self) -> Result<RoomyList, EntryList>
        ensures { MatchResult result (λ roomy. roomy ≡ self) (λ list. list ≡ self) }
    {
        let EntryList { body } = self;
        match body {
            Body::Whole(entries) => whole_with_room(entries),
            Body::Parted(chunks) => parted_with_room(chunks),
        }
    }
}

/// Chunks with room for one more entry.
fn parted_with_room(chunks: Chunks) -> Result<RoomyList, EntryList>
    ensures { MatchResult result (λ roomy. roomy ≡ chunks) (λ list. list ≡ chunks) }
{
    match chunks.with_room() {
        Ok(roomy) => Ok(RoomyList {
            body: RoomyBody::Parted(roomy),
        }),
        Err(chunks) => Err(EntryList {
            body: Body::Parted(chunks),
        }),
    }
}

/// Entries with room for one more: where they fill a chunk, they are divided into chunks first.
fn whole_with_room(mut entries: Vec<Entry>) -> Result<RoomyList, EntryList>
    requires order { AreInOrder entries.items }
    requires few { length entries.items ≤ most_rows }
    ensures { MatchResult result (λ roomy. roomy ≡ entries.items) (λ list. list ≡ entries.items) }
{
    if entries.as_slice().len() >= FULL {
        return match Chunks::of_entries(*entries.allocator(), entries.as_slice()) {
            Ok(chunks) => parted_with_room(chunks),
            Err(_) => Err(EntryList {
                body: Body::Whole(entries),
            }),
        };
    }
    match make_room(&mut entries) {
        Ok(()) => Ok(RoomyList {
            body: RoomyBody::Whole(entries),
        }),
        Err(_) => Err(EntryList {
            body: Body::Whole(entries),
        }),
    }
}

impl RoomyList {
    /// The list as it is.
    pub(crate) fn into_list(self) -> EntryList
        ensures { result ≡ self }
    {
        let RoomyList { body } = self;
        match body {
            RoomyBody::Whole(entries) => EntryList {
                body: Body::Whole(entries),
            },
            RoomyBody::Parted(chunks) => EntryList {
                body: Body::Parted(chunks.into_list()),
            },
        }
    }

    /// Puts one entry in and takes another out.
    pub(crate) fn exchange<L: Ledger>(
        self,
        put: Bound,
        take: Bound,
        steps: &mut Steps<L>,
    ) -> EntryList
        requires there { (new : List Entry) × (IsExchange put take self new × (length new ≤ most_rows)) }
        ensures exchange { IsExchange put take self result }
        ensures visits { SearchesWithin 4 (length self + 1) steps.old steps.new }
    {
        let RoomyList { body } = self;
        match body {
            RoomyBody::Whole(entries) => exchanged(entries, put, take, steps),
            RoomyBody::Parted(chunks) => EntryList {
                body: Body::Parted(chunks.exchange(put, take, steps)),
            },
        }
    }
}

/// The entries of one vector with one more and without another.
fn exchanged<L: Ledger>(
    mut entries: Vec<Entry>,
    put: Bound,
    take: Bound,
    steps: &mut Steps<L>,
) -> EntryList
    requires room { vec_len entries < vec_capacity entries }
    requires order { AreInOrder entries.items }
    requires there { (new : List Entry) × (IsExchange put take entries.items new × (length new ≤ most_rows)) }
    ensures exchange { IsExchange put take entries.items result }
    ensures visits { SearchesWithin 2 (length entries.items + 1) steps.old steps.new }
{
    exchange(&mut entries, put, take, steps);
    EntryList {
        body: Body::Whole(entries),
    }
}
