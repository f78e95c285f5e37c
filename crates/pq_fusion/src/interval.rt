//! A search for a place in a list by halves: among its chunks first, and then within one of them.

ghost use Rattle.std.specs.Prelude.{◌≡◌, ◌<◌, ◌≤◌, length, nat_lt};
ghost use Rattle.retro_base.specs.Limits.{most_rows};
ghost use Rattle.pq_fusion.specs.Chunks.{entries_of};
ghost use Rattle.pq_fusion.specs.Intervals.{AreLent, IsMiddle, IsInterval, before_middle, behind_middle};

use retro_base::Entry;

/// The chunks of a list, and how many entries stand before each where there are several.
#[derive(Clone, Copy)]
pub(crate) struct Lent<'a> {
    pub(crate) chunks: &'a [Vec<Entry>],
    pub(crate) starts: &'a [u32],
}

/// Where a place may lie: from `low` to `high`, in the chunks from `first` to before `last`. Before these stand `start` entries.
#[derive(Clone, Copy)]
pub(crate) struct Interval {
    pub(crate) first: usize,
    pub(crate) last: usize,
    pub(crate) start: u32,
    pub(crate) low: u32,
    pub(crate) high: u32,
}

/// An entry in the middle of an interval: the part before it ends at the chunk `end`, and the part behind it begins in `chunk`, before which
/// stand `start` entries.
#[derive(Clone, Copy)]
pub(crate) struct Middle {
    pub(crate) chunk: usize,
    pub(crate) end: usize,
    pub(crate) start: u32,
    pub(crate) place: u32,
    pub(crate) entry: Entry,
}

impl Interval {
    /// The interval of all places between these.
    pub(crate) fn between(list: &Lent, low: u32, high: u32) -> Interval
        requires { high ≤ length (entries_of list.now.chunks.now) }
        ensures interval { IsInterval list.now.chunks.now result }
        ensures low { result.low ≡ low }
        ensures high { result.high ≡ high }
    {
        Interval {
            first: 0,
            last: list.chunks.len(),
            start: 0,
            low,
            high,
        }
    }

    /// Whether more than one place is left.
    pub(crate) fn is_open(self) -> bool
        ensures { result ≡ nat_lt self.low self.high }
    {
        self.low < self.high
    }

    /// The middle one of the chunks by its first entry, or the middle entry where one chunk is left.
    pub(crate) fn middle(self, list: &Lent) -> Middle
        requires lent { AreLent list.now.chunks.now list.now.starts.now }
        requires interval { IsInterval list.now.chunks.now self }
        requires open { self.low < self.high }
        ensures { IsMiddle list.now.chunks.now self result }
    {
        let count = self.last - self.first;
        if count > 1 {
            let chunk = self.first + count / 2;
            let place = list.starts[chunk];
            return Middle {
                chunk,
                end: chunk,
                start: place,
                place,
                entry: list.chunks[chunk][0],
            };
        }
        let place = self.low + (self.high - self.low) / 2;
        Middle {
            chunk: self.first,
            end: self.last,
            start: self.start,
            place,
            entry: list.chunks[self.first][(place - self.start) as usize],
        }
    }

    /// The part before the middle.
    pub(crate) fn before(self, middle: Middle) -> Interval
        ensures { result ≡ before_middle self middle }
    {
        Interval {
            last: middle.end,
            high: self.high.min(middle.place),
            ..self
        }
    }

    /// The part behind the middle.
    pub(crate) fn behind(self, middle: Middle) -> Interval
        requires { middle.place < most_rows }
        ensures { result ≡ behind_middle self middle }
    {
        Interval {
            first: middle.chunk,
            start: middle.start,
            low: self.low.max(middle.place + 1),
            ..self
        }
    }
}
