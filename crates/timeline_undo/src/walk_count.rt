//! What the walk counts.

ghost use Rattle.std.specs.Prelude.{◌≡◌, ◌+◌, ◌-◌, ◌*◌, ◌^◌, ◌<◌, ◌≤◌, length};
ghost use Rattle.retro_base.specs.Limits.{most_rows};
ghost use Rattle.timeline_undo.specs.WalkCounts.{IsUpTo, absent, key_of, presence_after, walked, count_next, count_first, there_after};
ghost use Rattle.retro_base.specs.Counting.{size_after};

use retro_base::{Op, Row};

/// Whether a key of a dictionary is there.
#[derive(Clone, Copy)]
pub(crate) struct Presence {
    pub(crate) key: i64,
    pub(crate) there: bool,
}

/// What is counted along rows to find the first one that cannot be performed, where a row of one operation was replaced by a row of
/// another.
#[derive(Clone, Copy)]
pub(crate) enum WalkCount {
    /// How many items or entries there are.
    Items { size: u32 },
    /// Whether the keys of both operations are there.
    Keys { first: Presence, second: Presence },
}

impl WalkCount {
    /// The count before the first row.
    pub(crate) fn before(old: Op, new: Op) -> WalkCount
        ensures { result ≡ count_first old new }
    {
        match (key_of(old), key_of(new)) {
            (Some(first), Some(second)) => WalkCount::Keys {
                first: absent(first),
                second: absent(second),
            },
            _ => WalkCount::Items { size: 0 },
        }
    }

    /// The count after an operation, where it finds what it takes.
    fn after(self, op: Op) -> Option<WalkCount>
        requires { IsUpTo self (2 ^ 32 - 2) }
        ensures { result ≡ count_next self op }
    {
        match self {
            WalkCount::Items { size } => {
                let size = size_after(op, size)?;
                Some(WalkCount::Items { size })
            }
            WalkCount::Keys { first, second } => {
                let first = first.after(op)?;
                let second = second.after(op)?;
                Some(WalkCount::Keys { first, second })
            }
        }
    }

    /// The count after rows, or the first of them that finds nothing to take.
    pub(crate) fn along(self, rows: &[Row]) -> Result<WalkCount, Row>
        requires few { length rows.now ≤ most_rows }
        requires room { IsUpTo self (2 * most_rows) }
        ensures { result ≡ walked rows.now self }
    {
        let mut count = self;
        for row in rows {
            count = match count.after(row.op) {
                Some(next) => next,
                None => return Err(*row),
            };
        }
        Ok(count)
    }
}

impl Presence {
    /// Whether the key is there after an operation, where it finds what it takes.
    fn after(self, op: Op) -> Option<Presence>
        ensures { result ≡ presence_after self op }
    {
        let there = there_after(self.key, op, self.there)?;
        Some(Presence {
            key: self.key,
            there,
        })
    }
}

/// A key that is not there.
fn absent(key: i64) -> Presence
    ensures { result ≡ absent key }
{
    Presence { key, there: false }
}

/// Whether a key is there after an operation, where it finds what it takes.
fn there_after(key: i64, op: Op, there: bool) -> Option<bool>
    ensures { result ≡ there_after key op there }
{
    match op {
        Op::Put { key: other, .. } => Some(key == other || there),
        Op::Del { key: other } if key == other => { if there { Some(false) } else { None } }
        _ => Some(there),
    }
}

/// How many items there are after an operation, where there is one to take.
fn size_after(op: Op, size: u32) -> Option<u32>
    requires { size + 1 < 2 ^ 32 }
    ensures { result ≡ size_after op size }
{
    if op.adds() {
        Some(size + 1)
    } else {
        size.checked_sub(1)
    }
}

/// The key of an operation of a dictionary.
fn key_of(op: Op) -> Option<i64>
    ensures { result ≡ key_of op }
{
    match op {
        Op::Put { key, .. } | Op::Del { key } => Some(key),
        _ => None,
    }
}
