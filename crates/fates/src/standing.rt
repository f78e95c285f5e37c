//! Where something stands among what is there, which decides when it is taken.

ghost use Rattle.std.specs.Prelude.{◌≡◌, ◌+◌, ◌-◌, ◌^◌, ◌<◌, ◌≤◌, length};
ghost use Rattle.std.specs.List.{fold};
ghost use Rattle.fates.specs.Standings.{IsUpTo, after_row, count_after, counts, entry_after, line_after, pair_after, standing_of};
ghost use Rattle.retro_base.specs.Kind.{adds};
ghost use Rattle.retro_base.specs.Limits.{most_rows};
ghost use Rattle.retro_base.specs.Replay.{fold_rows};

use retro_base::{Entry, Op, Row};

/// Where something stands among what is there, which decides when it is taken.
#[derive(Clone, Copy)]
pub(crate) enum Standing {
    /// An item of a line, with so many to its left and to its right. A queue is seen from the front, a stack from the top.
    InLine { left: u32, right: u32 },
    /// The pair of a key.
    AtKey { key: i64 },
    /// An entry with so many lesser ones before it.
    AfterLesser { entry: Entry, lesser: u32 },
}

/// Whether a row that adds counts before this one: any item of a line does, and an entry that is lesser.
fn counts(own: Row, row: Row) -> bool
    ensures { result ≡ counts own row }
{
    match (own.added_entry(), row.added_entry()) {
        (Some(entry), Some(new)) => new.comes_before(entry),
        _ => true,
    }
}

/// How many are counted after these rows before its own.
pub(crate) fn count_along(own: Row, count: u32, rows: &[Row]) -> u32
    requires { count + length rows.now < 2 ^ 32 }
    ensures { result ≡ fold (count_after own) count rows.now }
{
    let mut count = count;
    for row in rows {
        count = count_after(own, count, *row);
    }
    count
}

/// How many are counted after one more row before its own.
fn count_after(own: Row, count: u32, row: Row) -> u32
    requires { count + 1 < 2 ^ 32 }
    ensures { result ≡ count_after own count row }
{
    if !row.op.adds() {
        count.saturating_sub(1)
    } else if counts(own, row) {
        count + 1
    } else {
        count
    }
}

impl Standing {
    /// Where what a row puts in stands right after it, where so many were counted before.
    pub(crate) fn of(own: Row, count: u32) -> Standing
        ensures { result ≡ standing_of own count }
    {
        match own.op {
            Op::Push { .. } | Op::PushL { .. } => Standing::InLine {
                left: 0,
                right: count,
            },
            Op::Put { key, .. } => Standing::AtKey { key },
            Op::Ins { key } => Standing::AfterLesser {
                entry: Entry {
                    key,
                    number: own.number,
                },
                lesser: count,
            },
            _ => Standing::InLine {
                left: count,
                right: 0,
            },
        }
    }

    /// Where it stands after these rows, or the index of the first of them that takes it.
    pub(crate) fn along(self, rows: &[Row]) -> Result<Standing, u32>
        requires few { length rows.now ≤ most_rows }
        requires room { IsUpTo self most_rows }
        ensures { result ≡ fold_rows (λ row standing. after_row standing row) rows.now self }
    {
        let mut standing = self;
        for (index, row) in rows.iter().enumerate() {
            standing = match standing.after(*row) {
                Some(next) => next,
                None => return Err(index as u32),
            };
        }
        Ok(standing)
    }

    /// Where it stands after a row, or nothing where the row takes it.
    fn after(self, row: Row) -> Option<Standing>
        requires { IsUpTo self (2 ^ 32 - 2) }
        ensures { result ≡ after_row self row }
    {
        match self {
            Standing::InLine { left, right } => line_after(left, right, row.op),
            Standing::AtKey { key } => pair_after(key, row.op),
            Standing::AfterLesser { entry, lesser } => entry_after(entry, lesser, row),
        }
    }
}

/// An item of a line after an operation, unless the operation takes it.
fn line_after(left: u32, right: u32, op: Op) -> Option<Standing>
    requires left { left + 1 < 2 ^ 32 }
    requires right { right + 1 < 2 ^ 32 }
    ensures { result ≡ line_after left right op }
{
    match op {
        Op::Enq { .. } | Op::PushR { .. } => Some(Standing::InLine {
            left,
            right: right + 1,
        }),
        Op::Push { .. } | Op::PushL { .. } => Some(Standing::InLine {
            left: left + 1,
            right,
        }),
        Op::Deq | Op::Pop | Op::PopL => {
            let left = left.checked_sub(1)?;
            Some(Standing::InLine { left, right })
        }
        Op::PopR => {
            let right = right.checked_sub(1)?;
            Some(Standing::InLine { left, right })
        }
        Op::Put { .. } | Op::Del { .. } | Op::Ins { .. } | Op::DelMin => {
            Some(Standing::InLine { left, right })
        }
    }
}

/// The pair of a key after an operation: a row on its key takes it.
fn pair_after(key: i64, op: Op) -> Option<Standing>
    ensures { result ≡ pair_after key op }
{
    match op {
        Op::Put { key: other, .. } if key == other => None,
        Op::Del { key: other } if key == other => None,
        _ => Some(Standing::AtKey { key }),
    }
}

/// An entry after a row, unless the row takes it.
fn entry_after(entry: Entry, lesser: u32, row: Row) -> Option<Standing>
    requires { lesser + 1 < 2 ^ 32 }
    ensures { result ≡ entry_after entry lesser row.number row.op }
{
    match row.op {
        Op::DelMin => {
            let lesser = lesser.checked_sub(1)?;
            Some(Standing::AfterLesser { entry, lesser })
        }
        _ => {
            let is_lesser = row.added_entry().is_some_and(|new| new.comes_before(entry));
            Some(Standing::AfterLesser {
                entry,
                lesser: lesser + u32::from(is_lesser),
            })
        }
    }
}
