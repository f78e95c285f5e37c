//! What became of what a row put in.

ghost use Rattle.std.specs.Prelude.{◌≡◌, ◌<◌, true, length, slice_get, Some};
ghost use Rattle.fates.specs.Fates.{IsFate};
ghost use Rattle.retro_base.specs.Kind.{adds, kind_of};
ghost use Rattle.retro_base.specs.Timeline.{IsReplayable};
ghost use Rattle.fates.specs.Holding.{StandsAfterOwn};

use crate::standing::{Standing, count_along};
use order_timeline::Timeline;
use retro_base::{Op, Row};

/// How many rows are read at a time.
const WINDOW: usize = 64;

/// What became of what a row put in.
#[derive(Clone, Copy)]
pub enum Fate {
    /// The row at this place took it out.
    Taken { place: u32 },
    /// It is there after all rows.
    Stays,
}

/// What became of what the row at a place put in, which adds, in rows of one kind that replay whole.
///
/// It walks the rows once, with one search in the tree for each 64 of them, and keeps a few numbers; it takes no memory.
pub fn fate_of(rows: &Timeline, place: u32) -> Fate
    requires within { place < length rows.now }
    requires adding { (row : Row) → slice_get rows.now place ≡ Some row → adds row.op ≡ true }
    requires replayable { (row : Row) → slice_get rows.now place ≡ Some row → IsReplayable (kind_of row.op) rows.now }
    ensures { (row : Row) → slice_get rows.now place ≡ Some row → IsFate (kind_of row.op) rows.now place row.number result }
{
    let own = rows.row_at(place);
    let mut standing = standing_after(rows, place, own);
    let mut window = [NO_ROW; WINDOW];
    let mut from = place + 1;
    while from < rows.len() {
        let read = rows.read_rows(from, &mut window);
        standing = match standing.along(&window[..read as usize]) {
            Ok(next) => next,
            Err(index) => {
                return Fate::Taken {
                    place: from + index,
                };
            }
        };
        from += read;
    }
    Fate::Stays
}

/// Where what a row puts in stands right after it.
fn standing_after(rows: &Timeline, place: u32, own: Row) -> Standing
    requires within { place < length rows.now }
    requires there { slice_get rows.now place ≡ Some own }
    requires adding { adds own.op ≡ true }
    requires replayable { IsReplayable (kind_of own.op) rows.now }
    ensures { StandsAfterOwn rows.now place own result }
{
    let mut window = [NO_ROW; WINDOW];
    let mut count = 0;
    let mut from = 0;
    while from < place {
        let read = rows.read_rows(from, &mut window);
        let before = read.min(place - from);
        count = count_along(own, count, &window[..before as usize]);
        from += before;
    }
    Standing::of(own, count)
}

/// What a window holds before it is read into.
const NO_ROW: Row = Row {
    number: 1,
    time: 0,
    op: Op::Deq,
};
