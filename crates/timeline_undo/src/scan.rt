//! The walk over the rows that judges a replacement.

ghost use Rattle.std.specs.Prelude.{◌≡◌, ◌+◌, ◌<◌, ◌≤◌, [], ◌∷◌, ◌++◌, length, slice_range, IsTrue};
ghost use Rattle.std.specs.Result.{result_err};
ghost use Rattle.retro_base.specs.Edits.{failing_row};
ghost use Rattle.retro_base.specs.Limits.{most_rows};
ghost use Rattle.retro_base.specs.Replay.{IsValid};
ghost use Rattle.retro_base.specs.Timeline.{IsReplayable};
ghost use Rattle.timeline_undo.specs.WalkCounts.{IsUpTo, walked, count_first};
ghost use Rattle.timeline_undo.specs.Replaced.{Replaces, replaced};

use crate::replacement::Replacement;
use crate::walk_count::WalkCount;
use order_timeline::Timeline;
use retro_base::{Op, Retro, Row};

/// How many rows are read at a time.
const WINDOW: usize = 64;

/// The first row that could not be performed, were the row replaced; none where all rows could. One search of the structure shows of
/// most replacements that no row fails, and a walk over the rows judges the others.
pub(crate) fn failing_after<R: Retro>(
    timeline: &Timeline,
    structure: &R,
    replacement: Replacement,
) -> Option<Row>
    requires same { R.rows structure.now ≡ timeline.now }
    requires replayable { IsReplayable (R.kind structure.now) timeline.now }
    requires replaces { Replaces (R.kind structure.now) timeline.now replacement }
    ensures { result ≡ failing_row (R.kind structure.now) (replaced timeline.now replacement) }
{
    if passes_one_search(structure, replacement) {
        return None;
    }
    failing_by_walk(timeline, replacement)
}

/// Whether one search shows that all rows could be performed, were the row replaced. Rows that can be performed still can once a row
/// that adds is put in, or one that takes is taken out. So it is enough that they can after the cut alone, where the new row adds,
/// and after the insertion alone, where both rows take.
fn passes_one_search<R: Retro>(structure: &R, replacement: Replacement) -> bool
    requires replayable { IsReplayable (R.kind structure.now) (R.rows structure.now) }
    requires replaces { Replaces (R.kind structure.now) (R.rows structure.now) replacement }
    ensures { IsTrue result → IsValid (R.kind structure.now) (replaced (R.rows structure.now) replacement) }
{
    let Replacement {
        index,
        old,
        before,
        new,
    } = replacement;
    if new.op.adds() {
        structure.failure_after_remove(index).is_none()
    } else if old.op.adds() {
        false
    } else {
        structure.failure_after_insert(before, new.op).is_none()
    }
}

/// The first row that could not be performed, were the row replaced, by a walk over all rows.
fn failing_by_walk(timeline: &Timeline, replacement: Replacement) -> Option<Row>
    requires index { replacement.index < length timeline.now }
    requires before { replacement.before ≤ length timeline.now }
    requires few { length timeline.now ≤ most_rows }
    ensures { result ≡ result_err (walked (replaced timeline.now replacement) (count_first replacement.old.op replacement.new.op)) }
{
    let count = WalkCount::before(replacement.old.op, replacement.new.op);
    walk_replaced(timeline, replacement, count).err()
}

/// The count after all rows, the one row replaced by the other, or the first of them that finds nothing to take.
fn walk_replaced(
    timeline: &Timeline,
    replacement: Replacement,
    count: WalkCount,
) -> Result<WalkCount, Row>
    requires index { replacement.index < length timeline.now }
    requires before { replacement.before ≤ length timeline.now }
    requires few { length timeline.now ≤ most_rows }
    requires room { IsUpTo count 0 }
    ensures { result ≡ walked (replaced timeline.now replacement) count }
{
    let Replacement {
        index,
        before,
        new,
        ..
    } = replacement;
    if before <= index {
        let count = match walk_and_add(timeline, 0, before, new, count) {
            Ok(next) => next,
            Err(failing) => return Err(failing),
        };
        let count = match walk(timeline, before, index, count) {
            Ok(next) => next,
            Err(failing) => return Err(failing),
        };
        walk(timeline, index + 1, timeline.len(), count)
    } else {
        let count = match walk(timeline, 0, index, count) {
            Ok(next) => next,
            Err(failing) => return Err(failing),
        };
        let count = match walk_and_add(timeline, index + 1, before, new, count) {
            Ok(next) => next,
            Err(failing) => return Err(failing),
        };
        walk(timeline, before, timeline.len(), count)
    }
}

/// The count after the rows from one place to before another, and after the new row.
fn walk_and_add(
    timeline: &Timeline,
    from: u32,
    to: u32,
    new: Row,
    count: WalkCount,
) -> Result<WalkCount, Row>
    requires from { from ≤ to }
    requires to { to ≤ length timeline.now }
    requires few { length timeline.now ≤ most_rows }
    requires room { IsUpTo count from }
    ensures { result ≡ walked (slice_range timeline.now from to ++ new ∷ []) count }
{
    match walk(timeline, from, to, count) {
        Ok(next) => next.along(&[new]),
        Err(failing) => Err(failing),
    }
}

/// The count after the rows from one place to before another, or the first of them that finds nothing to take.
fn walk(timeline: &Timeline, from: u32, to: u32, count: WalkCount) -> Result<WalkCount, Row>
    requires from { from ≤ to }
    requires to { to ≤ length timeline.now }
    requires few { length timeline.now ≤ most_rows }
    requires room { IsUpTo count (from + 1) }
    ensures { result ≡ walked (slice_range timeline.now from to) count }
{
    let mut window = [NO_ROW; WINDOW];
    let mut count = count;
    let mut place = from;
    while place < to {
        let read = timeline.read_rows(place, &mut window);
        let rows = read.min(to - place);
        count = match count.along(&window[..rows as usize]) {
            Ok(next) => next,
            Err(failing) => return Err(failing),
        };
        place += rows;
    }
    Ok(count)
}

/// What a window holds before it is read into.
const NO_ROW: Row = Row {
    number: 1,
    time: 0,
    op: Op::Deq,
};
