//! The row that fails, by its index.

ghost use Rattle.std.specs.Prelude.{◌≡◌, ◌+◌, ◌≤◌, ◌<◌, length, slice_get, Some};
ghost use Rattle.std.specs.List.{insert, remove};
ghost use Rattle.retro_base.specs.Limits.{most_rows};
ghost use Rattle.timeline_undo.specs.declared.error.EditError.TheVariants.{Fails};

use crate::EditError;
use order_timeline::Timeline;
use retro_base::Row;

/// The refusal of an edit after which this row is the first that could not be performed.
pub(crate) fn fails_at(failing: Row) -> EditError
    ensures { result ≡ Fails failing.number failing.time }
{
    EditError::Fails {
        number: failing.number,
        time: failing.time,
    }
}

/// The row at this index, were a row put in at the place.
pub(crate) fn row_after_insert(timeline: &Timeline, place: u32, row: Row, index: u32) -> Row
    requires place { place ≤ length timeline.now }
    requires index { index ≤ length timeline.now }
    ensures { slice_get (insert timeline.now place row) index ≡ Some result }
{
    if index < place {
        timeline.row_at(index)
    } else if index == place {
        row
    } else {
        timeline.row_at(index - 1)
    }
}

/// The row at this index, were the row at the place taken out.
pub(crate) fn row_after_remove(timeline: &Timeline, place: u32, index: u32) -> Row
    requires place { place < length timeline.now }
    requires index { index + 1 < length timeline.now }
    requires few { length timeline.now ≤ most_rows }
    ensures { slice_get (remove timeline.now place) index ≡ Some result }
{
    if index < place {
        timeline.row_at(index)
    } else {
        timeline.row_at(index + 1)
    }
}
