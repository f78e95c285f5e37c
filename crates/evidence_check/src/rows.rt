//! The rows of a timeline, and the bridges among them.

ghost use Rattle.std.specs.Prelude.{◌≡◌, ◌≤◌, length};
ghost use Rattle.retro_base.specs.Bridges.{first_bridge, last_bridge};
ghost use Rattle.evidence_check.specs.Marks.{MarksSurvivors, rows_of};

use crate::pack::Pack;
use crate::part::Part;
use crate::weighed_row::WeighedRow;
use retro_base::laws::weights_count_the_dead;

/// Marked rows. Three levels of packs stand below the list, which may have any number of parts: a full timeline that has
/// grown at its end has four.
pub(crate) type Rows = Pack<Pack<Pack<Pack<WeighedRow>>>>;

/// The last bridge up to a place.
pub(crate) fn last_bridge<P: Part>(rows: &Pack<P>, place: u32) -> u32
    requires kept { MarksSurvivors rows.now }
    requires within { place ≤ length rows.now }
    ensures bridge { result ≡ last_bridge (rows_of rows.now) place }
    ensures within { result ≤ place }
{
    weights_count_the_dead();
    rows.last_zero(0, place)
}

/// The first bridge from a place on. After all rows nothing dead is held, so there is one.
pub(crate) fn first_bridge<P: Part>(rows: &Pack<P>, place: u32) -> u32
    requires kept { MarksSurvivors rows.now }
    requires within { place ≤ length rows.now }
    ensures bridge { result ≡ first_bridge (rows_of rows.now) place }
    ensures within { result ≤ length rows.now }
{
    weights_count_the_dead();
    if place == 0 {
        0
    } else {
        rows.first_zero(0, place)
    }
}
