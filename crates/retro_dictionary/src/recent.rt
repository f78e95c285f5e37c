//! Which of the rows beside a place came in lately, by their numbers.

ghost use Rattle.std.specs.Prelude.{◌≡◌, ◌≤◌, length, if◌then◌else◌};
ghost use Rattle.retro_dictionary.specs.declared.recent.RecentNeighbour.TheVariants.{Before, After, Neither};
ghost use Rattle.retro_dictionary.specs.RowLabels.{is_recent, recent_beside};

use monoid_laws::Counted;
use retro_base::PackedRow;
use weighted_tree::{Tree, uncounted};

/// Which of the rows beside a place came in lately.
#[derive(Clone, Copy)]
pub(crate) enum RecentNeighbour {
    /// The one before it.
    Before,
    /// The one after it.
    After,
    Neither,
}

/// Numbers so near to one another are of rows that came in one after another, a few bursts at once among them.
const LATEST: u32 = 8;

/// Which of the rows beside a place came in lately, before a row with this number is put in there. After all rows the rule does not
/// ask. Where no row stands before the place, this number stands for that row's: no number is lately before itself.
pub(crate) fn recent_beside(
    rows: &Tree<Counted<PackedRow>>,
    place: u32,
    number: u32,
) -> RecentNeighbour
    requires within { place ≤ length rows.now }
    ensures { result ≡ recent_beside rows.now place number }
{
    if place == rows.len() {
        return RecentNeighbour::Neither;
    }
    let count = place.min(1);
    let mut numbers = [number; 2];
    uncounted::read(
        rows,
        place - count,
        |row: &Counted<PackedRow>| row.value().number(),
        &mut numbers[1 - count as usize..],
    );
    recent_in(numbers[0], numbers[1], number)
}

/// Which of the rows with these numbers, before a place and after it, came in lately before the one with the next number.
fn recent_in(before: u32, after: u32, next: u32) -> RecentNeighbour
    ensures { result ≡ if is_recent before next then Before else if is_recent after next then After else Neither }
{
    if is_recent(before, next) {
        RecentNeighbour::Before
    } else if is_recent(after, next) {
        RecentNeighbour::After
    } else {
        RecentNeighbour::Neither
    }
}

/// Whether the row with a number came in lately before the one with the next one.
fn is_recent(number: u32, next: u32) -> bool
    ensures { result ≡ is_recent number next }
{
    number < next && next - number <= LATEST
}
