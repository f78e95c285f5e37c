//! What is looked for in parts that follow one another: each walk reads their sums, and opens the one or two in question.

ghost use Rattle.std.specs.Prelude.{◌≡◌, ◌-◌, ◌<◌, ◌≤◌, Some, length, slice_get};
ghost use Rattle.std.specs.List.{flat_map};
ghost use Rattle.retro_base.specs.Limits.{most_rows};
ghost use Rattle.evidence_check.specs.Parts.{Holds, is_entry, shows_at};
ghost use Rattle.evidence_check.specs.Sought.{best_beside, shown_by};
ghost use Rattle.evidence_check.specs.Sums.{HasRoom, sums_of};
ghost use Rattle.evidence_check.specs.Zeros.{IsFirstZero, IsLastZero};

use crate::better::{Sought, better_of};
use crate::part::Part;
use crate::sums::Sums;
use crate::weighed_row::{WeighedRow, is_same};
use retro_base::Entry;

/// The part that holds a row, and how many rows stand before it.
#[derive(Clone, Copy)]
pub(crate) struct Held {
    pub(crate) index: usize,
    pub(crate) before: u32,
}

/// The part that holds the row at a place.
pub(crate) fn holding<P: Part>(parts: &[P], place: u32) -> Held
    requires { place < length (flat_map P.rows parts.now) }
    ensures { Holds P.rows parts.now 1 place result }
{
    let mut before = 0;
    for (index, part) in parts.iter().enumerate() {
        let rows = part.sums().rows;
        if place - before < rows {
            return Held { index, before };
        }
        before += rows;
    }
    unreachable!()
}

/// The sums of the rows of parts.
pub(crate) fn sums_among<P: Part>(parts: &[P]) -> Sums
    requires { length (flat_map P.rows parts.now) ≤ most_rows }
    ensures { result ≡ sums_of (flat_map P.rows parts.now) }
{
    let mut sums = Sums::none();
    for part in parts {
        sums = sums.join(part.sums());
    }
    sums
}

/// The row at a place.
pub(crate) fn row_among<P: Part>(parts: &[P], place: u32) -> Option<WeighedRow>
    requires { place < length (flat_map P.rows parts.now) }
    ensures { result ≡ slice_get (flat_map P.rows parts.now) place }
{
    let held = holding(parts, place);
    parts[held.index].row(place - held.before)
}

/// The last place up to `to` where the weights add up to 0 from `before` on, found from the last part back.
pub(crate) fn last_zero_among<P: Part>(parts: &[P], sums: Sums, before: i32, to: u32) -> u32
    requires room { HasRoom before (length (flat_map P.rows parts.now)) }
    requires sums { sums ≡ sums_of (flat_map P.rows parts.now) }
    ensures { IsLastZero before (flat_map P.rows parts.now) to result }
{
    let mut passed = sums.rows;
    let mut sum = before + sums.sum;
    for index in (0..parts.len()).rev() {
        let part = &parts[index];
        let last = part.sums();
        passed -= last.rows;
        sum -= last.sum;
        let found = part.last_zero(sum, beyond(to, passed));
        if found > 0 {
            return passed + found;
        }
    }
    0
}

/// The first place from `from` on where the weights add up to 0 from `before` on.
pub(crate) fn first_zero_among<P: Part>(parts: &[P], before: i32, from: u32) -> u32
    requires { HasRoom before (length (flat_map P.rows parts.now)) }
    ensures { IsFirstZero before (flat_map P.rows parts.now) from result }
{
    let mut passed = 0;
    let mut sum = before;
    for part in parts {
        let found = part.first_zero(sum, beyond(from, passed));
        if found > 0 {
            return passed + found;
        }
        let next = part.sums();
        passed += next.rows;
        sum += next.sum;
    }
    0
}

/// The best entry that is sought beside a place.
pub(crate) fn best_among<P: Part>(parts: &[P], sought: Sought, place: u32) -> Option<Entry>
    ensures { result ≡ best_beside sought place (flat_map P.rows parts.now) }
{
    let mut left = place;
    let mut best = None;
    for part in parts {
        best = better_of(sought, best, part.best(sought, left));
        left = beyond(left, part.sums().rows);
    }
    best
}

/// The place of the row that has it, in the first part with it.
pub(crate) fn best_place_among<P: Part>(
    parts: &[P],
    sought: Sought,
    place: u32,
    entry: Entry,
) -> u32
    requires few { length (flat_map P.rows parts.now) ≤ most_rows }
    requires there { best_beside sought place (flat_map P.rows parts.now) ≡ Some entry }
    ensures { shows_at (shown_by sought) (flat_map P.rows parts.now) result ≡ Some entry }
{
    let mut passed = 0;
    for part in parts {
        let left = beyond(place, passed);
        if is_entry(part.best(sought, left), entry) {
            return passed + part.best_place(sought, left, entry);
        }
        passed += part.sums().rows;
    }
    unreachable!()
}

/// How far a place stands beyond so many rows, or 0.
fn beyond(place: u32, passed: u32) -> u32
    ensures { result ≡ place - passed }
{
    if place > passed { place - passed } else { 0 }
}

/// Whether there is one, and it is this entry.
pub(crate) fn is_entry(found: Option<Entry>, entry: Entry) -> bool
    ensures { result ≡ is_entry found entry }
{
    match found {
        None => false,
        Some(other) => is_same(other, entry),
    }
}
