//! The label of a new row, between those beside it.

ghost use Rattle.std.specs.Prelude.{◌≡◌, ◌+◌, ◌-◌, ◌<◌, ◌≤◌, max, false, length, IfSome, IfNone, if◌then◌else◌};
ghost use Rattle.order_labels.specs.Labels.{AreLabels, label_before, label_limit, has_room};
ghost use Rattle.retro_dictionary.specs.Edited.{IsBetween};
ghost use Rattle.retro_dictionary.specs.RelabellingLaw.{one_more};
ghost use Rattle.retro_dictionary.specs.RowLabels.{distance_beside, distance_by, label_after, label_beside, owed, rounded, row_rule, unit_after, unit_beside};

use crate::lifetimes::END;
use crate::recent::RecentNeighbour;
use order_labels::{Labels, greatest_power};
use retro_base::MAX_ROWS;

/// So many insertions lie between two relabellings at the least.
const LEAST_INSERTIONS: u32 = 22;

/// A row takes one part in so many of a gap at the least. With more of them a gap has room for more rows that come in one after
/// another, and the sooner it is used up where they come on the other side than the row was put for.
const PARTS: u64 = 4096;

/// The label of the row before a place, or 0.
pub(crate) fn label_before(labels: &Labels, place: u32) -> u64
    requires { place ≤ length labels.now }
    ensures { result ≡ label_before 0 labels.now place }
{
    if place == 0 {
        return 0;
    }
    labels.label_at(place - 1)
}

/// The label that a row gets at a place, where one is left and so many rows were put in since all were relabelled: that of the
/// rule in specs/RowLabels.antt.
///
/// Rows come in one after another, at the end or at some other place, or each at a place of its own. So a row beside one that came
/// in lately leaves most of the gap on its other side, and any other one halves it: in simulations a full dictionary was put in row
/// by row, and thousands of rows at one place or at random, and none was relabelled. What is proved is that a relabelling is rare
/// (specs/RelabellingLaw.antt).
pub(crate) fn free_label(
    labels: &Labels,
    recent: RecentNeighbour,
    so_far: u32,
    place: u32,
) -> Option<u64>
    requires within { place ≤ length labels.now }
    requires labels { AreLabels labels.now }
    ensures rule { result ≡ row_rule recent so_far labels.now place }
    ensures between { IfSome result (λ label. IsBetween labels.now place label) }
    ensures full { IfNone result (has_room labels.now place ≡ false) }
{
    let beside = labels.beside(place);
    if beside.after - beside.before < 2 {
        return None;
    }
    if place == labels.len() && place > 0 {
        return Some(label_after(beside.former, beside.before));
    }
    let left = gap_or_end(place > 0, beside.former, beside.before);
    let right = gap_or_end(place < labels.len(), beside.after, beside.later);
    Some(label_beside(recent, so_far, left, beside.before, beside.after, right))
}

/// The gap beyond a label that stands beside a place, or the end of all labels where no such label stands there.
fn gap_or_end(is_gap: bool, lower: u64, upper: u64) -> u64
    requires { lower ≤ upper }
    ensures { result ≡ if is_gap then upper - lower else label_limit }
{
    if is_gap { upper - lower } else { END }
}

/// One insertion more since all rows were relabelled, counted up to 22.
pub(crate) fn one_more(so_far: u32) -> u32
    ensures { result ≡ one_more so_far }
{
    so_far.min(LEAST_INSERTIONS - 1) + 1
}

/// The label of a row before others, by the labels beside it and the gaps beyond them.
fn label_beside(
    recent: RecentNeighbour,
    so_far: u32,
    left: u64,
    before: u64,
    after: u64,
    right: u64,
) -> u64
    requires room { before + 2 ≤ after }
    requires within { after ≤ label_limit }
    ensures { result ≡ label_beside recent so_far left before after right }
{
    let unit = unit_beside(recent, so_far, left, after - before, right);
    match recent {
        RecentNeighbour::Before | RecentNeighbour::Neither => before + unit,
        RecentNeighbour::After => after - unit,
    }
}

/// How far it comes from one of these labels, with this gap between them.
fn unit_beside(recent: RecentNeighbour, so_far: u32, left: u64, gap: u64, right: u64) -> u64
    ensures { result ≡ unit_beside recent so_far left gap right }
{
    let distance = owed(so_far).max(distance_by(recent, left, gap, right));
    rounded((gap / 2).min(distance))
}

/// So far as leaves room for as many insertions as have to come before all rows are relabelled.
fn owed(so_far: u32) -> u64
    ensures { result ≡ owed so_far }
{
    1 << (LEAST_INSERTIONS - 1).saturating_sub(so_far)
}

/// And so far as leaves room for rows that come on its other side, where one beside it came in lately.
fn distance_by(recent: RecentNeighbour, left: u64, gap: u64, right: u64) -> u64
    ensures { result ≡ distance_by recent left gap right }
{
    match recent {
        RecentNeighbour::Before => distance_beside(left, gap),
        RecentNeighbour::After => distance_beside(right, gap),
        RecentNeighbour::Neither => gap / 2,
    }
}

/// The same from a row beyond which there is this gap.
fn distance_beside(near: u64, gap: u64) -> u64
    ensures { result ≡ distance_beside near gap }
{
    (gap / PARTS).max((near / 2).min(gap / 4))
}

/// The label of a row after all others, by the last two labels.
fn label_after(former: u64, last: u64) -> u64
    requires order { former ≤ last }
    requires room { last + 2 ≤ label_limit }
    ensures { result ≡ label_after former last }
{
    let unit = unit_after(last - former, END - last);
    last.next_multiple_of(unit) + unit
}

/// How far a row after all others comes from the last one, with this gap before that one and this room after it.
fn unit_after(gap: u64, room: u64) -> u64
    ensures { result ≡ unit_after gap room }
{
    rounded((room / u64::from(MAX_ROWS)).max((gap / 2).min(room / 4)))
}

/// The greatest power of two up to a distance.
fn rounded(distance: u64) -> u64
    ensures { result ≡ rounded distance }
{
    greatest_power(distance.max(1))
}
