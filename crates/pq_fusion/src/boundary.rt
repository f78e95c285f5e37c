//! The entry at a rank of two lists together, and what stands at the boundary of so many takings.

ghost use Rattle.std.specs.Prelude.{◌≡◌, ◌+◌, ◌-◌, ◌≤◌, false, true, length};
ghost use Rattle.pq_fusion.specs.Bounds.{at_rank, is_below, last_of};
ghost use Rattle.pq_fusion.specs.Edits.{boundary_at};
ghost use Rattle.pq_fusion.specs.Pieces.{together};
ghost use Rattle.pq_fusion.specs.Searches.{SearchesBoth, SearchesWithin};

use crate::Bound;
use crate::entry_list::EntryList;
use crate::interval::Interval;
use retro_base::Steps;
use std::sync::ledger::Ledger;

/// The entry at a rank of a list.
fn bound_at<L: Ledger>(entries: &EntryList, rank: u32, steps: &mut Steps<L>) -> Bound
    ensures entry { result ≡ at_rank entries.now rank }
    ensures visits { SearchesWithin 1 (length entries.now) steps.old steps.new }
{
    match entries.entry(rank, steps) {
        Some(entry) => Bound::At(entry),
        None => Bound::Top,
    }
}

/// How many of the least `rank` entries of two rising lists together are those of the first, where of equal ones those of the first
/// come first. Sought in both lists at once: of the entries in the middle of what is left of each, the greater one and all behind it are
/// too many where both places together are not below the rank, and the lesser one and all before it are among the least where they are.
fn split_at_rank<L: Ledger>(
    first: &EntryList,
    second: &EntryList,
    rank: u32,
    steps: &mut Steps<L>,
) -> u32
    requires within { rank ≤ length first.now + length second.now }
    ensures within { result ≤ rank }
    ensures first { result ≤ length first.now }
    ensures second { rank - result ≤ length second.now }
    ensures lesser { is_below (at_rank second.now (rank - result)) (last_of first.now result) ≡ false }
    ensures greater { is_below (last_of second.now (rank - result)) (at_rank first.now result) ≡ true }
    ensures visits { SearchesBoth 4 first.now second.now steps.old steps.new }
{
    let (own_len, other_len) = (first.len(), second.len());
    let (first, second) = (first.lent(), second.lent());
    let mut own = Interval::between(&first, rank.saturating_sub(other_len), rank.min(own_len));
    let mut other = Interval::between(&second, rank.saturating_sub(own_len), rank.min(other_len));
    'halve: while own.is_open() && other.is_open() {
        steps.tick();
        let (one, two) = (own.middle(&first), other.middle(&second));
        if two.entry.comes_before(one.entry) {
            if one.place + two.place >= rank {
                own = own.before(one);
            } else {
                other = other.behind(two);
            }
        } else if one.place + two.place >= rank {
            other = other.before(two);
        } else {
            own = own.behind(one);
        }
    }
    if own.is_open() {
        rank - other.low
    } else {
        own.low
    }
}

/// The entry at a rank of two rising lists together.
fn at_rank<L: Ledger>(
    first: &EntryList,
    second: &EntryList,
    rank: u32,
    steps: &mut Steps<L>,
) -> Bound
    ensures entry { result ≡ at_rank (together first.now second.now) rank }
    ensures visits { SearchesBoth 6 first.now second.now steps.old steps.new }
{
    if rank >= first.len() + second.len() {
        return Bound::Top;
    }
    let own = split_at_rank(first, second, rank, steps);
    bound_at(first, own, steps).lower(bound_at(second, rank - own, steps))
}

/// What stands at the boundary of so many takings from two rising lists together.
pub(crate) fn boundary<L: Ledger>(
    first: &EntryList,
    second: &EntryList,
    takings: u32,
    gains: bool,
    steps: &mut Steps<L>,
) -> Bound
    ensures entry { result ≡ boundary_at gains (together first.now second.now) takings }
    ensures visits { SearchesBoth 6 first.now second.now steps.old steps.new }
{
    if !gains {
        return at_rank(first, second, takings, steps);
    }
    if takings == 0 {
        return Bound::Low;
    }
    at_rank(first, second, takings - 1, steps)
}
