//! What is found of a range of keys, among the pairs of a span and with one pair more.

ghost use Rattle.std.specs.Prelude.{◌≡◌, ◌-◌, ◌<◌, ◌≤◌, ◌∷◌, [], suc, true, length, slice_get, Some, IfSome, IfNone};
ghost use Rattle.std.specs.List.{slice_range};
ghost use Rattle.retro_base.specs.Answers.{pairs_between};
ghost use Rattle.lifetime_segments.specs.Lawful.{IsLawful};
ghost use Rattle.retro_dictionary.specs.PairSearch.{pair_before, found_in, found_of, none_found, found_together, lesser, greater};
ghost use Rattle.retro_dictionary.specs.declared.search.Bound.TheVariants.{Below, UpTo};
ghost use Rattle.retro_dictionary.specs.Bounds.{reaches, StandUpTo, FailsAt, HasNumber, IsFirstWithin, IsLastWithin};

use crate::pairs::{Found, KeyPair, KeyRange};
use lifetime_segments::{Decomposable, RangeSearch};
use weighted_tree::{Tree, uncounted};

/// The search of a dictionary: how many pairs have keys in a range, their sum, and the least and the greatest of them.
#[derive(Clone, Copy)]
pub struct PairSearch;

impl Decomposable for PairSearch {
    ghost use Rattle.retro_dictionary.specs.PairSearch.{pair_before, found_in, none_found, found_together};
    ghost use Rattle.retro_dictionary.specs.PairSearchLaws.{pair_order, pair_laws};

    type Item = KeyPair;

    type Query = KeyRange;

    type Part = Found;

    ghost stands_before = { pair_before };

    ghost answer = { found_in };

    ghost empty_part = { none_found };

    ghost combined = { found_together };

    ghost order = { pair_order };

    ghost laws = { pair_laws };

    fn before(first: &KeyPair, second: &KeyPair) -> bool {
        *first < *second
    }

    fn empty() -> Found {
        Found {
            count: 0,
            sum: 0,
            least: None,
            greatest: None,
        }
    }

    fn ask(items: &Tree<KeyPair>, query: KeyRange) -> Found {
        found_in(items, query)
    }

    fn combine(first: Found, second: Found) -> Found {
        Found {
            count: first.count + second.count,
            sum: first.sum.wrapping_add(second.sum),
            least: lesser(first.least, second.least),
            greatest: greater(first.greatest, second.greatest),
        }
    }
}

impl RangeSearch for PairSearch {
    ghost use Rattle.retro_dictionary.specs.PairSearch.{stands_below, stands_above};
    ghost use Rattle.retro_dictionary.specs.PairSearchLaws.{pair_range_laws};

    ghost below = { stands_below };

    ghost above = { stands_above };

    ghost range_laws = { pair_range_laws };

    fn is_below(item: &KeyPair, query: KeyRange) -> bool {
        item.key < query.low
    }

    fn is_above(item: &KeyPair, query: KeyRange) -> bool {
        query.high < item.key
    }

    fn with_one(part: Found, item: &KeyPair, query: KeyRange) -> Found {
        if item.key < query.low || query.high < item.key {
            return part;
        }
        PairSearch::combine(part, found_of_one(*item))
    }
}

/// The lesser of two pairs, where they are there.
fn lesser(first: Option<KeyPair>, second: Option<KeyPair>) -> Option<KeyPair>
    ensures { result ≡ lesser first second }
{
    match (first, second) {
        (Some(a), Some(b)) => { if b < a { second } else { first } }
        (None, _) => second,
        (_, None) => first,
    }
}

/// The greater of two pairs, where they are there.
fn greater(first: Option<KeyPair>, second: Option<KeyPair>) -> Option<KeyPair>
    ensures { result ≡ greater first second }
{
    match (first, second) {
        (Some(a), Some(b)) => { if b < a { first } else { second } }
        (None, _) => second,
        (_, None) => first,
    }
}

/// A pair of a tree, and its place.
#[derive(Clone, Copy)]
struct Placed {
    place: u32,
    pair: KeyPair,
}

/// What is found of the pairs whose keys lie in a range.
///
/// A question asks some dozen trees, of which most have no pair in its range: one search and one look tell that.
fn found_in(items: &Tree<KeyPair>, range: KeyRange) -> Found
    requires lawful { IsLawful pair_before items.now }
    ensures { result ≡ found_in items.now range }
{
    let Some(first) = first_within(items, range) else {
        return PairSearch::empty();
    };
    let last = last_within(items, &first, range);
    found_between(items, &first, &last)
}

/// The first pair whose key lies in a range, if there is one.
fn first_within(items: &Tree<KeyPair>, range: KeyRange) -> Option<Placed>
    requires lawful { IsLawful pair_before items.now }
    ensures some { IfSome result (IsFirstWithin range items.now) }
    ensures none { IfNone result (pairs_between range.low range.high items.now ≡ []) }
{
    let place = count_below(items, range.low);
    let pair = pair_up_to(items, place, range.high)?;
    Some(Placed { place, pair })
}

/// The last pair whose key lies in a range, by the first one. A range of one key mostly has no other.
fn last_within(items: &Tree<KeyPair>, first: &Placed, range: KeyRange) -> Placed
    requires lawful { IsLawful pair_before items.now }
    requires first { IsFirstWithin range items.now first.now }
    ensures order { first.now.place ≤ result.place }
    ensures last { IsLastWithin range items.now result }
{
    if range.low == range.high && pair_up_to(items, first.place + 1, range.high).is_none() {
        return *first;
    }
    let place = count_to_end(items, first, range) - 1;
    if place == first.place {
        return *first;
    }
    let pair = uncounted::get(items, place);
    Placed { place, pair }
}

/// What is found of the pairs from one to another.
fn found_between(items: &Tree<KeyPair>, first: &Placed, last: &Placed) -> Found
    requires lawful { IsLawful pair_before items.now }
    requires order { first.now.place ≤ last.now.place }
    requires first { slice_get items.now first.now.place ≡ Some first.now.pair }
    requires last { slice_get items.now last.now.place ≡ Some last.now.pair }
    ensures { result ≡ found_of (slice_range items.now first.now.place (suc last.now.place)) }
{
    if first.place == last.place {
        return found_of_one(first.pair);
    }
    let to = last.place + 1;
    Found {
        count: to - first.place,
        sum: uncounted::measure(items, first.place, to).sum(),
        least: Some(first.pair),
        greatest: Some(last.pair),
    }
}

/// What is found of one pair.
fn found_of_one(pair: KeyPair) -> Found
    ensures { result ≡ found_of (pair ∷ []) }
{
    Found {
        count: 1,
        sum: i128::from(pair.value),
        least: Some(pair),
        greatest: Some(pair),
    }
}

/// The pair at a place, if there is one and its key is not above another.
fn pair_up_to(items: &Tree<KeyPair>, place: u32, high: i64) -> Option<KeyPair>
    requires within { place ≤ length items.now }
    ensures some { IfSome result (λ pair. (slice_get items.now place ≡ Some pair) × (reaches (UpTo high) pair ≡ true)) }
    ensures none { IfNone result (FailsAt (reaches (UpTo high)) items.now place) }
    ensures number { HasNumber items.now place }
{
    if place == items.len() {
        return None;
    }
    let pair = uncounted::get(items, place);
    if pair.key <= high { Some(pair) } else { None }
}

/// How many pairs have keys below one, where no key is below the least number.
fn count_below(items: &Tree<KeyPair>, low: i64) -> u32
    requires lawful { IsLawful pair_before items.now }
    ensures below { HasNumber items.now result → StandUpTo (Below low) items.now result }
    ensures within { result ≤ length items.now }
{
    if low == i64::MIN {
        return 0;
    }
    count_up_to(items, Bound::Below { key: low })
}

/// How many pairs have keys up to the end of a range that has this first one, where no key is above the greatest number.
fn count_to_end(items: &Tree<KeyPair>, first: &Placed, range: KeyRange) -> u32
    requires lawful { IsLawful pair_before items.now }
    requires first { IsFirstWithin range items.now first.now }
    ensures past { first.now.place < result }
    ensures up_to { HasNumber items.now (result - 1) → StandUpTo (UpTo range.high) items.now result }
    ensures within { result ≤ length items.now }
{
    if range.high == i64::MAX {
        return items.len();
    }
    count_up_to(items, Bound::UpTo { key: range.high })
}

/// Up to where pairs are looked for.
#[derive(Clone, Copy)]
enum Bound {
    /// Below a key.
    Below { key: i64 },
    /// Up to a key.
    UpTo { key: i64 },
}

/// Whether a pair stands up to the bound.
fn reaches(bound: Bound, pair: KeyPair) -> bool
    ensures { result ≡ reaches bound pair }
{
    match bound {
        Bound::Below { key } => pair.key < key,
        Bound::UpTo { key } => pair.key <= key,
    }
}

/// How many pairs stand up to the bound.
fn count_up_to(items: &Tree<KeyPair>, bound: Bound) -> u32
    requires { IsLawful pair_before items.now }
    ensures up_to { StandUpTo bound items.now result }
    ensures within { result ≤ length items.now }
{
    uncounted::partition_point(items, |pair: &KeyPair| reaches(bound, *pair))
}
