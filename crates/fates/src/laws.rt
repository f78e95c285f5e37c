//! Laws over the definition of a fate.

ghost use Rattle.fates.specs.AtMost.{AtMostIsCounted};

/// A law: along a replay of a priority queue the number of entries that are at most a given one rises by one at each `ins` of such
/// an entry, falls by one at each `delmin` where there is one, and else stays.
pub fn entries_at_most_are_counted()
    ensures { AtMostIsCounted }
{}
