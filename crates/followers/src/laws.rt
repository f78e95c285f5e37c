//! Laws over the definitions of what followers keep.

ghost use Rattle.followers.specs.MirrorLaws.{MirrorsHoldThePresent};

/// Whoever sees the changes of a priority queue alone holds its present: where the events of a name tell the changes of edits, whatever
/// they are, the entries that a mirror had of the rows before them are, after the events, those of the rows after them.
pub fn mirrors_hold_the_present()
    ensures { MirrorsHoldThePresent }
{}
