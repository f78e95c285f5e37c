//! What is sought among entries, and the better one of two that may be there.

ghost use Rattle.std.specs.Prelude.{◌≡◌};
ghost use Rattle.retro_base.specs.Better.{better_of};
ghost use Rattle.evidence_check.specs.Sought.{beaten_in};

use retro_base::Entry;

/// What is sought beside a place.
#[derive(Clone, Copy)]
pub(crate) enum Sought {
    /// The greatest dead entry from there on.
    Dead,
    /// The least entry that survives before it.
    Alive,
}

/// The better one: the greater one of the dead, the lesser one of those that survive.
pub(crate) fn better_of(sought: Sought, best: Option<Entry>, entry: Option<Entry>) -> Option<Entry>
    ensures { result ≡ better_of (beaten_in sought) best entry }
{
    match (best, entry) {
        (_, None) => best,
        (None, Some(_)) => entry,
        (Some(first), Some(second)) => {
            if is_beaten(sought, first, second) {
                entry
            } else {
                best
            }
        }
    }
}

/// Whether an entry is worse than another one.
fn is_beaten(sought: Sought, entry: Entry, other: Entry) -> bool
    ensures { result ≡ beaten_in sought entry other }
{
    match sought {
        Sought::Dead => entry.comes_before(other),
        Sought::Alive => other.comes_before(entry),
    }
}
