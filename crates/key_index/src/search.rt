//! How many rows stand up to a label on a key.

ghost use Rattle.std.specs.Prelude.{◌≡◌, ◌≤◌, length, take, drop, not};
ghost use Rattle.std.specs.List.{filter};
ghost use Rattle.key_index.specs.Ordered.{AreByKey, reaches};

use crate::row::{KeyRow, key_of};
use weighted_tree::{Tree, uncounted};

/// Whether a row stands on a lesser key, or up to the label on this one.
fn reaches(key: i64, label: u64, row: KeyRow) -> bool
    ensures { result ≡ reaches key label row }
{
    let its_key = key_of(row.op());
    its_key < key || (its_key == key && row.label() <= label)
}

/// How many rows stand on lesser keys, and up to a label on this one.
pub(crate) fn count_up_to(by_key: &Tree<KeyRow>, key: i64, label: u64) -> u32
    requires { AreByKey by_key.now }
    ensures front { take result by_key.now ≡ filter (reaches key label) by_key.now }
    ensures back { drop result by_key.now ≡ filter (λ row. not (reaches key label row)) by_key.now }
    ensures within { result ≤ length by_key.now }
{
    uncounted::partition_point(by_key, |row: &KeyRow| reaches(key, label, *row))
}
