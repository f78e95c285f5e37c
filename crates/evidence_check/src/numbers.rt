//! The numbers of the rows of a timeline.

ghost use Rattle.std.specs.Prelude.{◌≡◌};
ghost use Rattle.std.specs.BTreeSet.{contains};
ghost use Rattle.std.specs.Ordering.{nat_cmp};

use std::collections::BTreeSet;

/// The numbers of a timeline's rows.
pub(crate) type Numbers = BTreeSet<u32>;

/// Whether one of the rows has the number.
pub(crate) fn has_number(number: u32, numbers: &Numbers) -> bool
    ensures { result ≡ contains nat_cmp numbers.now number }
{
    numbers.contains(&number)
}
