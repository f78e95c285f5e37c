//! A label as it stands in the tree, and how all labels are spread anew.

ghost use Rattle.std.specs.Prelude.{◌≡◌, ◌+◌, ◌*◌, ◌^◌, ◌<◌, ◌≤◌, length};
ghost use Rattle.order_labels.specs.Labels.{exponent, gap_of, least_gap, spread, label_limit};
ghost use Rattle.retro_base.specs.Limits.{most_rows};

use monoid_laws::Counted;
use weighted_tree::{Tree, uncounted};

/// The label of a row, as it stands in the tree.
pub(crate) type Label = Counted<u64>;

/// The number of the binary digits of a label.
const WIDTH: u32 = 40;

/// Labels are below it.
pub(crate) const LIMIT: u64 = 1 << WIDTH;

/// Relabels all rows.
pub(crate) fn spread(rows: &mut Tree<Label>)
    requires { length rows.old ≤ most_rows }
    ensures { rows.new ≡ spread (length rows.old) }
{
    let count = rows.len();
    let gap = gap_of(count);
    for place in 0..count {
        uncounted::replace(rows, place, Label::new((u64::from(place) + 1) * gap));
    }
}

/// How far apart the labels of so many rows are once all are relabelled: the row at index i gets i + 1 times as much.
pub fn gap_of(count: u32) -> u64
    requires { count ≤ most_rows }
    ensures value { result ≡ gap_of count }
    ensures fits { (count + 1) * result ≤ label_limit }
    ensures wide { least_gap ≤ result }
{
    greatest_power(LIMIT / (u64::from(count) + 1))
}

/// The greatest power of two that is at most n.
pub fn greatest_power(n: u64) -> u64
    requires { 0 < n }
    ensures { result ≡ 2 ^ exponent n }
{
    let mut power = 1;
    while power <= n / 2 {
        power *= 2;
    }
    power
}
