//! Laws over the labels of rows.

ghost use Rattle.std.specs.Prelude.{◌≡◌, ◌^◌, ◌≤◌, ℕ};
ghost use Rattle.order_labels.specs.Labels.{least_gap, middle_rule};
ghost use Rattle.order_labels.specs.LabelLaws.{GapsAreWide, IsSpreadEvenly, RelabellingIsRare, least_insertions};
ghost use Rattle.retro_base.specs.Limits.{most_rows};

/// A law: the labels that a relabelling leaves are the first multiples of a gap, which is the greatest power of two of which
/// one more than there are rows fit below the limit. The gap is 2^22 at the least. The number is that of the width and of the
/// bound on rows.
pub fn labels_are_spread_evenly()
    ensures even { (count : ℕ) → count ≤ most_rows → IsSpreadEvenly count }
    ensures wide { GapsAreWide }
    ensures number { least_gap ≡ 2 ^ 22 }
{}

/// A law: where each row gets the middle of the labels beside it, from the empty list on or from the labels that a relabelling
/// has left, at least 22 insertions come before the next relabelling, whatever is put in and taken out. The number is that of
/// the width and of the bound on rows.
pub fn relabelling_is_rare()
    ensures rare { RelabellingIsRare middle_rule }
    ensures number { least_insertions ≡ 22 }
{}
