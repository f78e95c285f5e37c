//! What an edit passes, found by comparing.

ghost use Rattle.std.specs.Prelude.{◌≡◌, true, false};
ghost use Rattle.pq_fusion.specs.declared.bound.Bound.{Bound};
ghost use Rattle.pq_fusion.specs.Differences.{besides};
ghost use Rattle.pq_fusion.specs.Edits.{Passes};

use crate::{Bound, Piece};
use retro_base::Entry;

/// The entry that a rising list has besides those of another.
fn besides(fewer: &[Entry], more: &[Entry]) -> Bound
    ensures { result ≡ besides fewer.now more.now }
{
    for place in 0..more.len() {
        let entry = more[place];
        if place >= fewer.len() || entry.comes_before(fewer[place]) {
            return Bound::At(entry);
        }
    }
    Bound::Top
}

/// The entry that an edit passes, found by comparing what is left before and after it.
pub(crate) fn difference(gains: bool, before: &Piece, after: &Piece) -> Bound
    ensures { (own x : Bound) → Passes gains own x before.now after.now → result ≡ x }
{
    if gains {
        besides(before.left(), after.left())
    } else {
        besides(after.left(), before.left())
    }
}
