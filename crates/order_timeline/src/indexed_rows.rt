//! What a timeline keeps of its rows.

ghost use Rattle.std.specs.Prelude.{◌≡◌, []};
ghost use Rattle.order_timeline.specs.IndexedRows.{KeepsRows};

use crate::names::Names;
use crate::numbers::Numbers;
use crate::run::Run;
use monoid_laws::Counted;
use retro_base::PackedRow;
use std::alloc::Global;
use weighted_tree::Tree;

/// What a timeline keeps of its rows.
#[derive(Drop)]
pub(crate) struct IndexedRows {
    pub(crate) rows: Tree<Counted<PackedRow>>,
    /// How many rows there are in each run of neighbours.
    pub(crate) runs: Tree<Run>,
    /// A name for each run.
    pub(crate) names: Names,
    /// The name of each row's run, by the row's number.
    pub(crate) numbers: Numbers,
}

impl IndexedRows {
    pub(crate) fn new(alloc: Global) -> IndexedRows
        ensures rows { result.rows ≡ [] }
        ensures kept { KeepsRows result }
    {
        IndexedRows {
            rows: Tree::new(alloc),
            runs: Tree::new(alloc),
            names: Names::new(alloc),
            numbers: Numbers::new(alloc),
        }
    }
}
