//! What a dictionary keeps of its rows.

ghost use Rattle.std.specs.Prelude.{◌≡◌, []};
ghost use Rattle.retro_dictionary.specs.Ready.{IsLabelled};

use crate::search::PairSearch;
use key_index::KeyIndex;
use lifetime_segments::Segments;
use monoid_laws::Counted;
use order_labels::Labels;
use retro_base::PackedRow;
use std::alloc::Global;
use weighted_tree::Tree;

/// What a dictionary keeps of its rows.
#[derive(Drop)]
pub(crate) struct LabelledRows {
    pub(crate) rows: Tree<Counted<PackedRow>>,
    pub(crate) labels: Labels,
    /// How many rows were put in since there were none or all were relabelled, counted up to 22.
    pub(crate) insertions_since_relabel: u32,
    pub(crate) index: KeyIndex,
    pub(crate) segments: Segments<PairSearch>,
}

impl LabelledRows {
    pub(crate) fn new(alloc: Global) -> LabelledRows
        ensures rows { result.rows ≡ [] }
        ensures kept { IsLabelled result }
    {
        LabelledRows {
            rows: Tree::new(alloc),
            labels: Labels::new(alloc),
            insertions_since_relabel: 0,
            index: KeyIndex::new(alloc),
            segments: Segments::new(alloc),
        }
    }
}
