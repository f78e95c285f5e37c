//! What a line of evidence says.

use retro_base::{Change, Name, Op};

/// What was edited in a timeline of a priority queue, and what that changed in its present.
///
/// `IsEvidence` of `specs/Evidence.antt` says which values are evidence: the operation is one of a priority
/// queue, the change is not `Plain`, and both row numbers are numbers that rows can have.
#[derive(Clone, Copy, PartialEq, Eq)]
pub struct Evidence {
    /// The timeline.
    pub name: Name,
    /// Whether the row was put in; else it was taken out.
    pub added: bool,
    /// How many rows stand before it.
    pub place: u32,
    /// The number of the row.
    pub number: u32,
    /// What the row does.
    pub op: Op,
    /// The bridge, and the entry that the present has gained or lost.
    pub change: Change,
}
