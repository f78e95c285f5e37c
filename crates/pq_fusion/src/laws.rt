//! Laws of pieces, and of the tree above them.
ghost use Rattle.pq_fusion.specs.Edits.{EditsPassOne, EarlierPasses, LaterPasses};
ghost use Rattle.pq_fusion.specs.PieceLaws.{RowsRise, FusedRise, FuseIsAssociative, NothingIsUnit, RowsFuse, MetIsValid, LeftIsPresent};
ghost use Rattle.pq_fusion.specs.WearLevels.{FewMadeAnew};

/// A law: the lists of a piece rise, be it that of rows or one that two pieces fuse to.
pub fn pieces_rise()
    ensures rows { RowsRise }
    ensures fused { FusedRise }
{}

/// A law: pieces can be fused in either order, and the piece of no rows changes nothing.
pub fn fuse_is_associative()
    ensures associative { FuseIsAssociative }
    ensures unit { NothingIsUnit }
{}

/// A law: what two lists of rows come to one after the other is what they come to apart, fused. So what a timeline comes to is
/// the product of what its rows come to.
pub fn rows_fuse()
    ensures { RowsFuse }
{}

/// A law: rows replay whole exactly where no taking is unmet, and what is left is then the state.
pub fn met_rows_replay()
    ensures valid { MetIsValid }
    ensures present { LeftIsPresent }
{}

/// A law: one row more or less, wherever it stands among rows, passes one entry between what these leave and what they do not.
/// Which one it is goes from part to part: that of one of two neighbouring pieces is that of both, or the entry at the boundary
/// of what the second takes of the first, or the edited one.
pub fn edits_pass_one()
    ensures rows { EditsPassOne }
    ensures earlier { EarlierPasses }
    ensures later { LaterPasses }
{}

/// A law: over any history of edits that find their memory, from the empty queue on, the rows that come into a run that is made anew
/// are at most 65 for each edit and 6 for each digit of one more than there are rows before it, added up.
pub fn making_anew_is_rare()
    ensures { FewMadeAnew }
{}
