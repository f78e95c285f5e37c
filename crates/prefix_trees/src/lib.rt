//! Histories of a line of items, and the rows that they are kept by.
//!
//! A row of a queue, a stack or a deque adds an item at an end of a line, or takes one there. `LineRows` is a list of such rows,
//! in one tree of `weighted_tree`. It tells how many items there are after the first so many rows, which row would find nothing
//! to take were another put in or taken out, and the last place from which on an end, or one of the two, grew by so many items.
//! The tree measures three walks of each range, of the growth of the whole line, at its left end and at its right end: how deep a
//! walk falls below its start, and how high it ends above its lowest point. So the first place where the size falls to a value is
//! where the depth of the one walk comes to reach it, and the last place from which on an end grew so far is where the height of
//! another does, seen from the other end.
//!
//! A row finds nothing to take exactly where the size of the line would fall below 0. The measure of all rows from the edit on says
//! whether that is so, and only then a search says where; an edit that lowers no size asks for neither. An item keeps its position in
//! the line while it is there; the row that wrote it is the last one before which the position was not yet reached
//! (specs/PositionLaws.antt).
//!
//! A `RetroLine` is a queue, a stack or a deque whose past can be edited, over its `LineRows`. What differs between the three is
//! a `Sequence`: how that row is found. The answers, the content, the failing rows and the edits are here, once for all
//! three kinds: `Partial` and `Retro` of `retro_base`, and `ask_past`.
//!
//! A `SignTree` serves whoever keeps signs of another kind: it is a list of signs, -1, 0 or 1, each with a mark. It tells the sum
//! of the first signs, the first and the last place where such a sum is at most a value, and the place of the k-th mark
//! (specs/SignPrefixes.antt). It searches by the walk of each range in the same way.
//!
//! | Call | Nodes visited, d being the digits of one more than the length |
//! |---|---|
//! | `size_at`, `last_growing`, `last_growing_at_either`, `insert`, `remove` of `LineRows` | at most 12 d |
//! | `copy` of `LineRows` | at most one for each row |
//! | `insert`, `remove`, `prefix`, `kth_marked` of `SignTree` | at most 12 d |
//! | `first_at_most`, `last_at_most` of `SignTree` | at most 24 d |
//! | `ask_past` of `RetroLine` | at most 36 d |
//! | the calls of `Partial` of `RetroLine` that take a counter, but `ask_after`, `copy_after` and `list_after` | at most 144 d |
//!
//! What the layer above may rely on: the clauses of these types, in the words of lists; specs/Prefixes.antt and
//! specs/SignPrefixes.antt for the searches; specs/MarkLaws.antt on marks; specs/Growth.antt and the laws beside it on the rows of a line.
//!
//! - Rows: `LineRows`, `End`. Lines: `Sequence`, `RetroLine`. Signs: `SignTree`.
//! - `line_rows`, `line_row`: the rows of a line of items, and one of them as it is measured. `growth`: ends, and how operations let a
//!   line grow. `sequence`, `asked`, `line`: a kind, what is asked of it, and its structure.
//! - `sign_tree`, `signed`: signs with marks, and one of them as it is measured.
#![tactic(auto)]

mod asked;
mod growth;
mod line;
mod line_row;
mod line_rows;
mod sequence;
mod sign_tree;
mod signed;

pub use growth::End;
pub use line::RetroLine;
pub use line_rows::LineRows;
pub use sequence::Sequence;
pub use sign_tree::SignTree;
