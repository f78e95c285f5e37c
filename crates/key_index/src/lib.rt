//! The rows of a dictionary, found by their key: the rows next to a label on a key, and the first row that fails once
//! the list is edited.
//!
//! What a row of a dictionary does depends on the rows of its own key alone: a key is there exactly where the last row
//! on it puts it. So the two rows beside an edit on its key decide whether the edited list can be performed, and which
//! row fails first, and nothing is performed again.
//!
//! [`KeyIndex`] is a list of rows by their labels, which rise: numbers that say which row comes first, and leave room
//! in between (`order_labels`). It keeps them in one tree, by key and then by label, so that the rows next to an edit on its
//! key stand next to one another, and finds a place there by one way down. A caller that has the rows by label too knows the
//! operation of each, and hands it on where a row is to be found by its label; by the label alone all rows are looked at.
//!
//! | Call | Cost, with n rows |
//! |---|---|
//! | `insert`, `insert_beside`, `remove_row`, `before`, `last_up_to`, `after`, `beside`, `bad_after_insert`, `bad_without` | log n: one search at the most, and a way to each neighbour |
//! | `remove`, `bad_after_remove` | n log n: the operation of the row is looked for |
//! | `relabel` | n log n |
//!
//! The two insertions take memory, for what one insertion into a tree takes, and leave all as it was where there is none; no other call of an index takes any, so a
//! relabelling can be written last, once the two lists of labels and whatever else it needs are there.
//!
//! What the layer above may rely on: the definitions of specs/KeyRows.antt, specs/RowsBeside.antt and specs/Relabelled.antt, over plain lists.
//!
//! - `key_index`: the type and its calls. `labels`: the labels before and after a relabelling.
//! - `row`: what stands in the tree. `search`: how many rows stand up to a label on a key.
//! - `tree`: what the calls do to the tree. `rows_beside`: the rows beside an edit, and what they say.
#![tactic(auto)]

mod key_index;
mod labels;
mod row;
mod rows_beside;
mod search;
mod tree;

pub use key_index::{Bad, KeyIndex};
pub use labels::Labels2;
pub use rows_beside::RowsBeside;
