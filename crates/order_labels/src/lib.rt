//! Labels that tell which of two rows comes first, at the cost of a comparison.
//!
//! [`Labels`] is a list of numbers that rise strictly, one for each row, so that what is kept of a row by its label
//! stays in order wherever rows are put in between. A new row takes the middle of the labels beside it, and where no
//! number lies between these all rows are relabelled: order maintenance by labels of a fixed width (Dietz 1982; Bender,
//! Cole, Demaine, Farach-Colton and Zito 2002), with the simplest rule of all. It is enough here, since a spread of few
//! rows over many numbers can be halved often before it is used up: at least 22 insertions lie between two relabellings.
//!
//! | Call | Cost, with n rows |
//! |---|---|
//! | `len` | constant |
//! | `label_at`, `beside`, `place_of_label`, `insert_labelled`, `remove` | log n |
//! | `insert` | log n, and n log n where it relabels |
//!
//! Where something is kept by label, `insert` says whether the other labels have changed, and `gap_of` what they will be
//! if they do: so all else can be made ready before. A caller with a rule of its own for where rows will come in gives a
//! label itself by `insert_labelled`: `beside` reads the four labels next to its place at once, and `greatest_power` makes
//! it a round number. Each of the two insertions takes memory for one row, `insert` also where it relabels, and leaves all
//! as it was where there is none; no other call takes any.
//!
//! What the layer above may rely on: the rule of specs/Labels.antt, which says what the labels are after every insertion;
//! specs/LabelsBeside.antt, which labels stand beside a place; specs/LabelLaws.antt, which says of a rule that many insertions
//! lie between two relabellings; the law that it is so of the middle, and specs/RareLaws.antt for whoever proves it of
//! another rule; specs/CountLaws.antt for a search of any tree whose items never fall in some number, as rows do in their
//! time.
//!
//! - `labels`: the type and its calls. `labels_beside`: the labels beside a place. `spread`: how all rows are relabelled. `laws`: how
//!   far, and how often.
#![tactic(auto)]

mod labels;
mod labels_beside;
pub mod laws;
mod spread;

pub use labels::{Fresh, Labels};
pub use labels_beside::LabelsBeside;
pub use spread::{gap_of, greatest_power};
