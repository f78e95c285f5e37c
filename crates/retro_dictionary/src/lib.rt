//! A dictionary at every moment of its history.
//!
//! A pair of a key and its value is there from the row that puts it to the next row on its key: that is its lifetime,
//! from one label to before another (`order_labels`). So the pairs whose lifetimes hold the label of a row are what the
//! dictionary holds after it, and a question about the past is a search of them: decomposable search over lifetimes, as
//! in Demaine, Iacono and Langerman, "Retroactive Data Structures", section 4. An edit ends or lengthens one lifetime and
//! begins or takes one, however long the history is.
//!
//! [`RetroDictionary`] is seen as its rows, and implements `Retro` of `retro_base`. It keeps them by place, with a label for
//! each, an index of them by key, which knows the row that fails first and the rows beside an edit on its key, and the
//! lifetimes of all pairs. `PairSearch` is the search, as `lifetime_segments` asks for it: how many pairs have keys in a range,
//! their sum, and the least and the greatest of them. It answers every question of a dictionary; what a key has is told sooner by the
//! last row on it, which is one search of the index.
//!
//! | Call | Cost, with n rows |
//! |---|---|
//! | `failure_after_insert`, `failure_after_remove` | log n: one search of the rows by key |
//! | `insert`, `remove` | one search of the rows by key, or two in a removal; for each of at most three lifetimes log² n in each of at most 80 spans, and as much for each of 255 lifetimes where a span is divided |
//! | `insert`, where no label is left | as much for each row; at least 22 insertions lie between two of these |
//! | `ask`, `ask_now` | of what a key has, log n: one search of the rows by key; else log n in each of at most 41 spans, and a look at those of at most 255 lifetimes whose keys are in the range |
//! | `all` | a walk through at most 41 spans, and a sort of the k pairs that it gives: k log k |
//!
//! `insert`, `remove` and `all` take memory; where there is none, all is as before.
//!
//! What the layer above may rely on is `Retro`. Why it holds is reported by specs/Lifetimes.antt, which lifetimes rows have;
//! specs/Asked.antt, which range of keys answers a question, and what a key has; specs/LabelledRows.antt, what is kept of rows; the laws over them
//! in specs/DictionaryLaws.antt; specs/RowLabels.antt, which label a row gets; and specs/RelabellingLaw.antt, how rarely all rows
//! get new ones. Rows that come in one after another, at the end or at one place, mostly find a label: each leaves most of the
//! gap there for those that follow.
//!
//! - `dictionary`: the type and its calls. `edit`: rows put in and taken out; `free_label`, the label of a new row, by `recent`, and
//!   `relabel`, where none is left; `lifetimes`, what becomes of two lifetimes. `failing`: the place of the row that fails first.
//! - `asked`: questions, by what is found of a range of keys, and of one key by the index. `listed`: the whole content.
//! - `pairs`: `KeyPair`, `KeyRange`, `Found`. `search`: `PairSearch`. `labelled_rows`: what is kept of the rows.
//! - `laws`: what lifetimes tell of a dictionary, how an edit changes them, and how rarely rows are relabelled.
#![tactic(auto)]

mod asked;
mod dictionary;
mod edit;
mod failing;
mod free_label;
mod labelled_rows;
pub mod laws;
mod lifetimes;
mod listed;
mod pairs;
mod recent;
mod relabel;
mod search;

pub use dictionary::RetroDictionary;
pub use pairs::{Found, KeyPair, KeyRange};
pub use search::PairSearch;
