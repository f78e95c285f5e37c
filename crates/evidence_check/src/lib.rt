//! An independent check of the evidence of priority queues, line by line.
//!
//! Whoever has the lines of `evidence` that a history has answered can check the whole of it here, without the
//! engine and without any structure: a line is accepted exactly where it tells the truth after the lines that
//! were accepted before it, and else the first cause against it is reported. The definition is `specs/Truth.antt` for
//! one timeline and `specs/Judgement.antt` for all of them.
//!
//! For each timeline the rows are kept with a mark for each entry that survives. The marks are weights: a dead entry
//! counts 1, a row that takes counts -1, and a place is a bridge where the rows before it add up to 0 (Demaine, Iacono
//! and Langerman, "Retroactive Data Structures", section 5.5). After all rows they do too.
//!
//! The rows lie in vectors of vectors: a row is a part, and a pack of up to 32 parts is a part. A pack knows the sums of
//! its rows: how many there are, their weights added up, the least of the sums of its first rows, the greatest dead
//! entry and the least one that survives. A line reads the sums of the parts and opens only those in question, and replays
//! nothing. Packs are divided and never merged: where most rows were taken out again, a line reads more parts than its rows need. Contracts see a part as the list of its rows.
//!
//! - `checker`: `Checker` takes the lines. `error`: `CheckError` says why one is refused. `laws`: evidence is accepted exactly where it is true.
//! - `reported`: what was reported of one timeline. `causes`, `changes`: why a line is refused, by the rows before it.
//! - `edits`: an accepted line, made in the rows and in their `numbers`.
//! - `rows`: the rows of a timeline, and the bridges among them. `weighed_row`: one of them.
//! - `part`: what a part answers. `one_row`, `pack`: a row as a part, and a pack. `sums`, `better`: what a pack knows.
//! - `search`, `splice`: what is looked for in parts that follow one another, and edits of them.
#![tactic(auto)]

mod better;
mod causes;
mod changes;
mod checker;
mod edits;
mod error;
pub mod laws;
mod numbers;
mod one_row;
mod pack;
mod part;
mod reported;
mod rows;
mod search;
mod splice;
mod sums;
mod weighed_row;

pub use checker::Checker;
pub use error::CheckError;
