//! The evidence of an edit of a priority queue: one line that says what was edited, and what that changed.
//!
//! `edit NAME add|cut P #N OP bridge B|none gain|lose #J K`: at place P the row #N with this operation was put
//! in, or taken out, and by that the present gained or lost the entry #J with the key K. B is the bridge that
//! says which entry that is. An edit changes the present by one entry alone, so a line tells the whole change,
//! and whoever keeps the present can follow it without performing the rows again.
//!
//! The layers above may rely on one spelling for each evidence: a line reads exactly where it is the spelling of some
//! evidence, and then to that.
//!
//! - `Evidence` is what a line says.
//! - `read_evidence` and `print_evidence` are each other's inverse.
//! - `laws`: what is printed reads back, and two different lines are two different values.
//! - `evidence`: the type. `read`, `print`: the two calls, over `words` and `numbers`.
#![tactic(auto)]

mod evidence;
pub mod laws;
mod numbers;
mod print;
mod read;
mod words;

pub use evidence::Evidence;
pub use print::print_evidence;
pub use read::read_evidence;
