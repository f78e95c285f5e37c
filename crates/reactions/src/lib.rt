//! What each line of a script comes to.
//!
//! The definitions: a bench holds timelines by their names (`specs/Bench.antt`), a line of a script is answered, and leaves another
//! bench (`specs/Reaction.antt`), by what a command does to one timeline (`specs/TimelineEffects.antt`) and by the text of what comes
//! of it (`specs/Outcome.antt`). They stand on the definitions of histories alone, and on no structure. `specs/Answers.antt` says what
//! one line after another is answered. `specs/ReactionLaws.antt` has laws for the layers above, and `specs/RefusalLaws.antt` that a
//! line which is refused leaves the bench as it was.
//!
//! Beside them stands what meets them whatever holds the timelines: an `Outcome`, which is what a line comes to, with its text, and
//! `AnyBench`, the trait of what answers lines, by which a script is run. `timelines` does what a command asks for, and the `Bench` of
//! `workbench` meets the trait.
//!
//! - `outcome`: what a line is answered, and why one is refused. `evidence_lines`: the evidence of some edits. `position`: where a row
//!   stands. `any_bench`: the trait.
#![tactic(auto)]

mod any_bench;
mod evidence_lines;
mod outcome;
mod position;

pub use any_bench::AnyBench;
pub use evidence_lines::EvidenceLines;
pub use outcome::{Outcome, Refusal, tell_answer, tell_refusal};
pub use position::Position;

/// The most timelines of a bench.
pub const MAX_TIMELINES: usize = 8;
