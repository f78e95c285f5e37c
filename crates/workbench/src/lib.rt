//! The workbench: the bench of `timelines` over the structures of `engine`.
//!
//! `Bench::line` does what a line asks for and gives the lines that answer it in a `Reply`, and `Bench::end` does so at the end of the
//! input; `line_into` and `end_into`, calls of `AnyBench` of `reactions`, write these lines into a text of the caller. What they do is
//! said by specs/Reaction.antt of `reactions`, and proved in `timelines` over any structures. This is the one place where a bench meets
//! the structures that the program has.
//!
//! - `bench`: the type.
#![tactic(auto)]

mod bench;

pub use bench::Bench;
pub use reactions::MAX_TIMELINES;
pub use timelines::Reply;
