//! The timelines that a script has made, what becomes of a command, and the bench, which does line after line.
//!
//! A line is one event: it is read, and done whole or refused whole, unless memory runs out, by the timeline that it is about, or it
//! belongs to the block that is being read.
//!
//! A command is tested in a fixed order, and done whole or refused whole. A timeline keeps its rows with their times and numbers,
//! beside the structure that performs them; the structure judges each edit before anything is changed. Which structures these are
//! is left open: they are those of any type that meets `AnyStructure` of `retro_base`.
//!
//! - `Bench::line` does what a line asks for and gives the lines that answer it, by `specs/Reaction.antt` of `reactions`; `Bench::end` does
//!   so at the end of the input. `line_into` and `end_into`, calls of `AnyBench` of `reactions`, write these lines into a text of the
//!   caller, who may use it again for the next one.
//! - `bench`: the bench and its calls. `timelines`, `named_timeline`: all timelines, and one of them, which obey a command. `commands`,
//!   `edits`, `questions`: what can be done to one. `open_block`: the block that is read; `loading`: the timeline that its rows become.
//!   `position`: where a spot is. `reported`: what an edit reports.
#![tactic(auto)]

mod bench;
mod commands;
mod edits;
mod loading;
mod named_timeline;
mod open_block;
mod position;
mod questions;
mod reported;
mod timelines;

pub use bench::{Bench, Reply};
