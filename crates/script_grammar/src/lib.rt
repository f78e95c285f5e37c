//! The script language: what a line asks for, and how an answer is written.
//!
//! A line is cut into words at its spaces, and its words are read from left to right: the first words
//! say which form it is, and what is left is handed to the reader of the operation or the question.
//! Each byte is looked at once or nearly so, and reading takes no memory. A reader agrees with a definition of
//! `specs/` that has one case for each form, so that a further form is one more case in both.
//!
//! - `read_line` gives the command of a line, or says why it has none.
//! - `read_row`, `is_end` and `is_passed_over` read the lines within a block.
//! - `kind_of_word` and `read_natural_up_to` read single words.
//! - `print_answer` and `print_listing` append the text of an answer.
//! - `line`: the command of a line, by its form: `header`, `ask` with `query`, `correction`; `spot`, `operation` with `operands`, and
//!   `numbers` within these. `words`: a line, cut into words. `command`: what comes of it. `block_lines`: the lines within a block.
//! - `answer`, `listing`: how these are spelled.
#![tactic(auto)]

mod answer;
mod ask;
mod block_lines;
mod command;
mod correction;
mod header;
mod line;
mod listing;
mod numbers;
mod operands;
mod operation;
mod query;
mod spot;
mod words;

pub use answer::print_answer;
pub use block_lines::{is_end, is_passed_over, read_row};
pub use command::{Command, LineError, Moment, Query, Spot};
pub use line::{kind_of_word, read_line};
pub use listing::print_listing;
pub use numbers::read_natural_up_to;
pub use retro_base::print_op;
