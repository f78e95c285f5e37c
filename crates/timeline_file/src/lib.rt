//! A whole timeline as text: the lines of a block.
//!
//! A block is a header line, one line for each row, and `end`. The reader takes one line after another and
//! judges each row by what stands before it: by the state so far and by the set of the numbers seen, so that
//! a good row costs as little as performing it. The first row line that is bad decides what the block comes to.
//!
//! - `BlockReader` is the definition of `specs/Block.antt`. What a block comes to: `BlockError`, `RowCause`.
//! - `print_block` appends the one saved spelling of a timeline, `specs/Saved.antt`.
//! - `laws`: what is saved reads back.
//! - `block`: a block is read. `print`: a timeline is saved.
#![tactic(auto)]

mod block;
pub mod laws;
mod print;

pub use block::{BlockError, BlockReader, RowCause};
pub use print::print_block;
