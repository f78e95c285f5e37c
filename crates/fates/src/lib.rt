//! What became of what a row put in: which later row took it out, or that it stays.
//!
//! `fate_of` walks the rows of a timeline once, with one search in the tree for each 64 of them, which it reads into a window on the stack. It keeps
//! a few numbers, so it takes no memory: how many items stand to the left and to the right of a line's own, the key of a pair, how many lesser
//! entries stand before an entry. A row takes an item where nothing is left on the side from which it takes, a pair where it is on its key, an entry
//! where no lesser one is left.
//!
//! The definition is `specs/Fates.antt` over `Holders.antt` of `retro_base`: the replay in which each row puts in its own number in
//! place of its value. It holds of rows of one kind that replay whole.
//!
//! - `laws`: how the number of entries that are at most a given one rises and falls along a replay.
//! - `fate`: `Fate` and `fate_of`. Inside: `standing` (where something stands among what is there).
#![tactic(auto)]

mod fate;
pub mod laws;
mod standing;

pub use fate::{Fate, fate_of};
