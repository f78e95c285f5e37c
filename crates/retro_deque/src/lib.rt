//! A deque whose past can be edited, and which answers at any place of it.
//!
//! An item has a position that never changes while it is there: the right end has grown over it, or the left
//! one. So it was written by the later of two rows, the last one before which the right end did not reach the
//! position, and the last one before which the left end did not. So it is the last row from which on the right end grew
//! by that item and those on its right, or the left end by it and those on its left: one search among prefix sums, however long
//! the history is (Demaine, Iacono and Langerman, "Retroactive Data Structures", section 5). specs/EndLaws.antt says why, over
//! lists of rows alone.
//!
//! `RetroDeque` is seen as its rows. It is a `RetroLine` of `prefix_trees` over the rows of a deque: so it implements `Partial`
//! and `Retro` of `retro_base`. For each binary digit of one more than the number of rows `ask_past` visits at most 36 nodes, and
//! each call of `Partial` that takes a counter at most 144, but for those that answer for a later structure; only `insert`, `copy` and the listings take memory.
//!
//! - `RetroDeque`.
//! - `deque`: the kind, and the type.
#![tactic(auto)]

mod deque;

pub use deque::RetroDeque;
