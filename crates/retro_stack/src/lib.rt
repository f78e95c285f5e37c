//! A stack whose past can be edited, and which answers at any place of it.
//!
//! The item that lies on d others came when the stack had d items, and has stayed since. So the item at index i from
//! the top is that of the last row before the place from which on the stack grew by i + 1 items: one search among prefix
//! sums, however long the history is (Demaine, Iacono and Langerman, "Retroactive Data Structures", section 5).
//! specs/TopLaws.antt says why, over lists of rows alone.
//!
//! `RetroStack` is seen as its rows. It is a `RetroLine` of `prefix_trees` over the rows of a stack: so it implements `Partial`
//! and `Retro` of `retro_base`. For each binary digit of one more than the number of rows `ask_past` visits at most 36 nodes, and
//! each call of `Partial` that takes a counter at most 144, but for those that answer for a later structure; only `insert`, `copy` and the listings take memory.
//!
//! - `RetroStack`.
//! - `stack`: the kind, and the type.
#![tactic(auto)]

mod stack;

pub use stack::RetroStack;
