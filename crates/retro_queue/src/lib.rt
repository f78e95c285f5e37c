//! A queue whose past can be edited, and which answers at any place of it.
//!
//! Rows take items in the order in which rows put them in. So with d rows that take before a place, the front
//! there is the item of the row that puts in number d, from 0, and the item at index i that of number d + i. It is
//! the last row from which on as many were put in as lie from that item to the back: one search among prefix sums,
//! however long the history is (Demaine, Iacono and Langerman, "Retroactive Data Structures", section 5).
//! specs/FrontLaws.antt says why, over lists of rows alone.
//!
//! `RetroQueue` is seen as its rows. It is a `RetroLine` of `prefix_trees` over the rows of a queue: so it implements `Partial`
//! and `Retro` of `retro_base`. For each binary digit of one more than the number of rows `ask_past` visits at most 36 nodes, and
//! each call of `Partial` that takes a counter at most 144, but for those that answer for a later structure; only `insert`, `copy` and the listings take memory.
//!
//! - `RetroQueue`.
//! - `queue`: the kind, and the type.
#![tactic(auto)]

mod queue;

pub use queue::RetroQueue;
