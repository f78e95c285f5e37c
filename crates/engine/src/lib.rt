//! One structure for each kind, after one type.
//!
//! An `Engine` is made for a kind and stays of it. It implements `Retro` of `retro_base`: its rows are those
//! of the structure inside, which its variant names, and each answer is the replay of these rows. By
//! `AnyStructure` the timelines of a script are made of it.
//!
//! Queue, stack, deque and dictionary are kept in trees of their own, in which an edit and a question about any place
//! visit a few nodes. A priority queue by bridges answers of the present alone; it gets its past by checkpoints, which the
//! first question about the past makes. `Engine::fused` makes one whose past is one product instead: it keeps no checkpoints,
//! and an edit takes longer until the past is asked.
//!
//! - `Engine`, with `ask_past` for a caller who counts what a question about the past visits.
//! - `engine`: the type and its calls.
#![tactic(auto)]

mod engine;

pub use engine::Engine;
