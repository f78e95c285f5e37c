//! Tests of the words, the rows and the streams. They see only what is public, and stand apart so that no crate is proved once more for
//! its tests.
//!
//! `streams`, `std_streams` and `outboxes` of `retro_io`. The plain list of `retro_base` is tested beside the structures
//! (`structure_tests`), and its numbers and texts by scripts.
#![tactic(auto)]

#[cfg(test)]
mod outboxes;
#[cfg(test)]
mod std_streams;
#[cfg(test)]
mod streams;
