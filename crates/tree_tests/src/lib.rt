//! Tests of the trees and of what keeps its order by them. They see only what is public, and stand apart so that a
//! change of a test proves none of the crates anew.
//!
//! One file for each crate: `measures` of `monoid_laws`, `weighted` of `weighted_tree`, `prefixes` of `prefix_trees`, `labels` of
//! `order_labels`, `timelines` of `order_timeline`, `keys` of `key_index`. Lifetimes are tested beside the dictionary, and the rows
//! of lines of items beside queue, stack and deque (`structure_tests`).
#![tactic(auto)]

#[cfg(test)]
mod keys;
#[cfg(test)]
mod labels;
#[cfg(test)]
mod measures;
#[cfg(test)]
mod prefixes;
#[cfg(test)]
mod timelines;
#[cfg(test)]
mod weighted;
