//! The laws by which ranges of items are measured, so that a balanced tree can keep what it measures.
//!
//! A `Monoid` says what a range of items amounts to. Two neighbouring ranges are joined without a look at their items, a range
//! of no items changes nothing, and it does not matter which of three neighbours are joined first. These laws are part of the
//! trait, and each implementation proves them, so that a tree which keeps one value a subtree answers for any range after a few
//! joins. What is `Measured` is an item of such a range. The measures themselves are those of `monoid_laws`.
//!
//! Where the value tells what is left of a range without some of its items, or what it is with more among them, it says so by
//! `without` and `with`, so that an item that goes or comes costs no look at the others.
//!
//! Each value knows how many items it was made of. That number fits 32 bits, and joining asks only that the two numbers together
//! still do. In the measures of `monoid_laws` it bounds the other fields, so that no sum wraps.
//!
//! Contracts say what a value means by the list that it was made of: `measure_of` of
//! specs/Measure.antt joins the values of a list's items. specs/MeasureLaws.antt has what the laws give of it, for the proofs of
//! the layer above.
//!
//! - `monoid`: the two traits.
#![tactic(auto)]

mod monoid;

pub use monoid::{Measured, Monoid};
