//! Measures of ranges of items: how many they are, their sum, the least sum of a prefix, their greatest element.
//!
//! Each is a `Monoid` of `monoids`, over which a balanced tree can be built, and proves its laws. Numbers and sums tell too what
//! they are `without` some items, and `with` more.
//!
//! | Type | What a range amounts to |
//! |---|---|
//! | `Count` | the number of its items |
//! | `Sum` | the exact sum of 64-bit numbers |
//! | `LeastPrefix`, `GreatestPrefix` | the sum of signs, and the least or the greatest sum of a prefix |
//! | `Greatest`, `Least` | the first of the greatest or the least elements that are there, and its offset |
//! | `Both` | two values side by side |
//!
//! A `Counted` makes an item of any value that is to be found by its place alone: ranges of them measure a `Count`.
//!
//! Each reader says what it answers of the list that a value was made of (`measure_of` of `monoids`). The laws of these
//! readings stand in specs/, for the proofs of the layers above: specs/PrefixSumLaws.antt and specs/SuffixSumLaws.antt among them.
//!
//! - `count`, `sum`, `prefix`, `extreme`, `both`: the measures. `counted`: an item that is counted alone.
#![tactic(auto)]

mod both;
mod count;
mod counted;
mod extreme;
mod prefix;
mod sum;

pub use both::Both;
pub use count::Count;
pub use counted::Counted;
pub use extreme::{Greatest, Least};
pub use monoids::{Measured, Monoid};
pub use prefix::{GreatestPrefix, LeastPrefix};
pub use sum::Sum;
