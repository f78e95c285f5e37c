//! Keys with values, ranges of keys, and what is found of one.

use monoid_laws::{Measured, Sum};
use std::marker::Model;

/// A key of a dictionary with its value.
#[derive(Clone, Copy, Debug, PartialEq, Eq, PartialOrd, Ord)]
pub struct KeyPair {
    pub key: i64,
    pub value: i64,
}

impl Model for KeyPair {
    ghost use Rattle.std.specs.Prelude.{ℤ};

    ghost Value = { ℤ × ℤ };

    ghost view = { λ pair. (pair.key, pair.value) };

    ghost inverse = { λ pair. record { key = pair.0; value = pair.1 } };
}

/// The keys from `low` to `high`, both included.
#[derive(Clone, Copy)]
pub struct KeyRange {
    pub low: i64,
    pub high: i64,
}

/// What is found of the pairs whose keys lie in a range.
#[derive(Clone, Copy, Debug, PartialEq)]
pub struct Found {
    pub count: u32,
    pub sum: i128,
    pub least: Option<KeyPair>,
    pub greatest: Option<KeyPair>,
}

/// Pairs stand in their order, so the least and the greatest of some that are neighbours are found by their places, and only
/// their sum is measured.
impl Measured for KeyPair {
    ghost use Rattle.std.specs.Prelude.{refl};
    ghost use Rattle.retro_dictionary.specs.PairMeasure.{one_pair};

    type Measure = Sum;

    ghost measured = { one_pair };

    ghost single = { λ pair. refl };

    fn measure(&self) -> Sum {
        Sum::single(self.value)
    }
}
