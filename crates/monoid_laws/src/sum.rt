//! The exact sum, as a measure.

ghost use Rattle.std.specs.Prelude.{◌≡◌, ◌+◌, ℤ, List};
ghost use Rattle.monoid_laws.specs.Summed.{Summed, no_sum, one_sum, joined_sum, sum_of};
ghost use Rattle.monoid_laws.specs.SummedLaws.{sum_laws};
ghost use Rattle.monoids.specs.Measure.{measure_of};

use monoids::Monoid;
use std::marker::Model;

/// The exact sum of the items' numbers.
#[derive(Clone, Copy)]
pub struct Sum {
    items: u32,
    sum: i128,
}

impl Model for Sum {
    ghost use Rattle.monoid_laws.specs.Summed.{Summed, IsBounded};

    ghost Value = { Summed };

    ghost view = { λ s. record { items = s.items; sum = s.sum } };

    ghost inverse = { λ v. record { items = v.items; sum = v.sum } };

    ghost invariant = { λ s. IsBounded (record { items = s.items; sum = s.sum }) };
}

impl Sum {
    /// The value of one item.
    pub fn single(value: i64) -> Sum
        ensures { result ≡ one_sum value }
    {
        Sum {
            items: 1,
            sum: value as i128,
        }
    }

    /// The sum of the items' numbers.
    pub fn sum(&self) -> i128
        ensures value { result ≡ self.now.sum }
        ensures list { (xs : List ℤ) → self.now ≡ measure_of no_sum joined_sum one_sum xs → result ≡ sum_of xs }
    {
        self.sum
    }
}

impl Monoid for Sum {
    ghost items_of = { λ a. a.items };

    ghost unit_value = { no_sum };

    ghost joined = { joined_sum };

    ghost laws = { sum_laws };

    fn unit() -> Sum {
        Sum { items: 0, sum: 0 }
    }

    fn items(&self) -> u32 {
        self.items
    }

    fn join(self, other: Sum) -> Sum {
        Sum {
            items: self.items + other.items,
            sum: self.sum + other.sum,
        }
    }

    fn with(self, part: Sum) -> Option<Sum> {
        Some(self.join(part))
    }

    fn without(self, part: Sum) -> Option<Sum> {
        if self.items < part.items {
            return None;
        }
        let items = self.items - part.items;
        let sum = self.sum - part.sum;
        if sum.unsigned_abs() > u128::from(items) << 63 {
            return None;
        }
        Some(Sum { items, sum })
    }
}
