//! The number of items, as a measure.

ghost use Rattle.std.specs.Prelude.{◌≡◌, ◌+◌};
ghost use Rattle.monoid_laws.specs.CountLaws.{count_laws};

use monoids::Monoid;
use std::marker::Model;

/// The number of the items alone.
#[derive(Clone, Copy)]
pub struct Count {
    items: u32,
}

impl Model for Count {
    ghost use Rattle.std.specs.Prelude.{ℕ};

    ghost Value = { ℕ };

    ghost view = { λ c. c.items };

    ghost inverse = { λ n. record { items = n } };
}

impl Count {
    /// The value of one item.
    pub fn single() -> Count
        ensures { result ≡ 1 }
    {
        Count { items: 1 }
    }
}

impl Monoid for Count {
    ghost items_of = { λ n. n };

    ghost unit_value = { 0 };

    ghost joined = { λ m n. m + n };

    ghost laws = { count_laws };

    fn unit() -> Count {
        Count { items: 0 }
    }

    fn items(&self) -> u32 {
        self.items
    }

    fn join(self, other: Count) -> Count {
        Count {
            items: self.items + other.items,
        }
    }

    fn with(self, part: Count) -> Option<Count> {
        Some(self.join(part))
    }

    fn without(self, part: Count) -> Option<Count> {
        if self.items < part.items {
            return None;
        }
        Some(Count {
            items: self.items - part.items,
        })
    }
}
