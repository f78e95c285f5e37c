//! A value of which ranges are counted alone.

ghost use Rattle.std.specs.Prelude.{◌≡◌};

use crate::Count;
use monoids::Measured;
use std::marker::Model;

/// A value of which a range measures its number of items alone. Contracts see it as the value.
#[derive(Clone, Copy)]
pub struct Counted<T> {
    value: T,
}

impl<T> Model for Counted<T> {
    ghost Value = { T };

    ghost view = { λ counted. counted.value };

    ghost inverse = { λ value. record { value = value } };
}

impl<T> Counted<T> {
    /// An item with this value.
    pub fn new(value: T) -> Counted<T>
        ensures { result ≡ value }
    {
        Counted { value }
    }
}

impl<T: Copy> Counted<T> {
    /// The value.
    pub fn value(self) -> T
        ensures { result ≡ self }
    {
        self.value
    }
}

impl<T: Copy> Measured for Counted<T> {
    ghost use Rattle.std.specs.Prelude.{refl};

    type Measure = Count;

    ghost measured = { λ item. 1 };

    ghost single = { λ item. refl };

    fn measure(&self) -> Count {
        Count::single()
    }
}
