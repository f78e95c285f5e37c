//! The traits of a measure and of what is measured.

ghost use Rattle.std.specs.Prelude.{◌≡◌, ℕ, ◌+◌, ◌^◌, ◌<◌, IfSome};
ghost use Rattle.monoids.specs.Laws.{MonoidLaws};

/// A value that a range of items makes, so that neighbouring ranges can be joined.
pub trait Monoid: Copy {
    /// How many items the value was made of.
    ghost items_of: { Self → ℕ };

    /// The value of no items.
    ghost unit_value: { Self };

    /// The value of one range followed by another.
    ghost joined: { Self → Self → Self };

    /// The value of no items.
    fn unit() -> Self
        ensures { result ≡ unit_value };

    /// How many items the value was made of.
    fn items(&self) -> u32
        ensures { result ≡ items_of self.now };

    /// The value of the items of `self` followed by those of `other`.
    fn join(self, other: Self) -> Self
        requires { items_of self + items_of other < 2 ^ 32 }
        ensures { result ≡ joined self other };

    /// The value of a range among whose items those of `part` come in, wherever that is, where the two tell it.
    fn with(self, part: Self) -> Option<Self>
        requires { items_of self + items_of part < 2 ^ 32 }
        ensures { (before after : Self) → self ≡ joined before after → IfSome result (λ all. all ≡ joined (joined before part) after) }
    {
        None
    }

    /// The value of what is left of a range from among whose items those of `part` are taken out, where the two tell it.
    fn without(self, part: Self) -> Option<Self>
        ensures rest { (before after : Self) → self ≡ joined (joined before part) after → IfSome result (λ rest. rest ≡ joined before after) }
        ensures items { IfSome result (λ rest. items_of rest + items_of part ≡ items_of self) }
    {
        None
    }

    /// The unit has no items, a join adds them, and both are a monoid.
    ghost laws: { MonoidLaws items_of unit_value joined };
}

/// An item that a monoid measures.
pub trait Measured: Copy {
    /// What ranges of items make.
    type Measure: Monoid;

    /// The value of the item alone.
    ghost measured: { Self → Self.Measure };

    /// The value of the item alone.
    fn measure(&self) -> Self::Measure
        ensures { result ≡ measured self.now };

    /// It is made of one item.
    ghost single: { (item : Self) → Self.Measure.items_of (measured item) ≡ 1 };
}
