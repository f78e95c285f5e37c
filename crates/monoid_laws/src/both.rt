//! Two measures of the same items, side by side.

ghost use Rattle.std.specs.Prelude.{◌≡◌, ⊤, List};
ghost use Rattle.monoid_laws.specs.Both.{joined_both, both_of};
ghost use Rattle.monoid_laws.specs.BothLaws.{both_laws};
ghost use Rattle.monoids.specs.Measure.{measure_of};

use monoids::Monoid;
use std::alloc::AllocError;
use std::marker::Model;

/// Two values of the same items, side by side.
#[derive(Copy)]
pub struct Both<A: Monoid, B: Monoid> {
    first: A,
    second: B,
}

impl<A: Monoid, B: Monoid> Model for Both<A, B> {
    ghost use Rattle.std.specs.Prelude.{◌≡◌};

    ghost Value = { A × B };

    ghost view = { λ b. (b.first, b.second) };

    ghost inverse = { λ p. record { first = p.0; second = p.1 } };

    ghost invariant = { λ b. A.items_of b.first ≡ B.items_of b.second };
}

impl<A: Monoid, B: Monoid> Clone for Both<A, B> {
    ghost is_clone = { λ value copy. copy ≡ value };

    ghost is_infallible = { λ _. ⊤ };

    fn clone(&self) -> Result<Both<A, B>, AllocError> {
        Ok(*self)
    }
}

impl<A: Monoid, B: Monoid> Both<A, B> {
    /// The value of one item that both parts are made of.
    pub fn single(first: A, second: B) -> Both<A, B>
        requires first { A.items_of first ≡ 1 }
        requires second { B.items_of second ≡ 1 }
        ensures { result ≡ (first, second) }
    {
        Both { first, second }
    }

    /// The first part.
    pub fn first(&self) -> A
        ensures value { result ≡ self.now.0 }
        ensures list { (pairs : List (A × B)) → self.now ≡ both_of A.unit_value B.unit_value A.joined B.joined pairs → result ≡ measure_of A.unit_value A.joined (λ p. p.0) pairs }
    {
        self.first
    }

    /// The second part.
    pub fn second(&self) -> B
        ensures value { result ≡ self.now.1 }
        ensures list { (pairs : List (A × B)) → self.now ≡ both_of A.unit_value B.unit_value A.joined B.joined pairs → result ≡ measure_of B.unit_value B.joined (λ p. p.1) pairs }
    {
        self.second
    }
}

impl<A: Monoid, B: Monoid> Monoid for Both<A, B> {
    ghost items_of = { λ p. A.items_of p.0 };

    ghost unit_value = { (A.unit_value, B.unit_value) };

    ghost joined = { joined_both A.joined B.joined };

    ghost laws = { both_laws A.laws B.laws };

    fn unit() -> Both<A, B> {
        Both {
            first: A::unit(),
            second: B::unit(),
        }
    }

    fn items(&self) -> u32 {
        self.first.items()
    }

    fn join(self, other: Both<A, B>) -> Both<A, B> {
        Both {
            first: self.first.join(other.first),
            second: self.second.join(other.second),
        }
    }
}
