//! A sign with a mark, as it is measured.

ghost use Rattle.std.specs.Prelude.{◌≡◌};
ghost use Rattle.monoid_laws.specs.Walk.{IsSign};

use monoid_laws::{Both, LeastPrefix, Measured};
use std::marker::Model;

/// What a range of signs measures: the walk of the signs, and that of their marks.
pub(crate) type Walks = Both<LeastPrefix, LeastPrefix>;

/// A sign with a mark.
#[derive(Clone, Copy)]
pub(crate) struct Signed {
    pub(crate) sign: i8,
    pub(crate) marked: bool,
}

impl Model for Signed {
    ghost use Rattle.std.specs.Prelude.{ℤ, Bool};
    ghost use Rattle.monoid_laws.specs.Walk.{IsSign};

    ghost Value = { ℤ × Bool };

    ghost view = { λ s. (s.sign, s.marked) };

    ghost inverse = { λ v. record { sign = v.0; marked = v.1 } };

    ghost invariant = { λ s. IsSign s.sign };
}

impl Signed {
    /// The sign, which is -1, 0 or 1, with the mark.
    pub(crate) fn new(sign: i8, marked: bool) -> Signed
        requires { IsSign sign }
        ensures { result ≡ (sign, marked) }
    {
        Signed { sign, marked }
    }

    /// The sign and the mark.
    pub(crate) fn parts(self) -> (i8, bool)
        ensures { result ≡ self }
    {
        (self.sign, self.marked)
    }
}

impl Measured for Signed {
    ghost use Rattle.prefix_trees.specs.SignWalks.{one_walk, one_walk-items};

    type Measure = Walks;

    ghost measured = { one_walk };

    ghost single = { one_walk-items };

    fn measure(&self) -> Walks {
        let mark = if self.marked { 1 } else { 0 };
        Both::single(LeastPrefix::single(self.sign), LeastPrefix::single(mark))
    }
}
