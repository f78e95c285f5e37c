//! The sum of signs and its least prefix, as a measure.

ghost use Rattle.std.specs.Prelude.{◌≡◌, ◌+◌, ℤ, neg_ℤ, List};
ghost use Rattle.monoid_laws.specs.Summed.{sum_of};
ghost use Rattle.monoid_laws.specs.Walk.{no_walk, one_step, joined_walk, end_of, lowest_of, walk_of, opposite_step, opposite_walk_of, IsSign, IsLeastPrefix, IsGreatestPrefix};
ghost use Rattle.monoid_laws.specs.WalkLaws.{walk_laws};

use monoids::Monoid;
use std::marker::Model;

/// The sum of signs and the least sum of a prefix, the empty one among them.
#[derive(Clone, Copy)]
pub struct LeastPrefix {
    items: u32,
    falls: u32,
    rises: u32,
}

impl Model for LeastPrefix {
    ghost use Rattle.monoid_laws.specs.Walk.{Walk, IsShort};

    ghost Value = { Walk };

    ghost view = { λ w. record { items = w.items; falls = w.falls; rises = w.rises } };

    ghost inverse = { λ v. record { items = v.items; falls = v.falls; rises = v.rises } };

    ghost invariant = { λ w. IsShort (record { items = w.items; falls = w.falls; rises = w.rises }) };
}

impl LeastPrefix {
    /// The value of one sign, which is -1, 0 or 1.
    pub fn single(sign: i8) -> LeastPrefix
        requires { IsSign sign }
        ensures { result ≡ one_step sign }
    {
        match sign {
            0 => LeastPrefix {
                items: 1,
                falls: 0,
                rises: 0,
            },
            1 => LeastPrefix {
                items: 1,
                falls: 0,
                rises: 1,
            },
            _ => LeastPrefix {
                items: 1,
                falls: 1,
                rises: 0,
            },
        }
    }

    /// The sum of the signs.
    pub fn sum(&self) -> i64
        ensures value { result ≡ end_of self.now }
        ensures list { (xs : List ℤ) → self.now ≡ walk_of xs → result ≡ sum_of xs }
    {
        self.rises as i64 - self.falls as i64
    }

    /// The least sum of a prefix.
    pub fn least(&self) -> i64
        ensures value { result ≡ lowest_of self.now }
        ensures list { (xs : List ℤ) → self.now ≡ walk_of xs → IsLeastPrefix xs result }
    {
        -(self.falls as i64)
    }
}

impl Monoid for LeastPrefix {
    ghost items_of = { λ a. a.items };

    ghost unit_value = { no_walk };

    ghost joined = { joined_walk };

    ghost laws = { walk_laws };

    fn unit() -> LeastPrefix {
        LeastPrefix {
            items: 0,
            falls: 0,
            rises: 0,
        }
    }

    fn items(&self) -> u32 {
        self.items
    }

    fn join(self, other: LeastPrefix) -> LeastPrefix {
        LeastPrefix {
            items: self.items + other.items,
            falls: self.falls + other.falls.saturating_sub(self.rises),
            rises: other.rises + self.rises.saturating_sub(other.falls),
        }
    }
}

/// The sum of signs and the greatest sum of a prefix, the empty one among them.
#[derive(Clone, Copy)]
pub struct GreatestPrefix {
    // Of the opposite signs, whose least prefix is this one's greatest.
    opposite: LeastPrefix,
}

impl Model for GreatestPrefix {
    ghost use Rattle.monoid_laws.specs.Walk.{Walk};

    ghost Value = { Walk };

    ghost view = { λ g. g.opposite };

    ghost inverse = { λ v. record { opposite = v } };
}

impl GreatestPrefix {
    /// The value of one sign, which is -1, 0 or 1.
    pub fn single(sign: i8) -> GreatestPrefix
        requires { IsSign sign }
        ensures { result ≡ opposite_step sign }
    {
        GreatestPrefix {
            opposite: LeastPrefix::single(-sign),
        }
    }

    /// The sum of the signs.
    pub fn sum(&self) -> i64
        ensures value { result ≡ neg_ℤ (end_of self.now) }
        ensures list { (xs : List ℤ) → self.now ≡ opposite_walk_of xs → result ≡ sum_of xs }
    {
        let opposite = &self.opposite;
        opposite.falls as i64 - opposite.rises as i64
    }

    /// The greatest sum of a prefix.
    pub fn greatest(&self) -> i64
        ensures value { result ≡ neg_ℤ (lowest_of self.now) }
        ensures list { (xs : List ℤ) → self.now ≡ opposite_walk_of xs → IsGreatestPrefix xs result }
    {
        let opposite = &self.opposite;
        opposite.falls as i64
    }
}

impl Monoid for GreatestPrefix {
    ghost items_of = { λ a. a.items };

    ghost unit_value = { no_walk };

    ghost joined = { joined_walk };

    ghost laws = { walk_laws };

    fn unit() -> GreatestPrefix {
        GreatestPrefix {
            opposite: LeastPrefix::unit(),
        }
    }

    fn items(&self) -> u32 {
        self.opposite.items()
    }

    fn join(self, other: GreatestPrefix) -> GreatestPrefix {
        GreatestPrefix {
            opposite: self.opposite.join(other.opposite),
        }
    }
}
