//! A lifetime: what of it lies in a span, and what in its halves.
ghost use Rattle.std.specs.Prelude.{◌≡◌, ◌-◌, ◌<◌, ◌≤◌, ◌^◌, false, IfSome};
ghost use Rattle.lifetime_segments.specs.Lifetimes.{holds};
ghost use Rattle.lifetime_segments.specs.Tries.{Lies, ending, in_first, is_whole, in_second, seen_from};

use monoid_laws::{Count, Measured};

/// An item, and the labels at which it is there: those from `from` to before `to`.
#[derive(Clone, Copy)]
pub struct Lifetime<T> {
    pub from: u64,
    pub to: u64,
    pub item: T,
}

impl<T: Copy> Measured for Lifetime<T> {
    ghost use Rattle.std.specs.Prelude.{refl};

    type Measure = Count;

    ghost measured = { λ lifetime. 1 };

    ghost single = { λ lifetime. refl };

    fn measure(&self) -> Count {
        Count::single()
    }
}

/// How many labels a span of a level has.
pub(crate) fn labels(level: u32) -> u64
    requires { level ≤ 40 }
    ensures { result ≡ 2 ^ level }
{
    1 << level
}

impl<T: Copy> Lifetime<T> {
    /// Whether it holds all labels of a span of this level.
    pub(crate) fn is_whole(&self, level: u32) -> bool
        requires { level ≤ 40 }
        ensures { result ≡ is_whole level self.now }
    {
        self.from == 0 && labels(level) <= self.to
    }

    /// The lifetime that ends at another label.
    pub(crate) fn ending(&self, to: u64) -> Lifetime<T>
        ensures { result ≡ ending to self.now }
    {
        Lifetime { to, ..*self }
    }

    /// Whether it holds a label.
    pub(crate) fn holds(&self, label: u64) -> bool
        ensures { result ≡ holds label self.now }
    {
        self.from <= label && label < self.to
    }

    /// The lifetime seen from a label.
    pub(crate) fn seen_from(&self, label: u64) -> Lifetime<T>
        ensures { result ≡ seen_from label self.now }
    {
        Lifetime {
            from: self.from.saturating_sub(label),
            to: self.to.saturating_sub(label),
            item: self.item,
        }
    }

    /// What of it lies in the first half of a span that it does not hold whole.
    pub(crate) fn in_first(&self, level: u32) -> Option<Lifetime<T>>
        requires level { level ≤ 40 }
        requires lies { Lies level self.now }
        requires broken { is_whole level self.now ≡ false }
        ensures clipped { result ≡ in_first level self.now }
        ensures lies { IfSome result (Lies (level - 1)) }
        ensures deep { 0 < level }
    {
        let half = labels(level - 1);
        if self.from < half {
            Some(self.ending(self.to.min(half)))
        } else {
            None
        }
    }

    /// What of it lies in the second half, seen from where that half begins.
    pub(crate) fn in_second(&self, level: u32) -> Option<Lifetime<T>>
        requires level { level ≤ 40 }
        requires lies { Lies level self.now }
        requires broken { is_whole level self.now ≡ false }
        ensures clipped { result ≡ in_second level self.now }
        ensures lies { IfSome result (Lies (level - 1)) }
    {
        let half = labels(level - 1);
        if half < self.to {
            Some(self.seen_from(half))
        } else {
            None
        }
    }
}
