//! The greatest or least element of a range, with where it stands.

ghost use Rattle.std.specs.Prelude.{◌≡◌, ◌+◌, ◌^◌, ◌<◌, Option, List};
ghost use Rattle.std.specs.Option.{option_map};
ghost use Rattle.std.specs.Ordering.{flip_args};
ghost use Rattle.monoid_laws.specs.Extreme.{no_extreme, one_element, at_start, moved, first_greatest, joined_extreme, extreme_of, IsOffsetWithin, IsGreatestElement, IsGreatestOffset};
ghost use Rattle.monoid_laws.specs.ExtremeLaws.{extreme_laws, least_laws};

use monoids::Monoid;
use std::cmp::Ordering;
use std::marker::Model;

/// The greatest of the elements that are there, with its offset among the items, or none; of equal
/// elements the first.
#[derive(Clone, Copy)]
pub struct Greatest<E> {
    items: u32,
    first: Option<(E, u32)>,
}

impl<E> Model for Greatest<E> {
    ghost use Rattle.monoid_laws.specs.Extreme.{Extreme, IsOffsetWithin};

    ghost Value = { Extreme E };

    ghost view = { λ g. record { items = g.items; first = g.first } };

    ghost inverse = { λ v. record { items = v.items; first = v.first } };

    ghost invariant = { λ g. IsOffsetWithin g.items g.first };
}

impl<E: Ord + Copy> Greatest<E> {
    /// The value of one item, which may have an element.
    pub fn single(element: Option<E>) -> Greatest<E>
        ensures { result ≡ one_element element }
    {
        Greatest {
            items: 1,
            first: from_start(element),
        }
    }

    /// The greatest element.
    pub fn element(&self) -> Option<E>
        ensures value { result ≡ option_map (λ p. p.0) self.now.first }
        ensures list { (items : List (Option E)) → self.now ≡ extreme_of E.cmp items → IsGreatestElement E.cmp items result }
    {
        self.first.map(|p| p.0)
    }

    /// How many items stand before the greatest element.
    pub fn offset(&self) -> Option<u32>
        ensures value { result ≡ option_map (λ p. p.1) self.now.first }
        ensures list { (items : List (Option E)) → self.now ≡ extreme_of E.cmp items → IsGreatestOffset E.cmp items result }
    {
        self.first.map(|p| p.1)
    }
}

impl<E: Ord + Copy> Monoid for Greatest<E> {
    ghost items_of = { λ a. a.items };

    ghost unit_value = { no_extreme };

    ghost joined = { joined_extreme E.cmp };

    ghost laws = { extreme_laws E.Ord.total };

    fn unit() -> Greatest<E> {
        Greatest {
            items: 0,
            first: None,
        }
    }

    fn items(&self) -> u32 {
        self.items
    }

    fn join(self, other: Greatest<E>) -> Greatest<E> {
        let later = further_on(self.items, other.items, other.first);
        Greatest {
            items: self.items + other.items,
            first: greater(self.first, later),
        }
    }
}

/// The least of the elements that are there, with its offset among the items, or none; of equal
/// elements the first.
#[derive(Clone, Copy)]
pub struct Least<E> {
    items: u32,
    first: Option<(E, u32)>,
}

// Clauses see the greatest in the order turned round.
impl<E> Model for Least<E> {
    ghost use Rattle.monoid_laws.specs.Extreme.{Extreme, IsOffsetWithin};

    ghost Value = { Extreme E };

    ghost view = { λ g. record { items = g.items; first = g.first } };

    ghost inverse = { λ v. record { items = v.items; first = v.first } };

    ghost invariant = { λ g. IsOffsetWithin g.items g.first };
}

impl<E: Ord + Copy> Least<E> {
    /// The value of one item, which may have an element.
    pub fn single(element: Option<E>) -> Least<E>
        ensures { result ≡ one_element element }
    {
        Least {
            items: 1,
            first: from_start(element),
        }
    }

    /// The least element.
    pub fn element(&self) -> Option<E>
        ensures value { result ≡ option_map (λ p. p.0) self.now.first }
        ensures list { (items : List (Option E)) → self.now ≡ extreme_of (flip_args E.cmp) items → IsGreatestElement (flip_args E.cmp) items result }
    {
        self.first.map(|p| p.0)
    }

    /// How many items stand before the least element.
    pub fn offset(&self) -> Option<u32>
        ensures value { result ≡ option_map (λ p. p.1) self.now.first }
        ensures list { (items : List (Option E)) → self.now ≡ extreme_of (flip_args E.cmp) items → IsGreatestOffset (flip_args E.cmp) items result }
    {
        self.first.map(|p| p.1)
    }
}

impl<E: Ord + Copy> Monoid for Least<E> {
    ghost items_of = { λ a. a.items };

    ghost unit_value = { no_extreme };

    ghost joined = { joined_extreme (flip_args E.cmp) };

    ghost laws = { least_laws E.Ord.total };

    fn unit() -> Least<E> {
        Least {
            items: 0,
            first: None,
        }
    }

    fn items(&self) -> u32 {
        self.items
    }

    fn join(self, other: Least<E>) -> Least<E> {
        let later = further_on(self.items, other.items, other.first);
        Least {
            items: self.items + other.items,
            first: lesser(self.first, later),
        }
    }
}

/// An element at the start.
fn from_start<E: Copy>(element: Option<E>) -> Option<(E, u32)>
    ensures { result ≡ at_start element }
{
    match element {
        Some(element) => Some((element, 0)),
        None => None,
    }
}

/// A place among `items` items, seen from `before` items further back.
fn further_on<E: Copy>(before: u32, items: u32, first: Option<(E, u32)>) -> Option<(E, u32)>
    requires within { IsOffsetWithin items first }
    requires fits { before + items < 2 ^ 32 }
    ensures moved { result ≡ moved before first }
    ensures within { IsOffsetWithin (before + items) result }
{
    match first {
        Some((element, offset)) => Some((element, before + offset)),
        None => None,
    }
}

/// The greater of an earlier and a later element, the earlier of equal ones.
fn greater<E: Ord + Copy>(earlier: Option<(E, u32)>, later: Option<(E, u32)>) -> Option<(E, u32)>
    ensures { result ≡ first_greatest E.cmp earlier later }
{
    match (earlier, later) {
        (Some(a), Some(b)) => match a.0.cmp(&b.0) {
            Ordering::Less => later,
            Ordering::Equal | Ordering::Greater => earlier,
        },
        (None, _) => later,
        (_, None) => earlier,
    }
}

/// The lesser of an earlier and a later element, the earlier of equal ones.
fn lesser<E: Ord + Copy>(earlier: Option<(E, u32)>, later: Option<(E, u32)>) -> Option<(E, u32)>
    ensures { result ≡ first_greatest (flip_args E.cmp) earlier later }
{
    match (earlier, later) {
        (Some(a), Some(b)) => match b.0.cmp(&a.0) {
            Ordering::Less => later,
            Ordering::Equal | Ordering::Greater => earlier,
        },
        (None, _) => later,
        (_, None) => earlier,
    }
}
