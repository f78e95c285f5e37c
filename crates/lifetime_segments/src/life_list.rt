//! The lifetimes of a span that has few: a vector of them, by their items.
ghost use Rattle.std.specs.Prelude.{◌≡◌, ◌<◌, ◌≤◌, true, [], length, take, slice_get, slice_set, Some, OnOk, OnErr};
ghost use Rattle.std.specs.List.{AllByRecursion, insert, remove};
ghost use Rattle.lifetime_segments.specs.Lifetimes.{stands_by_item};
ghost use Rattle.lifetime_segments.specs.Ordered.{AreInOrder, insert_by, is_in, without, place_in};

use crate::decomposable::RangeSearch;
use crate::lifetime::Lifetime;
use crate::sorted::{LivesByItem, Order, is_beside};
use monoid_laws::Measured;
use retro_base::NoMemory;
use std::alloc::Global;
use std::marker::Model;

/// A full list takes memory for so many more lifetimes: of twice as many, half would mostly stay empty.
const MORE: usize = 8;

/// A list of a few lifetimes.
#[derive(Drop)]
pub(crate) struct LifeList<T: Measured> {
    lives: Vec<Lifetime<T>>,
}

impl<T: Measured> Model for LifeList<T> {
    ghost use Rattle.std.specs.Prelude.{List};
    ghost use Rattle.lifetime_segments.specs.declared.lifetime.Lifetime.{Lifetime};

    ghost Value = { List (Lifetime T) };

    ghost view = { λ few. few.lives.items };
}

impl<T: Measured> LifeList<T> {
    /// No lifetimes, which takes no memory.
    pub(crate) fn new(alloc: Global) -> LifeList<T>
        ensures { result ≡ [] }
    {
        LifeList {
            lives: Vec::new(alloc),
        }
    }

    /// How many there are.
    pub(crate) fn len(&self) -> usize
        ensures { result ≡ length self.now }
    {
        self.lives.len()
    }

    /// The one at a place.
    pub(crate) fn get(&self, place: usize) -> Lifetime<T>
        requires within { place < length self.now }
        ensures { slice_get self.now place ≡ Some result }
    {
        self.lives[place]
    }

    /// Puts one in at a place. After `NoMemory` all is as before.
    fn insert(&mut self, place: usize, life: Lifetime<T>) -> Result<(), NoMemory>
        requires within { place ≤ length self.old }
        ensures ok { OnOk result (self.new ≡ insert self.old place life) }
        ensures err { OnErr result (self.new ≡ self.old) }
    {
        if self.lives.len() == self.lives.capacity() {
            self.lives.reserve_exact(MORE)?;
        }
        self.lives.insert(place, life)?;
        Ok(())
    }

    /// Takes the one at a place out.
    fn remove(&mut self, place: usize)
        requires within { place < length self.old }
        ensures { self.new ≡ remove self.old place }
    {
        self.lives.remove(place);
    }

    /// Writes another one in the place of one.
    fn replace(&mut self, place: usize, life: Lifetime<T>)
        requires within { place < length self.old }
        ensures { self.new ≡ slice_set self.old place life }
    {
        self.lives[place] = life;
    }
}

/// Lifetimes in front whose items are below the lower end of a query: so many that the next one is not.
pub(crate) fn place_from<D: RangeSearch>(few: &LifeList<D::Item>, query: D::Query) -> usize
    requires ordered { AreInOrder (stands_by_item D.stands_before) few.now }
    ensures within { result ≤ length few.now }
    ensures below { AllByRecursion (λ life. D.below query life.item ≡ true) (take result few.now) }
{
    few.lives
        .as_slice()
        .partition_point(|life: &Lifetime<D::Item>| D::is_below(&life.item, query))
}

/// How many of the lifetimes stand before one: its place among them.
fn life_place<O: Order>(few: &LifeList<O::Item>, life: &Lifetime<O::Item>) -> usize
    requires ordered { AreInOrder (stands_by_item O.stands_before) few.now }
    ensures { result ≡ place_in (stands_by_item O.stands_before) life.now few.now }
{
    few.lives.as_slice().partition_point(|other: &Lifetime<O::Item>| LivesByItem::<O>::before(
        other, life,
    ))
}

/// Puts a lifetime in at its place.
pub(crate) fn put_life<O: Order>(
    few: &mut LifeList<O::Item>,
    life: Lifetime<O::Item>,
) -> Result<(), NoMemory>
    requires ordered { AreInOrder (stands_by_item O.stands_before) few.old }
    ensures ok { OnOk result (few.new ≡ insert_by (stands_by_item O.stands_before) life few.old) }
    ensures err { OnErr result (few.new ≡ few.old) }
{
    let place = life_place::<O>(few, &life);
    few.insert(place, life)
}

/// Takes a lifetime out that is there.
pub(crate) fn take_life<O: Order>(few: &mut LifeList<O::Item>, life: Lifetime<O::Item>)
    requires ordered { AreInOrder (stands_by_item O.stands_before) few.old }
    requires there { is_in (stands_by_item O.stands_before) life few.old ≡ true }
    ensures { few.new ≡ without (stands_by_item O.stands_before) life few.old }
{
    let place = life_place::<O>(few, &life);
    few.remove(place);
}

/// Takes a lifetime out that is there, and puts another one in: where that one stands in order in the place of the first, it
/// is written there. After `NoMemory` all is as before.
pub(crate) fn exchange_lives<O: Order>(
    few: &mut LifeList<O::Item>,
    life: Lifetime<O::Item>,
    other: Lifetime<O::Item>,
) -> Result<(), NoMemory>
    requires ordered { AreInOrder (stands_by_item O.stands_before) few.old }
    requires there { is_in (stands_by_item O.stands_before) life few.old ≡ true }
    ensures ok { OnOk result (few.new ≡ without (stands_by_item O.stands_before) life (insert_by (stands_by_item O.stands_before) other few.old)) }
    ensures err { OnErr result (few.new ≡ few.old) }
{
    let place = life_place::<O>(few, &life);
    let next = life_place::<O>(few, &other);
    if is_beside(place, next) {
        few.replace(place, other);
        return Ok(());
    }
    put_life::<O>(few, other)?;
    take_life::<O>(few, life);
    Ok(())
}
