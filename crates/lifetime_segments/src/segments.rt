//! The type and its calls: the lifetimes that are held, and the spans that they lie in.
ghost use Rattle.std.specs.Prelude.{◌≡◌, ◌<◌, ◌≤◌, true, [], length, Some, IfOk, OnOk, OnErr};
ghost use Rattle.std.specs.List.{AllByRecursion};
ghost use Rattle.lifetime_segments.specs.Lawful.{most_items};
ghost use Rattle.lifetime_segments.specs.Lifetimes.{label_end, lifetime, IsInRange, items_at, stands_earlier};
ghost use Rattle.lifetime_segments.specs.Ordered.{AreInOrder, insert_by, in_order, is_in, without, position_in};
ghost use Rattle.lifetime_segments.specs.Tries.{AreHeld, Lies, ending};

use crate::adding::add;
use crate::collect::collected;
use crate::decomposable::{Decomposable, RangeSearch};
use crate::lifetime::Lifetime;
use crate::moving::move_end;
use crate::search::ask;
use crate::sorted::{ByItem, ByStart, Order, is_beside, place_of, position, put, remove_ordered};
use crate::taking::take;
use crate::trie::Trie;
use retro_base::NoMemory;
use std::alloc::Global;
use std::marker::Model;
use weighted_tree::{Tree, uncounted};

/// The level of the span of all labels.
const LEVELS: u32 = 40;

/// Items with the labels at which they are there, searched at any label: a list of lifetimes.
///
/// The lifetimes stand by where they begin, then by where they end, then by their items.
#[derive(Drop)]
pub struct Segments<D: Decomposable> {
    held: Tree<Lifetime<D::Item>>,
    root: Trie<D::Item>,
}

impl<D: Decomposable> Model for Segments<D> {
    ghost use Rattle.std.specs.Prelude.{List};
    ghost use Rattle.lifetime_segments.specs.declared.lifetime.Lifetime.{Lifetime};
    ghost use Rattle.lifetime_segments.specs.Tries.{AreHeld};

    ghost Value = { List (Lifetime D.Item) };

    ghost view = { λ segments. segments.held };

    ghost invariant = { λ segments. AreHeld D.stands_before segments.held segments.root };
}

impl<D: Decomposable> Segments<D> {
    /// No lifetimes.
    pub fn new(alloc: Global) -> Segments<D>
        ensures { result ≡ [] }
    {
        Segments {
            held: Tree::new(alloc),
            root: Trie::new(alloc),
        }
    }

    /// Adds a lifetime. After `NoMemory` all is as before.
    pub fn add(&mut self, from: u64, to: u64, item: D::Item) -> Result<(), NoMemory>
        requires rises { from < to }
        requires within { to ≤ label_end }
        requires room { length self.old < most_items }
        ensures ok { OnOk result (self.new ≡ insert_by (stands_earlier D.stands_before) (lifetime from to item) self.old) }
        ensures err { OnErr result (self.new ≡ self.old) }
    {
        let life = Lifetime { from, to, item };
        add_held::<ByItem<D>>(&mut self.held, &mut self.root, life)
    }

    /// Moves where a lifetime ends: the one that ends at `next` is put in, and the one that ends at `to` taken out. After
    /// `NoMemory` all is as before.
    pub fn move_end(&mut self, from: u64, to: u64, next: u64, item: D::Item) -> Result<(), NoMemory>
        requires rises { from < next }
        requires within { next ≤ label_end }
        requires room { length self.old < most_items }
        ensures ok { OnOk result (self.new ≡ without (stands_earlier D.stands_before) (lifetime from to item) (insert_by (stands_earlier D.stands_before) (lifetime from next item) self.old)) }
        ensures err { OnErr result (self.new ≡ self.old) }
    {
        let life = Lifetime { from, to, item };
        if let Some(place) = position::<ByStart<ByItem<D>>>(&self.held, &life) {
            return move_held::<ByItem<D>>(&mut self.held, &mut self.root, place, life, next);
        }
        self.add(from, next, item)?;
        self.take(from, to, item);
        Ok(())
    }

    /// Takes a lifetime out, and tells whether it was there. It takes no memory.
    pub fn take(&mut self, from: u64, to: u64, item: D::Item) -> bool
        ensures found { result ≡ is_in (stands_earlier D.stands_before) (lifetime from to item) self.old }
        ensures rest { self.new ≡ without (stands_earlier D.stands_before) (lifetime from to item) self.old }
        ensures ordered { AreInOrder (stands_earlier D.stands_before) self.old }
        ensures in_range { AllByRecursion IsInRange self.old }
    {
        let life = Lifetime { from, to, item };
        take_held::<ByItem<D>>(&mut self.held, &mut self.root, life)
    }

    /// The items of all lifetimes that hold the label, in no order of their own.
    pub fn items_at(&self, label: u64) -> Result<Vec<D::Item>, NoMemory>
        requires within { label < label_end }
        ensures items { IfOk result (λ items. in_order D.stands_before items.items ≡ in_order D.stands_before (items_at label self.now)) }
        ensures few { IfOk result (λ items. length items.items ≤ most_items) }
    {
        let alloc = self.held.alloc();
        collected::<ByItem<D>>(&self.root, LEVELS, label, alloc)
    }
}

impl<D: RangeSearch> Segments<D> {
    /// The answer over the items of all lifetimes that hold the label. It takes no memory.
    pub fn ask(&self, label: u64, query: D::Query) -> D::Part
        requires within { label < label_end }
        ensures { result ≡ D.answer (in_order D.stands_before (items_at label self.now)) query }
    {
        ask::<D>(&self.root, LEVELS, label, query)
    }
}

fn add_held<O: Order>(
    held: &mut Tree<Lifetime<O::Item>>,
    root: &mut Trie<O::Item>,
    life: Lifetime<O::Item>,
) -> Result<(), NoMemory>
    requires lies { Lies 40 life }
    requires room { length held.old < most_items }
    requires held { AreHeld O.stands_before held.old root.old }
    ensures held { AreHeld O.stands_before held.new root.new }
    ensures ok { OnOk result (held.new ≡ insert_by (stands_earlier O.stands_before) life held.old) }
    ensures err { OnErr result (held.new ≡ held.old) }
{
    put::<ByStart<O>>(held, life)?;
    if let Err(error) = add::<O>(root, LEVELS, life, held.alloc()) {
        remove_ordered::<ByStart<O>>(held, life);
        return Err(error);
    }
    Ok(())
}

fn take_held<O: Order>(
    held: &mut Tree<Lifetime<O::Item>>,
    root: &mut Trie<O::Item>,
    life: Lifetime<O::Item>,
) -> bool
    requires held { AreHeld O.stands_before held.old root.old }
    ensures held { AreHeld O.stands_before held.new root.new }
    ensures found { result ≡ is_in (stands_earlier O.stands_before) life held.old }
    ensures rest { held.new ≡ without (stands_earlier O.stands_before) life held.old }
{
    let Some(place) = position::<ByStart<O>>(held, &life) else {
        return false;
    };
    uncounted::remove(held, place);
    take::<O>(root, LEVELS, life);
    true
}

/// Moves where a lifetime ends. Lifetimes stand by where they begin, so it mostly stays where it stands, and is replaced.
fn move_held<O: Order>(
    held: &mut Tree<Lifetime<O::Item>>,
    root: &mut Trie<O::Item>,
    place: u32,
    life: Lifetime<O::Item>,
    next: u64,
) -> Result<(), NoMemory>
    requires moved { Lies 40 (ending next life) }
    requires room { length held.old < most_items }
    requires place { position_in (stands_earlier O.stands_before) life held.old ≡ Some place }
    requires held { AreHeld O.stands_before held.old root.old }
    ensures held { AreHeld O.stands_before held.new root.new }
    ensures ok { OnOk result (held.new ≡ without (stands_earlier O.stands_before) life (insert_by (stands_earlier O.stands_before) (ending next life) held.old)) }
    ensures err { OnErr result (held.new ≡ held.old) }
{
    let moved = life.ending(next);
    let moved_place = place_of::<ByStart<O>>(held, &moved);
    if is_beside(place as usize, moved_place as usize) {
        move_end::<O>(root, LEVELS, life, next, held.alloc())?;
        uncounted::replace(held, place, moved);
        return Ok(());
    }
    put::<ByStart<O>>(held, moved)?;
    if let Err(error) = move_end::<O>(root, LEVELS, life, next, held.alloc()) {
        remove_ordered::<ByStart<O>>(held, moved);
        return Err(error);
    }
    remove_ordered::<ByStart<O>>(held, life);
    Ok(())
}
