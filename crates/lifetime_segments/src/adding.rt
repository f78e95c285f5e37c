//! Putting a lifetime into its spans.
ghost use Rattle.std.specs.Prelude.{◌≤◌, ◌∷◌, Some, None, length, IfOk, IfSome};
ghost use Rattle.std.specs.List.{AllByRecursion};
ghost use Rattle.lifetime_segments.specs.Lawful.{most_items};
ghost use Rattle.lifetime_segments.specs.Tries.{Edits, Has, IsOf, IsOfNode, Lies};

use crate::life_list::{LifeList, put_life};
use crate::lifetime::Lifetime;
use crate::sorted::{Order, put};
use crate::taking::take_in_half;
use crate::trie::{FEW, Node, Trie};
use retro_base::NoMemory;
use std::alloc::Global;

/// Puts the item of a lifetime into the spans that make it up. Lifetimes that are no longer few are divided first.
#[cycle(add)]
pub(crate) fn add<O: Order>(
    trie: &mut Trie<O::Item>,
    level: u32,
    life: Lifetime<O::Item>,
    alloc: Global,
) -> Result<(), NoMemory>
    requires level { level ≤ 40 }
    requires lies { Lies level life }
    requires has { Has (IsOf O.stands_before level trie.old) None }
    ensures { Edits None (Some life) (IsOf O.stands_before level trie.old) (IsOf O.stands_before level trie.new) result }
{
    match trie {
        Trie::Full(node) => add_to_node::<O>(node, level, life, alloc),
        Trie::Few(few) => {
            if few.len() < FEW {
                return put_life::<O>(few, life);
            }
            let node = divided_with::<O>(few, level, life, alloc)?;
            trie.divide(node);
            Ok(())
        }
    }
}

/// A node that has these lifetimes and one more.
#[cycle(add)]
fn divided_with<O: Order>(
    few: &LifeList<O::Item>,
    level: u32,
    life: Lifetime<O::Item>,
    alloc: Global,
) -> Result<Box<Node<O::Item>>, NoMemory>
    requires level { level ≤ 40 }
    requires lies { Lies level life }
    requires all { AllByRecursion (Lies level) few.now }
    requires few { length few.now ≤ most_items }
    ensures { IfOk result (λ node. IsOfNode O.stands_before level node.value (life ∷ few.now)) }
{
    let mut node = Node::boxed(alloc)?;
    for place in (0..few.len()).rev() {
        add_to_node::<O>(&mut node, level, few.get(place), alloc)?;
    }
    add_to_node::<O>(&mut node, level, life, alloc)?;
    Ok(node)
}

/// After out of memory in the second half, the first has the lifetimes that it had.
#[cycle(add)]
pub(crate) fn add_to_node<O: Order>(
    node: &mut Node<O::Item>,
    level: u32,
    life: Lifetime<O::Item>,
    alloc: Global,
) -> Result<(), NoMemory>
    requires level { level ≤ 40 }
    requires lies { Lies level life }
    requires has { Has (IsOfNode O.stands_before level node.old) None }
    ensures { Edits None (Some life) (IsOfNode O.stands_before level node.old) (IsOfNode O.stands_before level node.new) result }
{
    if life.is_whole(level) {
        return put::<O>(&mut node.items, life.item);
    }
    let first = life.in_first(level);
    add_in_half::<O>(&mut node.left, level - 1, first, alloc)?;
    if let Err(error) = add_in_half::<O>(&mut node.right, level - 1, life.in_second(level), alloc) {
        take_in_half::<O>(&mut node.left, level - 1, first);
        return Err(error);
    }
    Ok(())
}

/// Puts in what of a lifetime lies in a half, if anything does.
#[cycle(add)]
fn add_in_half<O: Order>(
    half: &mut Trie<O::Item>,
    level: u32,
    clipped: Option<Lifetime<O::Item>>,
    alloc: Global,
) -> Result<(), NoMemory>
    requires level { level ≤ 40 }
    requires lies { IfSome clipped (Lies level) }
    requires has { Has (IsOf O.stands_before level half.old) None }
    ensures { Edits None clipped (IsOf O.stands_before level half.old) (IsOf O.stands_before level half.new) result }
{
    match clipped {
        Some(life) => add::<O>(half, level, life, alloc),
        None => Ok(()),
    }
}
