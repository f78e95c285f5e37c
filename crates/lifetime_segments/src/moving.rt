//! Moving the end of a lifetime.
ghost use Rattle.std.specs.Prelude.{◌≡◌, ◌<◌, ◌≤◌, false, Some};
ghost use Rattle.lifetime_segments.specs.Tries.{Edits, Has, IsOf, IsOfNode, Lies, ending, is_whole};

use crate::adding::{add, add_to_node};
use crate::life_list::exchange_lives;
use crate::lifetime::{Lifetime, labels};
use crate::sorted::Order;
use crate::taking::{take, take_from_node, take_in_half};
use crate::trie::{Node, Trie};
use retro_base::NoMemory;
use std::alloc::Global;

/// Moves where a lifetime ends. Spans that it has with either end are left as they are.
#[cycle(move_end)]
pub(crate) fn move_end<O: Order>(
    trie: &mut Trie<O::Item>,
    level: u32,
    life: Lifetime<O::Item>,
    next: u64,
    alloc: Global,
) -> Result<(), NoMemory>
    requires level { level ≤ 40 }
    requires lies { Lies level life }
    requires moved { Lies level (ending next life) }
    requires has { Has (IsOf O.stands_before level trie.old) (Some life) }
    ensures { Edits (Some life) (Some (ending next life)) (IsOf O.stands_before level trie.old) (IsOf O.stands_before level trie.new) result }
{
    if next == life.to {
        return Ok(());
    }
    match trie {
        Trie::Few(few) => exchange_lives::<O>(few, life, life.ending(next)),
        Trie::Full(node) => move_in_node::<O>(node, level, life, next, alloc),
    }
}

/// Where a lifetime holds the whole span with one of its ends, it is put in with the new one and taken out with the former.
#[cycle(move_end)]
fn move_in_node<O: Order>(
    node: &mut Node<O::Item>,
    level: u32,
    life: Lifetime<O::Item>,
    next: u64,
    alloc: Global,
) -> Result<(), NoMemory>
    requires level { level ≤ 40 }
    requires lies { Lies level life }
    requires moved { Lies level (ending next life) }
    requires has { Has (IsOfNode O.stands_before level node.old) (Some life) }
    ensures { Edits (Some life) (Some (ending next life)) (IsOfNode O.stands_before level node.old) (IsOfNode O.stands_before level node.new) result }
{
    let moved = life.ending(next);
    if life.is_whole(level) || moved.is_whole(level) {
        add_to_node::<O>(node, level, moved, alloc)?;
        take_from_node::<O>(node, level, life);
        return Ok(());
    }
    move_in_halves::<O>(node, level, life, next, alloc)
}

/// Where both ends lie in the second half, only that half changes. After out of memory in the first half, the second has the
/// lifetimes that it had.
#[cycle(move_end)]
fn move_in_halves<O: Order>(
    node: &mut Node<O::Item>,
    level: u32,
    life: Lifetime<O::Item>,
    next: u64,
    alloc: Global,
) -> Result<(), NoMemory>
    requires level { level ≤ 40 }
    requires deep { 0 < level }
    requires lies { Lies level life }
    requires moved { Lies level (ending next life) }
    requires broken { is_whole level life ≡ false }
    requires broken_next { is_whole level (ending next life) ≡ false }
    requires has { Has (IsOfNode O.stands_before level node.old) (Some life) }
    ensures { Edits (Some life) (Some (ending next life)) (IsOfNode O.stands_before level node.old) (IsOfNode O.stands_before level node.new) result }
{
    let half = labels(level - 1);
    if next <= half {
        let first = life.ending(life.to.min(half));
        move_end::<O>(&mut node.left, level - 1, first, next, alloc)?;
        take_in_half::<O>(&mut node.right, level - 1, life.in_second(level));
        return Ok(());
    }
    if half < life.to {
        let second = life.seen_from(half);
        return move_end::<O>(&mut node.right, level - 1, second, next - half, alloc);
    }
    let entered = life.ending(next).seen_from(half);
    add::<O>(&mut node.right, level - 1, entered, alloc)?;
    if let Err(error) = move_end::<O>(&mut node.left, level - 1, life, half, alloc) {
        take::<O>(&mut node.right, level - 1, entered);
        return Err(error);
    }
    Ok(())
}
