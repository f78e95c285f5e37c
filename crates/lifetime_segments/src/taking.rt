//! Taking a lifetime out of its spans.
ghost use Rattle.std.specs.Prelude.{◌≤◌, Some, None, IfSome};
ghost use Rattle.lifetime_segments.specs.Tries.{Changes, Holds, IsOf, IsOfNode, Lies};

use crate::life_list::take_life;
use crate::lifetime::Lifetime;
use crate::sorted::{Order, remove_ordered};
use crate::trie::{Node, Trie};

/// Takes the item of a lifetime out of the spans that make it up.
#[cycle(take)]
pub(crate) fn take<O: Order>(trie: &mut Trie<O::Item>, level: u32, life: Lifetime<O::Item>)
    requires level { level ≤ 40 }
    requires lies { Lies level life }
    requires holds { Holds (IsOf O.stands_before level trie.old) (Some life) }
    ensures { Changes (Some life) None (IsOf O.stands_before level trie.old) (IsOf O.stands_before level trie.new) }
{
    match trie {
        Trie::Few(few) => take_life::<O>(few, life),
        Trie::Full(node) => {
            take_from_node::<O>(node, level, life);
            if node.is_bare() {
                let alloc = node.items.alloc();
                trie.clear(alloc);
            }
        }
    }
}

#[cycle(take)]
pub(crate) fn take_from_node<O: Order>(
    node: &mut Node<O::Item>,
    level: u32,
    life: Lifetime<O::Item>,
)
    requires level { level ≤ 40 }
    requires lies { Lies level life }
    requires holds { Holds (IsOfNode O.stands_before level node.old) (Some life) }
    ensures { Changes (Some life) None (IsOfNode O.stands_before level node.old) (IsOfNode O.stands_before level node.new) }
{
    if life.is_whole(level) {
        remove_ordered::<O>(&mut node.items, life.item);
        return;
    }
    let first = life.in_first(level);
    take_in_half::<O>(&mut node.left, level - 1, first);
    take_in_half::<O>(&mut node.right, level - 1, life.in_second(level));
}

/// Takes out what of a lifetime lies in a half, if anything does.
#[cycle(take)]
pub(crate) fn take_in_half<O: Order>(
    half: &mut Trie<O::Item>,
    level: u32,
    clipped: Option<Lifetime<O::Item>>,
)
    requires level { level ≤ 40 }
    requires lies { IfSome clipped (Lies level) }
    requires holds { Holds (IsOf O.stands_before level half.old) clipped }
    ensures { Changes clipped None (IsOf O.stands_before level half.old) (IsOf O.stands_before level half.new) }
{
    match clipped {
        Some(life) => take::<O>(half, level, life),
        None => {}
    }
}
