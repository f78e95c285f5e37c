//! The items on the way to a label.
ghost use Rattle.std.specs.Prelude.{◌≡◌, ◌<◌, ◌≤◌, ◌^◌, ◌++◌, [], OnOk, IfOk};
ghost use Rattle.lifetime_segments.specs.Lifetimes.{items_at};
ghost use Rattle.lifetime_segments.specs.Tries.{Collects, IsOf, IsOfNode, items_below};

use crate::life_list::LifeList;
use crate::lifetime::labels;
use crate::sorted::Order;
use crate::trie::{Node, Trie};
use monoid_laws::Measured;
use retro_base::NoMemory;
use std::alloc::Global;
use weighted_tree::{Tree, uncounted};

/// The items in the spans above a label, span by span.
pub(crate) fn collected<O: Order>(
    root: &Trie<O::Item>,
    level: u32,
    label: u64,
    alloc: Global,
) -> Result<Vec<O::Item>, NoMemory>
    requires level { level ≤ 40 }
    requires within { label < 2 ^ level }
    ensures { IfOk result (λ items. Collects O.stands_before (items_at label) (IsOf O.stands_before level root.now) [] items.items) }
{
    let mut items = Vec::new(alloc);
    collect::<O>(root, level, label, &mut items)?;
    Ok(items)
}

/// Appends the items in the spans above a label.
#[cycle(collect)]
fn collect<O: Order>(
    trie: &Trie<O::Item>,
    level: u32,
    label: u64,
    items: &mut Vec<O::Item>,
) -> Result<(), NoMemory>
    requires level { level ≤ 40 }
    requires within { label < 2 ^ level }
    ensures { OnOk result (Collects O.stands_before (items_at label) (IsOf O.stands_before level trie.now) items.old.items items.new.items) }
{
    let node = match trie {
        Trie::Few(few) => return append_few(few, label, items),
        Trie::Full(node) => node,
    };
    append(&node.items, items)?;
    if level == 0 {
        return Ok(());
    }
    collect_half::<O>(node, level, label, items)
}

/// Appends the items in the spans below a node and above a label.
#[cycle(collect)]
fn collect_half<O: Order>(
    node: &Node<O::Item>,
    level: u32,
    label: u64,
    items: &mut Vec<O::Item>,
) -> Result<(), NoMemory>
    requires level { level ≤ 40 }
    requires deep { 0 < level }
    requires within { label < 2 ^ level }
    ensures { OnOk result (Collects O.stands_before (items_below level label) (IsOfNode O.stands_before level node.now) items.old.items items.new.items) }
{
    let half = labels(level - 1);
    if label < half {
        collect::<O>(&node.left, level - 1, label, items)
    } else {
        collect::<O>(&node.right, level - 1, label - half, items)
    }
}

/// Appends the items of a tree.
fn append<T: Measured>(tree: &Tree<T>, items: &mut Vec<T>) -> Result<(), NoMemory>
    ensures { OnOk result (items.new.items ≡ items.old.items ++ tree.now) }
{
    if tree.len() == 0 {
        return Ok(());
    }
    let mut read = vec![in tree.alloc(); uncounted::get(tree, 0); tree.len() as usize]?;
    uncounted::read(tree, 0, |item: &T| *item, &mut read);
    items.append(&mut read)?;
    Ok(())
}

/// Appends the items of those of a few lifetimes that hold a label.
fn append_few<T: Measured>(
    few: &LifeList<T>,
    label: u64,
    items: &mut Vec<T>,
) -> Result<(), NoMemory>
    ensures { OnOk result (items.new.items ≡ items.old.items ++ items_at label few.now) }
{
    for place in 0..few.len() {
        let life = few.get(place);
        if life.holds(label) {
            items.push(life.item)?;
        }
    }
    Ok(())
}
