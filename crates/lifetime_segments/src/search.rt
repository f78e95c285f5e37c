//! The way to a label, and the answers on it.
ghost use Rattle.std.specs.Prelude.{◌≡◌, ◌<◌, ◌≤◌, ◌^◌, None, length};
ghost use Rattle.lifetime_segments.specs.Lawful.{most_items, AnswerTogether, IsLawful};
ghost use Rattle.lifetime_segments.specs.Lifetimes.{items_at, stands_by_item};
ghost use Rattle.lifetime_segments.specs.Ordered.{AreInOrder, in_order};
ghost use Rattle.lifetime_segments.specs.Tries.{Answers, Has, IsOf, IsOfNode, items_below};

use crate::decomposable::{Decomposable, RangeSearch};
use crate::life_list::{LifeList, place_from};
use crate::lifetime::labels;
use crate::trie::{Node, Trie};
use weighted_tree::Tree;

/// The answer over the items in the spans above a label, and over those of few lifetimes there.
#[cycle(ask)]
pub(crate) fn ask<D: RangeSearch>(
    trie: &Trie<D::Item>,
    level: u32,
    label: u64,
    query: D::Query,
) -> D::Part
    requires level { level ≤ 40 }
    requires within { label < 2 ^ level }
    requires has { Has (IsOf D.stands_before level trie.now) None }
    ensures { Answers D.stands_before D.answer query (items_at label) (IsOf D.stands_before level trie.now) result }
{
    match trie {
        Trie::Few(few) => ask_few::<D>(few, label, query),
        Trie::Full(node) => ask_node::<D>(node, level, label, query),
    }
}

/// The answer over the items of a node, and over those in the spans below it and above a label.
///
/// Most spans have no item of their own. What needs room stands in functions that are not inlined, so that the way down has no
/// need to keep or to clear any there.
#[cycle(ask)]
fn ask_node<D: RangeSearch>(
    node: &Node<D::Item>,
    level: u32,
    label: u64,
    query: D::Query,
) -> D::Part
    requires level { level ≤ 40 }
    requires within { label < 2 ^ level }
    requires has { Has (IsOfNode D.stands_before level node.now) None }
    ensures { Answers D.stands_before D.answer query (items_at label) (IsOfNode D.stands_before level node.now) result }
{
    if level == 0 {
        return D::ask(&node.items, query);
    }
    if node.items.len() == 0 {
        return ask_half::<D>(node, level, label, query);
    }
    ask_with_own::<D>(node, level, label, query)
}

/// The same where the node has halves and items of its own.
#[cycle(ask)]
#[inline(never)]
fn ask_with_own<D: RangeSearch>(
    node: &Node<D::Item>,
    level: u32,
    label: u64,
    query: D::Query,
) -> D::Part
    requires level { level ≤ 40 }
    requires deep { 0 < level }
    requires within { label < 2 ^ level }
    requires has { Has (IsOfNode D.stands_before level node.now) None }
    ensures { Answers D.stands_before D.answer query (items_at label) (IsOfNode D.stands_before level node.now) result }
{
    let below = ask_half::<D>(node, level, label, query);
    with_own::<D>(&node.items, below, query)
}

/// The answer over the items of a node and those of another answer.
fn with_own<D: Decomposable>(items: &Tree<D::Item>, below: D::Part, query: D::Query) -> D::Part
    requires lawful { IsLawful D.stands_before items.now }
    requires together { AnswerTogether D.stands_before D.answer (D.answer items.now query) below }
    ensures { result ≡ D.combined (D.answer items.now query) below }
{
    D::combine(D::ask(items, query), below)
}

/// The answer over the items in the spans below a node and above a label.
#[cycle(ask)]
fn ask_half<D: RangeSearch>(
    node: &Node<D::Item>,
    level: u32,
    label: u64,
    query: D::Query,
) -> D::Part
    requires level { level ≤ 40 }
    requires deep { 0 < level }
    requires within { label < 2 ^ level }
    requires has { Has (IsOfNode D.stands_before level node.now) None }
    ensures { Answers D.stands_before D.answer query (items_below level label) (IsOfNode D.stands_before level node.now) result }
{
    let half = labels(level - 1);
    if label < half {
        ask::<D>(&node.left, level - 1, label, query)
    } else {
        ask::<D>(&node.right, level - 1, label - half, query)
    }
}

/// The answer over the items of those of a few lifetimes that hold a label. They stand by their items, so it begins at the lower
/// end of the query and stops at the upper one.
#[inline(never)]
fn ask_few<D: RangeSearch>(few: &LifeList<D::Item>, label: u64, query: D::Query) -> D::Part
    requires few { length few.now ≤ most_items }
    requires ordered { AreInOrder (stands_by_item D.stands_before) few.now }
    ensures { result ≡ D.answer (in_order D.stands_before (items_at label few.now)) query }
{
    let mut part = D::empty();
    for place in place_from::<D>(few, query)..few.len() {
        let life = few.get(place);
        if D::is_above(&life.item, query) {
            return part;
        }
        if life.holds(label) {
            part = D::with_one(part, &life.item, query);
        }
    }
    part
}
