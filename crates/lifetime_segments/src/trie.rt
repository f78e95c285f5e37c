//! The spans of labels: what lies in each of them.
ghost use Rattle.std.specs.Prelude.{◌≡◌, true, false, IfOk};
ghost use Rattle.lifetime_segments.specs.Tries.{IsNothing, IsBare, LeadsTo};

use crate::life_list::LifeList;
use monoid_laws::Measured;
use retro_base::NoMemory;
use std::alloc::Global;
use weighted_tree::Tree;

/// So many lifetimes of a span are kept as they are at the most.
///
/// With more of them less is divided, so that an edit touches fewer spans and a row takes less memory; with fewer of them an
/// insertion moves less.
pub(crate) const FEW: usize = 255;

/// The lifetimes in a span of labels: as they are, or divided over the span itself and its halves once they were more than a few.
#[cycle(trie)]
#[derive(Drop)]
pub(crate) enum Trie<T: Measured> {
    Few(LifeList<T>),
    Full(Box<Node<T>>),
}

/// The items in a span itself, and the lifetimes in its halves.
#[cycle(trie)]
#[derive(Drop)]
pub(crate) struct Node<T: Measured> {
    pub(crate) items: Tree<T>,
    pub(crate) left: Trie<T>,
    pub(crate) right: Trie<T>,
}

impl<T: Measured> Trie<T> {
    /// No lifetimes.
    pub(crate) fn new(alloc: Global) -> Trie<T>
        ensures { IsNothing result }
    {
        Trie::Few(LifeList::new(alloc))
    }

    /// Has this node from now on.
    pub(crate) fn divide(&mut self, node: Box<Node<T>>)
        ensures { LeadsTo self.new node.value }
    {
        *self = Trie::Full(node);
    }

    /// Has no lifetimes from now on.
    pub(crate) fn clear(&mut self, alloc: Global)
        ensures { IsNothing self.new }
    {
        *self = Trie::new(alloc);
    }

    /// Whether there are no lifetimes, and no node.
    fn is_nothing(&self) -> bool
        ensures nothing { result ≡ true → IsNothing self.now }
        ensures some { result ≡ false → IsNothing self.now → ⊥ }
    {
        match self {
            Trie::Few(few) => few.len() == 0,
            Trie::Full(_) => false,
        }
    }
}

impl<T: Measured> Node<T> {
    /// One with nothing.
    pub(crate) fn boxed(alloc: Global) -> Result<Box<Node<T>>, NoMemory>
        ensures { IfOk result (λ node. IsBare node.value) }
    {
        let node = Node {
            items: Tree::new(alloc),
            left: Trie::new(alloc),
            right: Trie::new(alloc),
        };
        Ok(Box::new(alloc, node)?)
    }

    /// Whether it has nothing.
    pub(crate) fn is_bare(&self) -> bool
        ensures bare { result ≡ true → IsBare self.now }
        ensures some { result ≡ false → IsBare self.now → ⊥ }
    {
        self.items.len() == 0 && self.left.is_nothing() && self.right.is_nothing()
    }
}
