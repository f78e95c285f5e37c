//! What stands at the root of a tree of rows, and a tree of one root.

ghost use Rattle.std.specs.Prelude.{◌≡◌, ◌≤◌, [], length, IfOk, MatchOption};
ghost use Rattle.retro_base.specs.Limits.{most_rows};
ghost use Rattle.pq_fusion.specs.Nodes.{weight, pair_part, IsPair, IsRun};
ghost use Rattle.pq_fusion.specs.Pieces.{tolerant};
ghost use Rattle.pq_fusion.specs.Roots.{IsRoot};
ghost use Rattle.pq_fusion.specs.Wear.{unworn};

use crate::Piece;
use crate::node_piece::NodePiece;
use crate::subtree::{self, Link, Subtree};
use retro_base::NoMemory;
use std::alloc::Global;

/// What stands at the root of a tree of rows.
pub(crate) enum Root<'a> {
    Nothing,
    Run(&'a subtree::Run),
    Pair(&'a subtree::Pair),
}

impl Subtree {
    /// No rows.
    pub(crate) fn new() -> Subtree
        ensures { result ≡ unworn [] }
    {
        Subtree { link: Link::Empty }
    }

    /// The subtree of a run.
    pub(crate) fn of_run(run: Box<subtree::Run>) -> Subtree
        requires { IsRun run.value }
        ensures { result ≡ unworn run.value.rows.items }
    {
        Subtree {
            link: Link::Leaf(run),
        }
    }

    /// The subtree of a pair.
    pub(crate) fn of_pair(pair: Box<subtree::Pair>) -> Subtree
        requires { IsPair pair.value }
        ensures { result ≡ pair_part pair.value }
    {
        Subtree {
            link: Link::Fork(pair),
        }
    }

    /// What stands at the root.
    pub(crate) fn root(&self) -> Root<'_>
        ensures { IsRoot self.now.rows result }
    {
        match &self.link {
            Link::Empty => Root::Nothing,
            Link::Leaf(run) => Root::Run(run),
            Link::Fork(pair) => Root::Pair(pair),
        }
    }

    /// How many rows there are.
    pub(crate) fn len(&self) -> u32
        ensures count { result ≡ length self.now.rows }
        ensures few { result ≤ most_rows }
    {
        match self.root() {
            Root::Nothing => 0,
            Root::Run(run) => run.rows.len() as u32,
            Root::Pair(pair) => pair.size,
        }
    }

    /// What all rows come to, where there are rows.
    pub(crate) fn node_piece(&self) -> Option<&NodePiece>
        ensures { MatchOption result (self.now.rows ≡ []) (λ piece. piece.now ≡ tolerant self.now.rows) }
    {
        match self.root() {
            Root::Nothing => None,
            Root::Run(run) => Some(&run.piece),
            Root::Pair(pair) => Some(&pair.piece),
        }
    }

    /// What all rows come to.
    pub(crate) fn whole(&self, alloc: Global) -> Result<Piece, NoMemory>
        ensures { IfOk result (λ piece. piece ≡ tolerant self.now.rows) }
    {
        match self.node_piece() {
            None => Ok(Piece::empty(alloc)),
            Some(piece) => piece.to_piece(alloc),
        }
    }
}
