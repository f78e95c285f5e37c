//! The tree of rows: runs of neighbouring rows, and pairs of these and of pairs. Contracts see its rows and its wear.

use crate::node_piece::NodePiece;
use retro_base::PackedRow;
use std::marker::Model;

/// A run has so many rows at most.
pub(crate) const LONGEST_RUN: usize = 64;

/// The rows of a tree or of one side of a pair, in order.
#[cycle(subtree)]
#[derive(Drop)]
pub(crate) struct Subtree {
    pub(crate) link: Link,
}

/// Only a tree without rows is empty; no side of a pair is.
#[cycle(subtree)]
#[derive(Drop)]
pub(crate) enum Link {
    Empty,
    Leaf(Box<Run>),
    Fork(Box<Pair>),
}

/// Neighbouring rows, and what all of them come to.
#[derive(Drop)]
pub(crate) struct Run {
    pub(crate) rows: Vec<PackedRow>,
    pub(crate) piece: NodePiece,
}

/// Rows in two parts, and what all of them come to.
#[cycle(subtree)]
#[derive(Drop)]
pub(crate) struct Pair {
    pub(crate) earlier: Subtree,
    pub(crate) later: Subtree,
    pub(crate) size: u32,
    pub(crate) piece: NodePiece,
}

impl Model for Subtree {
    ghost use Rattle.std.specs.Prelude.{length};
    ghost use Rattle.pq_fusion.specs.Wear.{WornRows};

    ghost Value = { WornRows };

    ghost use Rattle.pq_fusion.specs.Nodes.{part_of, IsSound};

    ghost view = { λ t. part_of t.link };

    ghost invariant = { λ t. IsSound t.link };

    ghost size = { λ part. length part.rows };

    ghost use Rattle.pq_fusion.specs.NodesFall.{depth_le-length-rows};

    ghost size_decreases = { λ t h. depth_le-length-rows t.link h };
}
