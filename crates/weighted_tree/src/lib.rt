//! A list that is measured: any range of it, after a few joins.
//!
//! `Tree<T>` is a list of items, and contracts see nothing else of it. Beside what a list does it tells
//! what a range of its items measures, for any monoid that the items are measured by, and finds the
//! first or the last place at which a test of that measure turns, and the place at which a test of the
//! items does. Where every step is at the end and no range is asked for, a `Vec` serves better.
//!
//! A node holds an item between two subtrees, and where a subtree has no node it is a leaf: a vector of
//! up to 32 items, or nothing at all. A leaf that is full is divided below a new node where one more item
//! comes in: in the middle, or at an end where the item comes there, so that leaves which are filled in
//! order stay full. The vector grows by eight items at a time, and gives room back where it is divided, so that
//! little of it stays empty. The link to a subtree keeps its sizes and its measure, so that a node knows them
//! without a look at its sides. Where the monoid tells what is left without an item, and what there is with one
//! more, the measure of a leaf changes by the item that goes or comes, and so does that of a node with as many
//! nodes below it as before; else they are measured anew.
//!
//! The last items stand outside of the root, in a tail: one more leaf. An item that comes in at the end goes there, and its
//! measure is joined with that of the others; only where the tail is full, at each 33rd such item, does one way down the right
//! side put all of them below the root, as a node with a full leaf. Where the root has fewer than 32 items and the tail has none,
//! it goes into the root, so that a tree that never had more than 32 items has no tail.
//!
//! The tree is weight-balanced (Nievergelt and Reingold 1973): the weight of a subtree is the number of
//! its nodes and one, whatever its leaves hold, and neither side of a node weighs over 3 times the other.
//! A side that grew too heavy is rotated, once where its inner child weighs less than 2 times the outer
//! one and else twice; with 3 and 2 this restores the balance after an insertion and after a removal (Hirai
//! and Yamamoto 2011). An edit looks at the balance of a node only where there are other nodes below it than
//! before. A leaf is never too heavy, so rotations move leaves and look into none. A node whose item is removed
//! takes the first one after it; where there is none, its left side takes its place. A side weighs at most 3
//! quarters of the whole, so a tree of n nodes has at most 3 levels for each binary digit of n + 1 but the first,
//! and a leaf below them.
//!
//! | Call | Nodes and leaves visited, d being the digits of one more than the length |
//! |---|---|
//! | `new`, `len` | none |
//! | `get`, `insert`, `remove`, `replace`, `measure`, `first_place`, `last_place`, `partition_point` | at most 12 d |
//! | `read` | at most 12 d, and one more for each item that it reads |
//! | `copy` | one for each item |
//! | those of `uncounted`, each made of a call above | no bound is told |
//!
//! A link holds its node or its leaf closed: each way to open it, be it to read it, to change it or to take it
//! apart, is a visit, and a step on the counter that the caller hands in, which contracts alone see. A node is open
//! while the items below it are edited. It is visited once more on the way back where its measure is joined anew,
//! by `replace` always, and where it is rotated. `read` and `copy` count each item of a leaf as
//! a visit. The sizes and the measure of a subtree belong to the node above it, which the link is in. `insert`
//! and `copy` take memory from the allocator that the tree was made with, and leave the tree as it was where there
//! is none; no other call takes any.
//!
//! The proofs rest on the laws of the monoid alone. What the layer above may rely on: the clauses of
//! `Tree`, in the words of lists; `measure_in` of specs/Measures.antt and std's `slice_range` for what a
//! range measures; `FindsFirst`, `FindsLast` and `FindsPartition` of specs/Search.antt for the searches;
//! specs/PartitionLaws.antt for what `partition_point` says of a list along which a test turns false once; `Writes` of
//! specs/Reads.antt for what `read` writes, and specs/ReadLaws.antt for what it leaves of a list;
//! `VisitsWithin` of `costs` for the cost.
//!
//! - `tree`: the type and its calls. `tail`: its last items.
//! - `uncounted`: the calls of `tree` for who asks for no bound, each with a counter of its own.
//! - `subtree`: the link to a node or a leaf, and what it tells. `closed`: what a link holds, which a visit opens or edits.
//! - `node`: a node and its sides. `balance`: what a link tells after an edit, and rotations.
//! - `leaf`: the items of a leaf. `leaf_edit`: one of them comes or goes. `room`: the memory that they have.
//! - `edit`: an item of a subtree comes in, goes, or is replaced. `copy`: the same items again.
//! - `read`: places and ranges of a subtree. `search`: where a test turns. `walk`: its items into a slice.
#![tactic(auto)]

mod balance;
mod closed;
mod copy;
mod edit;
mod leaf;
mod leaf_edit;
mod node;
mod read;
mod room;
mod search;
mod subtree;
mod tail;
mod tree;
pub mod uncounted;
mod walk;

pub use tree::Tree;
