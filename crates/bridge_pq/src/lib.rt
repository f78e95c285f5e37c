//! A priority queue whose past is edited in a few visits of nodes.
//!
//! `BridgeQueue` serves the priority queue of `retro_base`'s trait `Partial`, which answers of the present
//! alone. The idea is that of Demaine, Iacono and Langerman, "Retroactive Data Structures", section 5.5: a
//! row weighs 0 where it adds an entry that survives, 1 where it adds one that is dead, and -1 where it
//! takes. A bridge is a place where the weights before it sum to 0: all that is held there survives. An
//! edit flips the mark of one entry, which a bridge tells: what is gained is the greatest dead entry from the
//! last bridge on, and what is lost is the least survivor from before the first bridge. Of entries with
//! equal keys the one with the lesser number comes first.
//!
//! The sum is never below 0, and after all rows it is 0. So from any place on the weights are first at their
//! lowest sum at the next bridge, and no weight before the place is needed to find it.
//!
//! Two trees of `weighted_tree` are all that it keeps. One has the rows with their marks; a range of them
//! measures where the sum of their weights is first lowest, the greatest dead entry and the least survivor.
//! The other has the entries that the rows add, in order, with the same marks; a range measures how many are
//! in the present, and the last entry.
//! That weights and marks are those of the definitions is the invariant (`IsBridged` of specs/Bridged.antt),
//! and the laws of `retro_base` on bridges give the changes and the refusals. It answers of the present alone, and for a later
//! queue whose first rows it has; so its past is asked by checkpoints (`checkpoint_full`).
//!
//! | Call | Nodes visited, d being the digits of one more than the length | Memory |
//! |---|---|---|
//! | `new`, `kind`, `len` | none | none |
//! | `row_at` | at most 12 d | none |
//! | `ask_now` | at most 24 d | none |
//! | `failure_after_insert` | at most 36 d | none |
//! | `failure_after_remove` | at most 48 d | none |
//! | `insert` | at most 144 d | a node for the row, and one for its entry |
//! | `remove` | at most 144 d | none |
//! | `all_now` | at most 12 d for each entry that a row adds | the listing |
//! | `ask_after`, with r rows between | at most (113 r + 180) d | the r rows, and those of their entries that stay |
//! | `list_after`, the same | the same, and at most 56 d for each entry listed | the same, and the listing |
//! | `copy` | each once | as many nodes |
//! | `added`, its `len` | none | none |
//! | its `get` | at most 12 d | none |
//!
//! `ask_after` and `list_after` answer for a later queue, and change neither. The entries of this queue are read in order over
//! a cursor, and those that come in go into a heap; of a row that takes the lesser of the two firsts is taken.
//!
//! `added` lends the entries that the rows add in their order, whatever became of them, so that one is read by its rank.
//!
//! What the layer above may rely on: the clauses of `added` and of `Partial`, of which 144 d is the bound for each call but
//! `ask_after`, `copy_after` and `list_after`; that of `ask_after` is (288 r + 144) d. The lesser numbers of this table follow from
//! the bodies, and no public clause names them.
//! Files: `marked_row`, `marked_entry` (what stands in the trees), `row_measure`, `entry_measure`, `extreme` (what
//! a range of them measures, kept small, since each node has two), `row_search` (bridges and the changed
//! entries), `entry_tree` (entries by their order), `added` (all of them, lent), `flip`, `changes`, `failure` (what an edit changes, or
//! which row it stops), `edit` (the two trees together), `cursor`, `fresh`, `held`, `later` (what is held some rows later),
//! `bridge_queue`.
#![tactic(auto)]

mod added;
mod bridge_queue;
mod changes;
mod cursor;
mod edit;
mod entry_measure;
mod entry_tree;
mod extreme;
mod failure;
mod flip;
mod fresh;
mod held;
mod later;
mod marked_entry;
mod marked_row;
mod row_measure;
mod row_search;

pub use added::AddedEntries;
pub use bridge_queue::BridgeQueue;
