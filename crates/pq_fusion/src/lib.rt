//! The fused priority queue: its whole past is one product, so a question about the past needs no checkpoint.
//!
//! What some neighbouring rows come to, whatever stands before them, is a piece: the entries that they leave, the entries that
//! they put in and remove again, and how many takings found nothing to take. Pieces that stand side by side are fused: what the
//! first one leaves stands before what the second one removes, the takings of the second get the least of these, and what
//! they do not get stays. So a timeline comes to the product of what its rows come to, in whatever way they are joined.
//!
//! What `ins 4`, `ins 2` come to leaves 2 and 4. What `delmin`, `delmin`, `delmin`, `ins 7` come to leaves 7, with three takings
//! unmet. Fused they leave 7, have removed 2 and 4, and one taking is unmet: the third one of these rows cannot be performed.
//!
//! `FusedQueue` is a priority queue of `retro_base`'s trait `Retro`. It keeps its rows in runs of up to 64, and pairs of these and of pairs
//! in a balanced tree above. Each run and each pair has the piece of all rows below it, so what the rows before a place come to is a
//! product of a few pieces and of some rows of one run; what they leave is the state there. A question about the past makes no piece: how
//! many entries are left, and how many of them do not come before a given one, follows from piece to piece by a search of each list by
//! halves, and from row to row in one run. The entry at an index is the last one before which no more are left than the index says, of all
//! that rows add; these the `BridgeQueue` beside has in order, so it is sought by its rank among them, whatever the keys are.
//!
//! Verdicts, changes and the present are those of a `BridgeQueue` beside the tree. An edit goes down one path of the tree to a run, which
//! is made anew with its piece, and what passes there is found by comparing; on the way up each pair learns what passes in one of its
//! sides, finds by one boundary what passes in its own piece, and puts this one entry into a list or takes it out, or puts it in the
//! place of another. So it takes a search of two lists a level by halves, and moves some entries of up to two chunks in each: a list of
//! more than 256 entries is in chunks of at most so many, and counts anew how many stand before each.
//! A run that is full is made two, a pair that comes to few rows is made a run, and where a side would have 3 times as many rows as the
//! other the whole pair is made anew, halved until its runs have no more than 48 rows.
//!
//! How rarely that is so, contracts say by the wear of the tree, which they see beside its rows (`specs/Wear.antt`): by how many rows more
//! than one the sides of each pair differ. The empty queue has none. An edit that the pairs on its path bear adds one for each of them at
//! most, and a part that is made anew has none left, and had so much that twice of it pays for its rows. So over any history of the calls
//! `insert_counted` and `remove_counted` that find their memory, the rows that come into a run that is made anew, which these count
//! (`Anew`), are at most 6 for each digit of m + 1 and 65 for each edit, which is a law (`making_anew_is_rare`). A body that makes larger
//! parts anew more often, or halves them unevenly, is not proved.
//!
//! | Call | Cost, with m rows | Memory |
//! |---|---|---|
//! | `Piece::empty`, `of_row`, `min`, `unmet`, `left_len`, `removed_len` | constant | an entry |
//! | `Piece::fuse` | a walk of the lists of both | the fused lists |
//! | `FusedQueue::new`, `kind`, `len` | constant | none |
//! | `ask_now`, `failure_after_insert`, `failure_after_remove` | those of `BridgeQueue`, log m | none |
//! | `ask_past`, `answer_at`, `ask` | one entry read and one walk of the path, log² m, for each binary digit of the number of entries | none |
//! | `all`, `piece` | in proportion to the rows asked about | as many entries |
//! | `insert`, `remove`, `insert_counted`, `remove_counted` | log² m comparisons; moves in two chunks a list, a count of all; 6 log m + 65 rows anew, each log m, spread over all edits | a run, room in lists |
//! | `stored` | each run and pair once | none |
//!
//! An edit takes all memory of a pair before anything of it changes, and the edit of its side is done or leaves all as before; so after
//! `NoMemory` all is as before, and nothing has to be taken back. `remove` takes memory too. A list of one vector
//! and a chunk grow by an eighth; a chunk that shrinks gives memory back, a vector when the part that it stands in is made anew.
//! The pieces have at least as many entries as there are rows that add, and at most 3 m for each binary digit of m + 1: a side
//! weighs at most 3 quarters of the whole, so there are at most 3 levels for each digit.
//!
//! One row more or less passes one entry: what the rows leave gains it or loses it, and what they do not leave loses it or gains
//! it, with the edited row's own entry in its place. Which entry it is goes from part to part, by one comparison or two with the entry at
//! the boundary of what a later part takes of an earlier one. This is a law (`edits_pass_one`) of all rows, places and edits.
//!
//! `ask_past` counts its visits, a run or a pair that is opened, each row of a run that is gone through and each turn of a search in a
//! list, be it among its chunks or within one, and each node that the entry of a rank is read from: with d digits of m + 1 at most
//! 4 d² (d + 4). That is 24,276 at 65,536 rows and 28,512 at 131,072, 0.37 and 0.22 visits for each row; it is less than one past 17,100
//! rows. A question about the size is one walk, at most 4 d (d + 1): 1,224 and 1,368. In the same design without proofs a question for
//! the least entry was seen to take some 2,400 visits on the mean and 4,500 at the most at 65,536 rows, 2,900 and 5,400 at 131,072. Each
//! turn reads an entry, at most 12 d, and walks the path. On each level of it a pair is opened and the node beside it, whose two lists have
//! together no more entries than it has rows, so one of them has less than half as many; and a chunk has no more than 256, so a search
//! takes at most the digits of that number and 9. A side has at most 3 quarters of the rows of its pair, and where the path goes on in so
//! large a side the node beside has the other quarter: so the searches get shorter from level to level.
//!
//! `insert_counted` and `remove_counted` count theirs, a run or a pair that is opened and each turn of a search in a list: with m rows, the
//! edited one among them, at most 60 for each pair of digits of m + 1 in the tree, and 288 for each digit in the `BridgeQueue` beside it.
//! For on each level of the tree the boundary of a pair is one search in both lists at once, of which each turn halves the chunks or the
//! places that are left of one, and the pair's own lists are searched for an entry that comes in and one that goes. The walk ends where a
//! part is made anew, whose rows `Anew` counts. Not counted are the entries that move within a chunk, and the chunks of a list, whose
//! entries are summed anew.
//!
//! What the layer above may rely on: the clauses of `Piece` and `FusedQueue`, the definitions of specs/Pieces.antt, and the laws of
//! specs/PieceLaws.antt, specs/Edits.antt and specs/WearLevels.antt, which are the contracts of `laws`.
//!
//! - `piece`, `merge`, `of_rows`: a piece, two rising lists together, and the piece of rows one after another. `bound`: an entry, or what
//!   is less or greater than each.
//! - `subtree`, `root`: the tree of rows, and what stands at its root. `read`: its products. `remaining`: what a product leaves.
//!   `row_edit`: a row more or less. `edit`: how the tree takes it. `sides`: the balance of a pair, and its boundary. `rebuild`: a part
//!   that is made anew. `anew`: the counter of its rows.
//! - `entry_list`, `chunks`, `chunk_edits`: entries in rising order with room for an edit, a long list of them in chunks, and an entry that
//!   comes into one of these or goes. `node_piece`: a piece in two such lists. `exchange`: one entry of a list in the
//!   place of another. `interval`: where in a list a place may lie, while it is sought. `boundary`: the entry at a rank of two lists
//!   together. `difference`: what passed, by comparing.
//! - `entry_counts`: how many entries are left after a path, and how many of them do not come before a given one. `select`: the key at an
//!   index of what the first rows leave. `answer`: the answers of that. `fused_queue`.
#![tactic(auto)]

mod anew;
mod answer;
mod bound;
mod boundary;
mod chunk_edits;
mod chunks;
mod difference;
mod edit;
mod entry_counts;
mod entry_list;
mod exchange;
mod fused_queue;
mod interval;
pub mod laws;
mod merge;
mod node_piece;
mod of_rows;
mod piece;
mod read;
mod rebuild;
mod remaining;
mod root;
mod row_edit;
mod select;
mod sides;
mod subtree;

pub use anew::Anew;
pub use bound::Bound;
pub use fused_queue::FusedQueue;
pub use piece::Piece;
