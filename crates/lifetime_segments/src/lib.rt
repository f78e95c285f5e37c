//! Decomposable search over lifetimes: items that are there from one label to before another, searched at any label.
//!
//! A search is decomposable where its answer over some items is combined of its answers over two parts of them, as a
//! count, a sum or the least item is (Bentley and Saxe 1980). [`Decomposable`] is such a search with its laws, which each
//! implementation proves, and [`Segments`] answers it over the items of all lifetimes that hold a label, for every one
//! of them, and gives these items. For its question it asks for [`RangeSearch`] too, since a span may keep few lifetimes as they
//! are, by their items. Where nothing is asked but at the last label, the items alone serve better.
//!
//! `Segments` is a segment tree (Bentley 1977) over labels of 40 bits. The spans of labels are dyadic: that of the root
//! has all labels, and each has two halves. While the lifetimes in a span are few, it keeps them as they are, clipped to
//! the span, in one vector by their items. Where more come in they are divided: the items of those that hold the
//! whole span lie in a tree of the span itself, in their order, and the others go on into the halves that they touch. So
//! a lifetime is made up of at most two spans of each level. The spans that hold a label are those on the way from the
//! root to it, 41 at the most, and a lifetime that holds the label lies in exactly one of them; so their answers are
//! combined. A span that was divided stays so until it has nothing left.
//!
//! Beside it all lifetimes stand in one tree, by where they begin. One whose end moves mostly keeps its place there, and is
//! replaced; only where it goes past another that begins at the same label is it put in and taken out.
//!
//! | Call | Cost, with n lifetimes |
//! |---|---|
//! | `new` | constant |
//! | `add`, `take` | a search of log n in each of at most 80 spans, and up to 255 lifetimes to move in those that have few; where an `add` divides a span, one search for each of its 255 lifetimes as well, and again in a half that has all of them |
//! | `move_end` | that of an `add` and a `take`, but for the spans that the lifetime has with either end |
//! | `ask` | one `ask` in each of at most 41 spans and as many of `combine`; where the way ends, a search among at most 255 lifetimes, a look at each of them in the range, and one `with_one` for each that holds the label |
//! | `items_at` | a walk through at most 41 spans, and through the items that it gives |
//!
//! `add` and `move_end` take memory in the tree or the vector of each span that a lifetime comes to, and for the node of each that is
//! divided, and leave the lifetimes as they were where there is none; `items_at` takes it for what it gives. No other call
//! takes any.
//!
//! What the layer above may rely on, beside the clauses: the definitions of specs/Ordered.antt, specs/Lifetimes.antt and
//! specs/Lawful.antt, and the laws of lists in their order in specs/OrderedLaws.antt and specs/LifetimeLaws.antt. So a
//! caller with a list of its own says that what is held is that list `in_order`.
//!
//! - `decomposable`: the traits. `segments`: the type and its calls.
//! - `trie`: the spans. `lifetime`: what of a lifetime lies in a span, and what in its halves.
//! - `adding`, `taking`, `moving`: putting a lifetime into its spans, taking it out, and moving its end.
//! - `search`: the way to a label, and the answers on it. `collect`: the items on this way.
//! - `life_list`: the lifetimes of a span that has few. `sorted`: orders, and trees that keep their items in them.
#![tactic(auto)]

mod adding;
mod collect;
mod decomposable;
mod life_list;
mod lifetime;
mod moving;
mod search;
mod segments;
mod sorted;
mod taking;
mod trie;

pub use decomposable::{Decomposable, RangeSearch};
pub use lifetime::Lifetime;
pub use segments::Segments;
