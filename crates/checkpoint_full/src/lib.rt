//! A past for every structure that answers of the present alone.
//!
//! `Full<P>` keeps a structure of the present, and from the first question about the past on some more of the first
//! rows of the same timeline: its checkpoints. The nearest checkpoint that is not later than a place is lent to answer a
//! question about it for the timeline (`ask_after` of `Partial`), and stays as it is. Only where many questions have
//! followed one another closely, a copy of a checkpoint is moved to each of their places in turn (`reader.rt`). An edit
//! goes to the present and to each checkpoint after its place. It is the general way from a partially to a fully
//! retroactive structure of Demaine, Iacono and Langerman, "Retroactive Data Structures", with checkpoints at most a
//! width apart.
//!
//! An edit makes a checkpoint where two neighbours would stand more than a width apart, and drops those whose neighbours
//! do not; where more than 31 are left, the width is doubled (`settle.rt`). Those that are dropped are laid aside and follow
//! the edits too, so that one that is wanted near there again needs no copy (`spares.rt`): where rows come and go in a gap
//! that is a width wide, a checkpoint is made in it and dropped again by turns. So there are never more than 31, and with
//! those laid aside never more than 31 after an edit, however the timeline grows and shrinks.
//!
//! A `Full` is seen as its kind and rows, whether its checkpoints were made, their width and their places, by
//! `specs/Checkpoints.antt`. How far apart places may stand, and which are dropped, is `specs/Widths.antt`; what an edit
//! leaves of the width and the places, `specs/Rule.antt`, over these and the number of rows alone. It implements `Retro`
//! of `retro_base`; after `NoMemory` each call leaves all that is seen, and the rows of every checkpoint, as they were.
//!
//! - `Full`. The least width: `NARROWEST`. The most checkpoints: `MOST_CHECKPOINTS`.
//! - `full`: the type and its calls. `snapshot`: a structure with some first rows of a timeline. `checkpoints`, `spares`: what is
//!   kept of the past. `settle`, `width`: where checkpoints stand. `follow`: an edit, in the present and in the checkpoints behind it.
//!   `past`, `reader`: how a question about the past is answered.
#![tactic(auto)]

mod checkpoints;
mod follow;
mod full;
mod past;
mod reader;
mod settle;
mod snapshot;
mod spares;
mod width;

pub use full::Full;
pub use width::{MOST_CHECKPOINTS, NARROWEST};
