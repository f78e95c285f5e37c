//! Tests of the structures. They see only what is public, and stand apart so that a change of a test proves none of the
//! crates anew.
//!
//! `lines` has queue, stack and deque, `dictionaries` the dictionary, `bridges` the queue of `bridge_pq`, `fusions` that of `pq_fusion`,
//! `checkpoints` the first with its past, and `engines` the structure of any kind. All but `bridges` are tested through one `history`, which
//! numbers the rows and plays a table of steps; the plain list of `retro_base` plays the tables of each kind too. `priority_queues` has those
//! of that kind, and `listings` looks at a content. Long histories and drawn ones are tried on the built program (`tests/limits.py`,
//! `tests/drawn.py`). A test hands its structure to `drop` at its end, which is quick to prove where the end of a block is not.
#![tactic(auto)]

#[cfg(test)]
mod bridges;
#[cfg(test)]
mod checkpoints;
#[cfg(test)]
mod dictionaries;
#[cfg(test)]
mod engines;
#[cfg(test)]
mod fusions;
#[cfg(test)]
mod history;
#[cfg(test)]
mod lines;
#[cfg(test)]
mod listings;
#[cfg(test)]
mod priority_queues;
