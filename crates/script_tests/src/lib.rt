//! Tests of the script and of the program over streams in memory. They see only what is public, and stand apart so that a
//! change of a test proves none of the crates anew. Whole scripts with their answers stand as text in `tests/scripts`, and are tried on
//! the built program: here stands what needs a stream that fails, and calls that tell more than a script shows.
//!
//! One file for each crate: `following` of `followers`, `sessions` of `timeline_undo`, `benches` of `workbench`, `runs` of `retro_cli`. All
//! that `timeline_file`, `evidence` and `evidence_check` answer stands in scripts.
#![tactic(auto)]

#[cfg(test)]
mod benches;
#[cfg(test)]
mod following;
#[cfg(test)]
mod runs;
#[cfg(test)]
mod sessions;
