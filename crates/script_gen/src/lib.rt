//! A script for measuring: lines about one timeline, drawn by a generator of numbers.
//!
//! `ScriptGen` gives the lines of `generated` in `specs/Script.antt` one after another: the line that makes the timeline
//! `g` of a kind, and then inserts, deletes and questions in fixed shares. The numbers come from a linear congruential
//! generator modulo 2^64 (Knuth, "The Art of Computer Programming", volume 2, section 3.2.1), so that a kind, a number
//! of lines and a start give the same script on every machine.
//!
//! The layers above may rely on this equation, and on nothing of the shares.
//!
//! - `generator`: the type and its calls. `draws`: drawn numbers. `line`, `print`: a drawn line, and how it is spelled. `tests`.
#![tactic(auto)]

mod draws;
mod generator;
mod line;
mod print;
#[cfg(test)]
mod tests;

pub use generator::ScriptGen;
