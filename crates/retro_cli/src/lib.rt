//! The program, from the words of its command line: `run` reads a script from a source and writes the answers to its lines to a sink;
//! or it judges the evidence of one; or it sums up a generated script.
//!
//! `run` carries the theorem of the program (`specs/Promise.antt`), by the form of the words of its command line
//! (`specs/Program.antt`). Where it ends with 0 or 1, the input was read to its end, and exactly the output of the script
//! was appended, or the judgement of its lines; or the sum of a generated one, for which nothing is read. Each other status but out of
//! memory has its cause in a clause, so that without a fault every input is answered, as long as memory lasts. The loops are those of
//! `retro_run`, over the bench of `workbench`.
//!
//! Over a sink at which bytes may wait, an outbox, the top call is `run_sending`. `run_followed` is the top call with followers
//! (`specs/FollowedProgram.antt`): with the word `follow` it answers a script, hands the followers the events among the answers, and
//! writes their reports at the end; with other words it is `run`.
//!
//! - `program`: the top calls `run`, `run_followed` and `run_sending`, of which the first two run over any sink by the loops that send.
//! - `form`, `words`: the words of the command line, and what they ask for. How a run ends is a `Status` of `retro_run`.
//! - `laws`: those of `script_laws`, handed on: what a script answers is accepted by the judge, its events leave the present, who is
//!   left has heard them all, and a timeline's own lines are answered as they would be alone.
#![tactic(auto)]

mod form;
mod program;
mod words;

pub use program::{run, run_followed, run_sending};
pub use retro_run::Status;
pub use script_laws as laws;
pub use words::Words;
