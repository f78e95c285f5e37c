//! The loops of a run: a script is answered line by line, evidence is judged, and a generated script is summed up, from the bytes in to
//! the bytes out.
//!
//! Which bench answers the lines is left open: it is any that meets `AnyBench` of `reactions`. The output of a script is defined in
//! `specs/Output.antt` over the whole list of its lines, by what a bench makes of one line after another; the loop only follows it. A run
//! ends with whether a line was refused, which of a generated script its sum says instead, or early with a `Stop`, and each `Stop` but
//! `NoMemory` has its cause in a clause. What stands in the sink then is said by `specs/Ends.antt` of a script, and by
//! `specs/Delivery.antt` of the other two.
//!
//! The lines and the faults are those of `retro_io`, what becomes of a line is said by `reactions`, and whether evidence is true
//! by `evidence_check`, which shares no code with it: this crate holds nothing but the loops between them.
//!
//! Over a sink at which bytes may wait, an outbox, whoever waits for an answer has it before the program waits for more: nothing waits
//! where a run ends, unless the sink failed, nor where the source is read for a line, since the loop moves its reader by a call that asks
//! for this (`sent_reader`).
//!
//! Followers are handed the events among the answers, and their reports stand after these. A script that nobody follows is answered
//! by the same loop, with no followers. A line `mute I` outside a block is answered by that follower, which then hears and reports nothing
//! more; the others keep their numbers.
//!
//! - `run_script`, `follow_from_start`, `run_check` and `run_generated` are the runs. `Stop` is why one ends early, `Status` how the program
//!   then ends.
//! - `script`, `sent_reader`: a script is answered, line by line. `follow`: what followers are handed, and their reports.
//!   `mute`: who is left, and the line that lets one go. `followed`: a whole run of a script, with followers or without.
//! - `check`, `judging`: evidence is judged, up to the first line that is refused.
//! - `generated`: a generated script is answered and summed up.
//! - `deliver`: how a text is written, what waits is sent, and all arrives. `status`, `stop`: how a run ends.
#![tactic(auto)]

mod check;
mod deliver;
mod follow;
mod followed;
mod generated;
mod judging;
mod mute;
mod script;
mod sent_reader;
mod status;
mod stop;

pub use check::run_check;
pub use followed::{follow_from_start, run_script};
pub use generated::run_generated;
pub use status::Status;
pub use stop::Stop;

/// The most bytes of an input.
const MAX_BYTES: u64 = 1 << 30;
