//! Laws over whole scripts: what holds of all answers together, whatever the lines.
//!
//! The layers below say what each line of a script comes to (`reactions`) and what a script is answered (`Output.antt` and
//! `Events.antt` of `retro_run`). These laws stand on such definitions alone, and on no structure:
//!
//! - `what_is_written_is_accepted`: the judge of evidence accepts all that a script writes (specs/Accepted.antt).
//! - `changes_alone_hold_the_present`, `who_is_left_has_heard_all`, `mirrors_report_the_present`: whoever sees the changes alone
//!   holds the present, and who follows a script hears of all of them (specs/Mirrored.antt).
//! - `saved_text_reads_back`: a saved timeline, cut into lines, is a block that comes to the same rows, under the same name, kind and
//!   next number (specs/SavedText.antt).
//! - `own_lines_are_answered_alone`: a timeline's own lines are answered as they would be alone, as long as no `new` and no block is
//!   refused because there are too many timelines (specs/OwnLines.antt).
//! - `fused_queues_answer_alike`: `pqf` for `pq` changes no answer (specs/FusedLines.antt).
//!
//! Each is a function that takes and gives nothing: its clause is the law, and its body calls at most the laws that the proof uses.
//!
//! - `laws`: all of them.
#![tactic(auto)]

mod laws;

pub use laws::{
    changes_alone_hold_the_present, fused_queues_answer_alike, mirrors_report_the_present,
    own_lines_are_answered_alone, saved_text_reads_back, what_is_written_is_accepted,
    who_is_left_has_heard_all,
};
