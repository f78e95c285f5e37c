//! Laws over the definitions of what lines are answered, of the output, of its events and of a saved text.

ghost use Rattle.script_laws.specs.Accepted.{WhatIsWrittenIsAccepted};
ghost use Rattle.script_laws.specs.FusedLines.{FusedAnswersAlike};
ghost use Rattle.script_laws.specs.Mirrored.{ChangesAloneHoldThePresent, MirrorsReportThePresent, WhoIsLeftHasHeardAll};
ghost use Rattle.script_laws.specs.OwnLines.{OwnLinesAlone};
ghost use Rattle.script_laws.specs.SavedText.{SavedTextReadsBack};

use evidence::laws::{lines_are_short, lines_are_values};
use evidence_check::laws::{accepted_edits_are_reported, true_evidence_is_accepted};
use followers::laws::mirrors_hold_the_present;
use timeline_file::laws::saved_reads_back;
use timeline_undo::laws::an_undo_leads_back;

/// A law that closes the circle: whatever the script, the judgement of the lines that it writes is that all lines of
/// evidence among them are accepted.
pub fn what_is_written_is_accepted()
    ensures { WhatIsWrittenIsAccepted }
{
    accepted_edits_are_reported();
    lines_are_values();
    lines_are_short();
    an_undo_leads_back();
}

/// Whoever sees the changes alone holds the present: whatever the lines of a script, and whatever the name, the events
/// among the answers leave the entries that the priority queue of this name then holds, and none where there is no such one.
pub fn changes_alone_hold_the_present()
    ensures { ChangesAloneHoldThePresent }
{
    accepted_edits_are_reported();
    true_evidence_is_accepted();
    lines_are_values();
    lines_are_short();
    an_undo_leads_back();
    mirrors_hold_the_present();
}

/// Whoever is left after the lines of a script has heard each event among their answers: from then on it reports what the follower of
/// the start reports after these events.
pub fn who_is_left_has_heard_all()
    ensures { WhoIsLeftHasHeardAll }
{}

/// A mirror that starts without events and is left after the lines of a script reports the entries that the priority queue of its name
/// then holds.
pub fn mirrors_report_the_present()
    ensures { MirrorsReportThePresent }
{
    changes_alone_hold_the_present();
}

/// The text that is saved of a timeline reads back: its lines are those of a block, none of them is long, and the block
/// comes to the same name, kind, rows and next number.
pub fn saved_text_reads_back()
    ensures { SavedTextReadsBack }
{
    saved_reads_back();
}

/// A law, the promise to several writers of one script: each line that is about a timeline has the answer that it would have
/// among that timeline's own lines alone, as long as no `new` and no block is refused because there are too many timelines.
pub fn own_lines_are_answered_alone()
    ensures { OwnLinesAlone }
{}

/// A law, the promise to whoever writes `pqf` for `pq` in some lines `new NAME pq`: every answer stays as it was.
pub fn fused_queues_answer_alike()
    ensures { FusedAnswersAlike }
{}
