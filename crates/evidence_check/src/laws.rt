//! Laws over the definition of true evidence.

ghost use Rattle.evidence_check.specs.Laws.{EditsAreSpelled, EditsAreReported, ReportedStays, TrueIsAccepted};

use retro_base::laws::one_change_is_named;

/// Evidence is accepted exactly where it tells of an edit that is accepted and of the one change that this edit
/// makes; and the rows that are reported by it are a history again.
pub fn true_evidence_is_accepted()
    ensures accepted { TrueIsAccepted }
    ensures stays { ReportedStays }
{
    one_change_is_named();
}

/// The evidence of every accepted edit can be spelled, and is accepted after the rows before it without their times:
/// it tells the rows after the edit.
pub fn accepted_edits_are_reported()
    ensures reported { EditsAreReported }
    ensures spelled { EditsAreSpelled }
{
    one_change_is_named();
}
