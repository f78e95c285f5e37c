//! A timeline that a block makes, with the evidence of its rows.

ghost use Rattle.std.specs.Prelude.{◌≡◌, [], IfOk, OnOk};
ghost use Rattle.timelines.specs.Kept.{loaded_session};
ghost use Rattle.reactions.specs.Reported.{loaded_evidence};
ghost use Rattle.retro_base.specs.Timeline.{IsTimeline};

use crate::named_timeline::NamedTimeline;
use crate::reported::note;
use reactions::EvidenceLines;
use retro_base::{AnyStructure, Kind, Name, NoMemory, Retro, Rows};
use std::alloc::Global;
use timeline_undo::Session;

/// A timeline that a block has made, and the evidence of its rows.
#[derive(Drop)]
pub(crate) struct LoadedTimeline<R: AnyStructure> {
    pub(crate) timeline: NamedTimeline<R>,
    pub(crate) evidence: EvidenceLines,
}

impl<R: AnyStructure> NamedTimeline<R> {
    ghost use Rattle.reactions.specs.Bench.{with_rows};
    ghost use Rattle.timelines.specs.Kept.{unspent};

    /// The timeline of a block that came to these rows.
    pub(crate) fn of_block(
        alloc: Global,
        name: Name,
        kind: Kind,
        next: u32,
        rows: &Rows,
    ) -> Result<LoadedTimeline<R>, NoMemory>
        requires { IsTimeline kind rows.now next }
        ensures timeline { IfOk result (λ loaded. loaded.timeline ≡ unspent (with_rows name kind next rows.now)) }
        ensures evidence { IfOk result (λ loaded. loaded.evidence ≡ loaded_evidence name kind rows.now) }
    {
        let mut evidence = EvidenceLines::new(alloc);
        let structure = R::empty(alloc, kind, false);
        let session = session_of(alloc, name, structure, next, rows, &mut evidence)?;
        let timeline = NamedTimeline {
            alloc,
            name,
            session,
        };
        Ok(LoadedTimeline { timeline, evidence })
    }
}

/// A session over a structure without rows, with these rows put in; their evidence is noted.
fn session_of<R: Retro + Drop>(
    alloc: Global,
    name: Name,
    structure: R,
    next: u32,
    rows: &Rows,
    evidence: &mut EvidenceLines,
) -> Result<Session<R>, NoMemory>
    requires empty { R.rows structure ≡ [] }
    requires timeline { IsTimeline (R.kind structure) rows.now next }
    requires none { evidence.old ≡ [] }
    ensures session { IfOk result (λ session. session ≡ loaded_session (R.kind structure) next rows.now) }
    ensures evidence { OnOk result (evidence.new ≡ loaded_evidence name (R.kind structure) rows.now) }
{
    let mut session = Session::new(alloc, structure, next)?;
    append_all(&mut session, name, rows, evidence).and(Ok(session))
}

/// Appends rows to a session without rows, one after another, and notes their evidence.
fn append_all<R: Retro + Drop>(
    session: &mut Session<R>,
    name: Name,
    rows: &Rows,
    evidence: &mut EvidenceLines,
) -> Result<(), NoMemory>
    requires empty { session.old ≡ loaded_session session.old.kind session.old.next [] }
    requires timeline { IsTimeline session.old.kind rows.now session.old.next }
    requires none { evidence.old ≡ [] }
    ensures session { OnOk result (session.new ≡ loaded_session session.old.kind session.old.next rows.now) }
    ensures evidence { OnOk result (evidence.new ≡ loaded_evidence name session.old.kind rows.now) }
{
    let kind = session.kind();
    for index in 0..rows.len() {
        let row = rows.row(index);
        let change = session.append(row)?;
        note(evidence, name, kind, index, row, change)?;
    }
    Ok(())
}
