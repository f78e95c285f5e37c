//! The outcome of accepted edits: their evidence, for a priority queue.

ghost use Rattle.std.specs.Prelude.{◌≡◌, List, [], ◌∷◌, ◌++◌, IfOk, OnOk};
ghost use Rattle.retro_base.specs.declared.row.Row.{Row};
ghost use Rattle.retro_base.specs.Edits.{add};
ghost use Rattle.retro_base.specs.MadeEdits.{IsMade};
ghost use Rattle.timeline_undo.specs.Session.{AreMade, edit_reported, step_reported};
ghost use Rattle.timeline_undo.specs.declared.turn.Turns.TheVariants.{Double};
ghost use Rattle.reactions.specs.Reported.{evidence_with, noted, reported};

use evidence::Evidence;
use reactions::{EvidenceLines, Outcome};
use retro_base::laws::one_change_is_named;
use retro_base::{Change, Kind, Name, NoMemory, Row};
use std::alloc::Global;
use timeline_undo::Turn;

/// The outcome of an accepted list edit: of a priority queue its evidence, and of the other kinds this one.
pub(crate) fn reported(alloc: Global, name: Name, kind: Kind, turn: Turn, plain: Outcome) -> Outcome
    ensures { (rows : List Row) → IsMade kind rows (edit_reported turn) turn.change
        → result ≡ reported name kind rows (edit_reported turn ∷ []) plain }
{
    one_change_is_named();
    match kind {
        Kind::Pq => Outcome::Changed {
            first: evidence_of(name, turn),
            more: EvidenceLines::new(alloc),
        },
        _ => plain,
    }
}

/// The outcome of two list edits that were accepted as one step: of a priority queue the evidence of both.
pub(crate) fn reported_both(
    alloc: Global,
    name: Name,
    kind: Kind,
    first: Turn,
    second: Turn,
    plain: Outcome,
) -> Result<Outcome, NoMemory>
    ensures { (rows : List Row) → AreMade kind rows (Double first second)
        → IfOk result (λ outcome. outcome ≡ reported name kind rows (step_reported (Double first second)) plain) }
{
    one_change_is_named();
    match kind {
        Kind::Pq => {
            let mut more = EvidenceLines::new(alloc);
            more.push(evidence_of(name, second))?;
            Ok(Outcome::Changed {
                first: evidence_of(name, first),
                more,
            })
        }
        _ => Ok(plain),
    }
}

/// Notes the evidence of a row of a block, which was put in at this place, where it is one of a priority queue.
pub(crate) fn note(
    evidence: &mut EvidenceLines,
    name: Name,
    kind: Kind,
    place: u32,
    row: Row,
    change: Change,
) -> Result<(), NoMemory>
    ensures { (rows : List Row) → IsMade kind rows (add place row) change
        → OnOk result (evidence.new ≡ evidence.old ++ noted name kind rows (add place row)) }
{
    one_change_is_named();
    match kind {
        Kind::Pq => evidence.push(Evidence {
            name,
            added: true,
            place,
            number: row.number,
            op: row.op,
            change,
        }),
        _ => Ok(()),
    }
}

/// The evidence of a list edit.
fn evidence_of(name: Name, turn: Turn) -> Evidence
    ensures { result ≡ evidence_with name (edit_reported turn) turn.change }
{
    Evidence {
        name,
        added: turn.added,
        place: turn.place,
        number: turn.row.number,
        op: turn.row.op,
        change: turn.change,
    }
}
